//! Points with fewer coordinates than are asked for, as no design of the program has them.

ghost use Rattle.std.specs.Prelude.{◌≡◌, length};
ghost use Rattle.smp_prob.specs.Requests.{IsRequest};

use crate::walks;
use smp_frac::{NoMemory, Numbers};
use smp_localpiv::*;
use smp_prob::Request;
use smp_split::{Kind, Splitting};
use std::alloc::Global;
use std::test::Fail;

/// Whether a walk from this state goes from the first unit to the third and then from the second one to the third, which is selected.
fn walks_to_the_third<S: Splitting>(
    alloc: Global,
    design: &S,
    state: &mut S::State,
) -> Result<bool, Fail>
    requires { (S.method design.now).belongs state.old }
{
    let path = [
        (Kind::Choose, 3, 0),
        (Kind::Pivot, 2, 1),
        (Kind::Choose, 2, 0),
        (Kind::Pivot, 3, 1),
    ];
    Ok(walks(alloc, design, state, path.as_slice(), &[2])?)
}

/// Whether the walk does so from the start.
fn walks_from_the_start(alloc: Global, design: &AnyLocalPivotal) -> Result<bool, Fail> {
    let mut state = design.start(alloc)?;
    walks_to_the_third(alloc, design, &mut state)
}

/// Whether the walk does so of units with two coordinates, which are the values of these lists.
fn walks_in_a_plane(alloc: Global, request: &Request, values: &[Numbers]) -> Result<bool, Fail>
    requires request { IsRequest request.now }
    requires paired { length values.now ≡ length request.now.free }
{
    let design = AnyLocalPivotal::new(alloc, request, 2, values)?;
    walks_from_the_start(alloc, &design)
}

/// Lists of values that are the points [3, 4], [0, 0] and [3, 0].
fn values_of_points(alloc: Global) -> Result<[Numbers; 3], NoMemory> {
    Ok([
        Numbers::from_slice(alloc, &[3, 4])?,
        Numbers::from_slice(alloc, &[])?,
        Numbers::from_slice(alloc, &[3])?,
    ])
}

fn walks_to_shorter_points(alloc: Global) -> Result<bool, Fail> {
    let values = values_of_points(alloc)?;
    let thirds = Request::all_free(alloc, &[1; 3], 1, 3)?;
    walks_in_a_plane(alloc, &thirds, values.as_slice())
}

#[test]
fn coordinates_that_are_left_out(rt: HostRuntime) -> Result<(), Fail> {
    assert!(rt; walks_to_shorter_points(rt.alloc())?);
    Ok(())
}
