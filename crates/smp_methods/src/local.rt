//! The local cube over the values and the points of units.

ghost use Rattle.std.specs.Prelude.{◌≡◌, ◌≤◌, IfOk, length};
ghost use Rattle.smp_prob.specs.Requests.{IsRequest};
ghost use Rattle.smp_values.specs.Starts.{IsRequested};
ghost use Rattle.smp_flight.specs.Requests.{AreValues, units_of};
ghost use Rattle.smp_localpiv.specs.Coordinates.{points_of};
ghost use Rattle.smp_localcube.specs.Method.{method_of, started};

use smp_frac::{NoMemory, Numbers};
use smp_localcube::{AnyLocalCube, LocalCube};
use smp_near::ByDimensions;
use smp_prob::Request;
use std::alloc::Global;

/// The design of a request by the local cube: each unit has a list of balancing values, and one of so many coordinates.
pub(crate) fn local_cube(
    alloc: Global,
    request: &Request,
    xs: &[Numbers],
    near: usize,
    points: &[Numbers],
) -> Result<AnyLocalCube, NoMemory>
    requires request { IsRequest request.now }
    requires near { (1 ≤ near) × (near ≤ 4) }
    requires one_each { length xs.now ≡ length request.now.free }
    requires paired { length points.now ≡ length request.now.free }
    requires balancing { AreValues xs.now }
    ensures design { IfOk result (λ design. design
        ≡ record { units = units_of request.now xs.now; coords = points_of near points.now }) }
    ensures requested { IfOk result (λ design.
        IsRequested (method_of design).tree request.now (started design)) }
{
    match near {
        1 => Ok(AnyLocalCube {
            design: ByDimensions::One(located(alloc, request, xs, points)?),
        }),
        2 => Ok(AnyLocalCube {
            design: ByDimensions::Two(located(alloc, request, xs, points)?),
        }),
        3 => Ok(AnyLocalCube {
            design: ByDimensions::Three(located(alloc, request, xs, points)?),
        }),
        _ => Ok(AnyLocalCube {
            design: ByDimensions::Four(located(alloc, request, xs, points)?),
        }),
    }
}

// The design over points with `K` coordinates.
fn located<const K: usize>(
    alloc: Global,
    request: &Request,
    xs: &[Numbers],
    points: &[Numbers],
) -> Result<LocalCube<K>, NoMemory>
    requires request { IsRequest request.now }
    requires dimensions { (1 ≤ K) × (K ≤ 4) }
    requires one_each { length xs.now ≡ length request.now.free }
    requires paired { length points.now ≡ length request.now.free }
    requires balancing { AreValues xs.now }
    ensures design { IfOk result (λ design. design
        ≡ record { units = units_of request.now xs.now; coords = points_of K points.now }) }
    ensures requested { IfOk result (λ design.
        IsRequested (method_of design).tree request.now (started design)) }
{
    let coords = smp_localpiv::points::<K>(alloc, points)?;
    LocalCube::new(alloc, request, xs, coords.as_slice())
}
