//! The first move of a flight, worked by hand from the definitions. Whole flights are cases of `crates/cases`.

ghost use Rattle.std.specs.Prelude.{◌≡◌, ◌+◌, ◌≤◌, ◌≤ℤ◌, IfOk, length, pos};
ghost use Rattle.smp_prob.specs.Requests.{IsRequest};
ghost use Rattle.smp_flight.specs.{States.{AreFirst, IsFlight}, Requests.{AreValues}};

use smp_flight::*;
use smp_frac::{NoMemory, Numbers};
use smp_kernel::Steps;
use smp_prob::Request;
use std::alloc::Global;
use std::marker::Brand;
use std::sync::ledger::{Blank, Ledger};
use std::test::Fail;

/// Whether a move has equal weights, goes 1/4 each way, and has the entries 1, -2 and 1 at the first three units.
fn is_expected(mv: &Move) -> bool {
    let quarter = End {
        reach: Reach { left: 1, size: 2 },
        full: 4,
        common: 1,
    };
    let mut units = [0; 17];
    units[1] = 1;
    units[2] = 2;
    let mut entries = [0; 17];
    entries[0] = 1;
    entries[1] = -2;
    entries[2] = 1;
    *mv == Move {
        plus_weight: 1,
        minus_weight: 1,
        up: quarter,
        down: quarter,
        direction: Line {
            units,
            entries,
            number: 3,
        },
    }
}

/// Whether four units have the values 3/4, 0, 3/4 and 1/2.
fn is_at_its_end(state: &FlightState) -> bool {
    state.units() == 4
        && [
            state.numer(0),
            state.numer(1),
            state.numer(2),
            state.numer(3),
        ] == [3, 0, 3, 2]
        && state.denom() == 4
        && state.fractional() == 3
        && is_kept_apart(state)
}

/// Whether the window has the units 0 and 2, whose numerators are kept over 4, where that of unit 3 is kept over 2.
fn is_kept_apart(state: &FlightState) -> bool
    requires four { length state.now.flight.values.numer ≡ 4 }
{
    let cells = state.cells();
    [cells.get(0), cells.get(1), cells.get(2), cells.get(3)] == [3, 0, 3, 1]
        && state.window() == [0, 2].as_slice()
}

/// Goes along the first move, counted on a ledger that nothing was written into, and says whether it and its end are the expected ones.
///
/// With two rows in force three numerators are written at most.
fn moves<L: Ledger>(shape: &Shape, state: &mut FlightState, blank: Blank) -> bool
    requires flight { IsFlight shape.now state.old.flight }
    requires first { AreFirst state.old.flight state.old.window }
    requires two { state.old.flight.rows ≡ 2 }
    requires name { blank.name ≡ L.name }
    requires parts { blank.parts ≡ L.parts }
    requires some { 1 ≤ blank.parts }
    ensures few { state.new.writes ≤ state.old.writes + 3 }
{
    let mut steps = Steps::<L>::new(blank);
    match step(shape, state) {
        Next::Move(mv) => {
            apply(shape, state, &mv, true, &mut steps);
            is_expected(&mv) && is_at_its_end(state)
        }
        _ => false,
    }
}

/// The first move from the start.
fn moves_from_the_start(alloc: Global, shape: &Shape) -> Result<bool, NoMemory> {
    let mut state = start(alloc, shape)?;
    Ok(state.rows() == 2 && moves::<Brand>(shape, &mut state, Blank::new(1)))
}

/// The first move of four units with these values.
fn moves_with(alloc: Global, request: &Request, xs: &[Numbers]) -> Result<bool, NoMemory>
    requires request { IsRequest request.now }
    requires values { AreValues xs.now }
    requires one_each { length xs.now ≡ length request.now.free }
{
    let shape = Shape::new(alloc, request, xs)?;
    moves_from_the_start(alloc, &shape)
}

/// The balancing values 1, 2, 3 and 4 of four units.
fn one_to_four(alloc: Global) -> Result<Vec<Numbers>, NoMemory>
    ensures are { IfOk result (λ xs. AreValues xs.items) }
    ensures one_each { IfOk result (λ xs. length xs.items ≡ 4) }
{
    let mut xs = Vec::new(alloc);
    for unit in 0..4usize {
        xs.push(Numbers::from_slice(alloc, &[1 + unit as i32])?)?;
    }
    Ok(xs)
}

/// The first move of four units with the values 1, 2, 3 and 4.
fn moves_on_a_line(alloc: Global, request: &Request) -> Result<bool, NoMemory>
    requires request { IsRequest request.now }
    requires four { length request.now.free ≡ 4 }
{
    let xs = one_to_four(alloc)?;
    moves_with(alloc, request, xs.as_slice())
}

#[test]
fn a_first_move_writes_three_numerators_at_most(rt: HostRuntime) -> Result<(), Fail> {
    let halves = Request::all_free(rt.alloc(), &[1; 4], 2, 4)?;
    assert!(rt; moves_on_a_line(rt.alloc(), &halves)?);
    Ok(())
}

/// Four times the same two balancing values.
fn twice_each(alloc: Global, most: i32) -> Result<Vec<Numbers>, NoMemory>
    requires { pos 0 ≤ℤ most }
    ensures are { IfOk result (λ xs. AreValues xs.items) }
    ensures one_each { IfOk result (λ xs. length xs.items ≡ 4) }
{
    let mut xs = Vec::new(alloc);
    for i in 0..4usize {
        xs.push(Numbers::from_slice(alloc, &[most, most])?)?;
    }
    Ok(xs)
}

/// Whether four units of equal sizes with two balancing values up to this are narrow.
fn is_narrow_up_to(alloc: Global, request: &Request, most: i32) -> Result<bool, NoMemory>
    requires request { IsRequest request.now }
    requires four { length request.now.free ≡ 4 }
    requires most { pos 0 ≤ℤ most }
{
    let xs = twice_each(alloc, most)?;
    let shape = Shape::new(alloc, request, xs.as_slice())?;
    Ok(is_narrow(&shape))
}

// 3 times the square of the first is below 2^44, and of the second above it.
#[test]
fn equal_sizes_are_narrow_up_to_the_bound(rt: HostRuntime) -> Result<(), Fail> {
    let halves = Request::all_free(rt.alloc(), &[1; 4], 2, 4)?;
    assert!(rt; is_narrow_up_to(rt.alloc(), &halves, 2_421_582)?);
    assert!(rt; !is_narrow_up_to(rt.alloc(), &halves, 2_421_583)?);
    Ok(())
}
