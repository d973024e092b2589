//! Local pivotal selection of many units, by a seed.

use smp_localpiv::LocalPivotal;
use smp_prob::requested;
use smp_split::{NoTrace, Splitting, selected_units, walk};
use smp_tape::{ChaChaWords, Draws, Sieve};
use std::alloc::Global;
use std::test::Fail;

// The next state of a generator of numbers, each of which is the state without its last 33 bits.
fn next(state: u64) -> u64 {
    state
        .wrapping_mul(6_364_136_223_846_793_005)
        .wrapping_add(1_442_695_040_888_963_407)
}

// So many points, whose coordinates are numbers of the generator modulo 50.
fn cloud(alloc: Global, count: usize) -> Result<Vec<[i32; 2]>, Fail> {
    let mut state = 1;
    let mut points = Vec::new(alloc);
    for _i in 0..count {
        let first = next(state);
        state = next(first);
        points.push([(first >> 33) as i32 % 50, (state >> 33) as i32 % 50])?;
    }
    Ok(points)
}

// The units that a design selects by draws, where none is refused.
fn selected_by<S: Splitting, D: Draws>(
    alloc: Global,
    design: &S,
    state: &mut S::State,
    draws: &mut D,
) -> Result<Option<Vec<usize>>, Fail>
    requires { (S.method design.now).belongs state.old }
{
    let end = walk(design, state, draws, &mut NoTrace);
    if end.is_err() || !design.done(state) {
        return Ok(None);
    }
    Ok(Some(selected_units(alloc, design, state)?))
}

// The units at these points that are drawn, `n` of them with equal probabilities, by the key of zeros.
fn drawn(alloc: Global, coords: &[[i32; 2]], n: u32) -> Result<Option<Vec<usize>>, Fail> {
    if coords.len() > 200_000 || n == 0 {
        return Ok(None);
    }
    let sizes = vec![in alloc; 1; coords.len()]?;
    let Ok(request) = requested(alloc, sizes.as_slice(), n) else {
        return Ok(None);
    };
    if request.free.as_slice().len() != coords.len() {
        return Ok(None);
    }
    let design = LocalPivotal::new(alloc, &request, coords)?;
    let mut state = design.start(alloc)?;
    let mut draws = Sieve::new(ChaChaWords::new([0; 32]));
    selected_by(alloc, &design, &mut state, &mut draws)
}

// How many units these are, the first and the last of them, and their numbers added up.
type Summary = (usize, Option<usize>, Option<usize>, u64);

fn summary(units: &[usize]) -> Summary {
    let sum = units
        .iter()
        .fold(0u64, |sum, &unit| sum.wrapping_add(unit as u64));
    (
        units.len(),
        units.first().copied(),
        units.last().copied(),
        sum,
    )
}

fn drawn_summary(alloc: Global) -> Result<Option<Summary>, Fail> {
    let points = cloud(alloc, 20_000)?;
    let units = drawn(alloc, points.as_slice(), 4_000)?;
    Ok(units.map(|units| summary(units.as_slice())))
}

// They are those of the same draw in another language.
#[test]
fn four_thousand_of_twenty_thousand(rt: HostRuntime) -> Result<(), Fail> {
    let wanted = (4_000, Some(13), Some(19_997), 39_496_730);
    assert_eq!(rt; drawn_summary(rt.alloc())?, Some(wanted));
    Ok(())
}
