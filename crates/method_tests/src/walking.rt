//! Walks whose steps are known beforehand, as the tests of the selection methods tell them.

ghost use Rattle.std.specs.{Prelude.{◌≡◌, [], IfOk}, Bool.{Decides}};
ghost use Rattle.smp_tape.specs.Tapes.{tape_of_values};
ghost use Rattle.smp_split.specs.Paths.{values_of};
ghost use Rattle.method_tests.specs.Walks.{IsWalk};

use smp_frac::NoMemory;
use smp_split::{Kind, Lines, Splitting, WalkFault, selected_units, walk};
use smp_tape::Tape;
use std::alloc::Global;

/// Whether a walk from this state, over a tape of the values of this path, takes the path, and then
/// selects these units.
///
/// The path has the kind, the bound and the value of each step, and the units rise. Whatever the answer, the state is one of
/// the design's.
pub fn walks<S: Splitting>(
    alloc: Global,
    design: &S,
    state: &mut S::State,
    path: &[(Kind, u128, u128)],
    units: &[usize],
) -> Result<bool, NoMemory>
    requires { (S.method design.now).belongs state.old }
    ensures walks { IfOk result (λ holds. Decides holds
        (IsWalk (S.method design.now).tree state.old path.now units.now)) }
    ensures belongs { (S.method design.now).belongs state.new }
{
    let mut tape = tape_for(alloc, path)?;
    let mut lines = Lines::new(alloc);
    match walk(design, state, &mut tape, &mut lines) {
        Ok(()) => {
            let told = lines.as_slice() == path;
            let selected = selected_units(alloc, design, state)?;
            Ok(told && selected.as_slice() == units)
        }
        Err(WalkFault::Draw(_)) => Ok(false),
        Err(WalkFault::NoMemory) => Err(NoMemory),
    }
}

// The tape of the values that a path takes: those of the steps whose bound is 2 or more.
fn tape_for(alloc: Global, path: &[(Kind, u128, u128)]) -> Result<Tape, NoMemory>
    ensures { IfOk result (λ tape. tape ≡ tape_of_values [] (values_of path.now)) }
{
    let mut values = Vec::new(alloc);
    for &(_, bound, value) in path {
        if bound > 1 {
            values.push(value)?;
        }
    }
    Tape::from_values(alloc, values.as_slice())
}
