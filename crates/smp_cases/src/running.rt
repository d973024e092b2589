//! How a case is run.

ghost use Rattle.std.specs.Prelude.{◌≡◌, ◌<◌, ◌≤◌, true, false, length, slice_index, EachIndex, IfOk, []};
ghost use Rattle.smp_frac.specs.{Limits.{number_limit}, Memory.{Reads}};
ghost use Rattle.smp_cases.specs.Cases.{drawn, is_memory, mask, verdict};
ghost use Rattle.smp_design.specs.{Procedures.{without_values}, Words.{needs_columns}};
ghost use Rattle.smp_methods.specs.{Methods.{method_of}, Procedures.{DrawsWhole}, Starts.{IsStarted}};
ghost use Rattle.smp_prob.specs.Requests.{IsRequest};
ghost use Rattle.smp_split.specs.{Rows.{BelongsToRows, rows_tree}, Counts.{selected_units}};

use crate::CaseFault;
use smp_design::{Method, Procedure};
use smp_frac::NoMemory;
use smp_methods::Started;
use smp_prob::{ProbFault, Request, requested};
use smp_split::{NoTrace, Rows, Splitting, WalkFault, walk};
use smp_tape::Tape;
use std::alloc::Global;

/// Whether a method needs columns of a frame, as the coordinates of the units or as their balancing values.
pub fn needs_columns(method: Method) -> bool
    ensures { result ≡ needs_columns method }
{
    method.needs_columns()
}

// Starts to draw the free units of a request by a method.
fn start(alloc: Global, method: Method, request: &Request) -> Result<Started, NoMemory>
    requires method { needs_columns method ≡ false }
    requires request { IsRequest request.now }
    requires whole { DrawsWhole request.now }
    ensures { IfOk result
        (IsStarted (without_values method) request.now [] []) }
{
    let procedure = Procedure::without_values(method);
    Started::new(alloc, procedure, request, &[], &[])
}

// The units that a done state selects, as a mask.
fn mask_of<S: Splitting>(design: &S, state: &S::State) -> u64
    requires few { (S.method design.now).tree.units ≤ 64 }
    requires belongs { (S.method design.now).belongs state.now }
    requires done { (S.method design.now).tree.done state.now ≡ true }
    ensures { result ≡ mask (selected_units (S.method design.now).tree state.now) }
{
    let mut mask = 0;
    for unit in 0..design.units() {
        if design.selected(state, unit) {
            mask += 1 << unit;
        }
    }
    mask
}

// Draws by a design with the values of a tape, from a state on.
fn draw<S: Splitting>(
    alloc: Global,
    design: &S,
    state: &mut S::State,
    values: &[u128],
) -> Result<u64, CaseFault>
    requires few { (S.method design.now).tree.units ≤ 64 }
    requires belongs { (S.method design.now).belongs state.old }
    ensures { Reads is_memory result (drawn (S.method design.now).tree state.old values.now) }
{
    let Ok(mut tape) = Tape::from_values(alloc, values) else {
        return Err(CaseFault::NoMemory);
    };
    match walk(design, state, &mut tape, &mut NoTrace) {
        Ok(()) => {}
        Err(WalkFault::Draw(fault)) => return Err(CaseFault::Draw(fault)),
        Err(WalkFault::NoMemory) => return Err(CaseFault::NoMemory),
    }
    let left = tape.left();
    if left > 0 {
        return Err(CaseFault::Long { left });
    }
    Ok(mask_of(design, state))
}

// Draws the units of a request, the certain ones among them, by a design that was started for its free units.
fn draw_all(
    alloc: Global,
    started: Started,
    request: &Request,
    units: usize,
    values: &[u128],
) -> Result<u64, CaseFault>
    requires few { units ≤ 64 }
    requires belongs { BelongsToRows request.now (method_of started.design).tree
        (method_of started.design).belongs started.state }
    ensures { Reads is_memory result
        (drawn (rows_tree units request.now (method_of started.design).tree)
        started.state values.now) }
{
    let Started { design, mut state } = started;
    let rows = Rows {
        design,
        request,
        rows: units,
    };
    let drawn = draw(alloc, &rows, &mut state, values);
    // each by a call: left to the end of the function, each way to drop the one would be gone through for each of the other
    drop(rows);
    drop(state);
    drawn
}

/// Draws `n` units, with probabilities in proportion to size, by a method and the values of a tape, and answers the mask of the
/// drawn units: bit i stands for the unit with `sizes[i]`, and the certain units are among them. The method takes the units in the
/// order in which their sizes stand.
///
/// There are at most 64 sizes, each at most 2,147,483,647, and n is at least 1. The tape has a value for each step whose bound is
/// 2 or more.
///
/// `TooMany` comes exactly where `n` passes the number of sizes above 0, `Draw` exactly where a step's draw is refused, as no
/// value is left or as the next one isn't below the bound, and `Long` exactly where values are left once the units are drawn.
/// `NoMemory` may come in place of any answer.
pub fn run_case(
    alloc: Global,
    method: Method,
    sizes: &[u32],
    n: u32,
    tape: &[u128],
) -> Result<u64, CaseFault>
    requires method { needs_columns method ≡ false }
    requires few { length sizes.now ≤ 64 }
    requires small { EachIndex sizes.now (λ i. slice_index sizes.now i < number_limit) }
    requires some { 1 ≤ n }
    ensures { Reads is_memory result (verdict method sizes.now n tape.now) }
{
    let request = match requested(alloc, sizes, n) {
        Ok(request) => request,
        Err(ProbFault::TooMany { positive }) => return Err(CaseFault::TooMany { positive }),
        Err(ProbFault::NoMemory) => return Err(CaseFault::NoMemory),
    };
    match start(alloc, method, &request) {
        Ok(started) => draw_all(alloc, started, &request, sizes.len(), tape),
        Err(_) => Err(CaseFault::NoMemory),
    }
}
