ghost use Rattle.std.specs.Prelude.{◌≡◌, ◌↔◌, ℕ, ◌<◌, ◌≤◌, length, slice_index, EachIndex, OnOk, IfOk, Err};
ghost use Rattle.smp_frac.specs.{Limits.{most_rows, number_limit}, Fractions.{Same}};
ghost use Rattle.smp_prob.specs.Requested.{positive_units, requested_fraction};
ghost use Rattle.smp_tape.specs.declared.draws.DrawFault.{DrawFault};
ghost use Rattle.smp_split.specs.Means.{inclusion_probability};
ghost use Rattle.library_example.specs.Draws.{tree_of, start_of, IsDrawn, IsRefused};
ghost use Rattle.library_example.specs.declared.fault.Fault.TheVariants as Fault;

use crate::fault::Fault;
use smp_pivotal::Pivotal;
use smp_prob::{Order, requested};
use smp_split::{NoTrace, Rows, selected_units, walk};
use smp_tape::Tape;
use std::alloc::Global;

/// Draws `n` rows, with probabilities in proportion to size, by sequential pivotal steps and the values of a tape, and
/// answers them in order. Values that are left on the tape aren't looked at.
///
/// `TooMany` comes exactly where `n` passes the number of sizes above 0. Else `Draw` comes exactly where the tape leads to
/// a state whose draw it refuses, unless memory runs out: it is too short, or its next value isn't below the bound.
pub fn draw(alloc: Global, sizes: &[u32], n: u32, tape: &[u128]) -> Result<Vec<usize>, Fault>
    requires few { length sizes.now ≤ most_rows }
    requires small { EachIndex sizes.now (λ i. slice_index sizes.now i < number_limit) }
    requires some { 1 ≤ n }
    // Over draws that are uniform below each bound and independent of those before, each row is selected with exactly
    // the probability that is requested of its size.
    ensures probability { OnOk result ((row : ℕ) → row < length sizes.now → Same
        (inclusion_probability (tree_of sizes.now n) (start_of sizes.now n) row)
        (requested_fraction n sizes.now (slice_index sizes.now row))) }
    // The rows are those of the leaf to which the values of the tape lead.
    ensures drawn { IfOk result (λ rows. IsDrawn sizes.now n tape.now rows.items) }
    // More rows are asked for than have a size above 0.
    ensures too_many { result ≡ Err Fault.TooMany ↔ positive_units sizes.now < n }
    // The values of the tape lead to a state whose draw is refused with this fault.
    ensures refused { (fault : DrawFault) → result ≡ Err (Fault.Draw fault)
        → IsRefused sizes.now n tape.now fault }
{
    let request = requested(alloc, sizes, n)?;
    let design = Pivotal::new(alloc, &request, Order::Frame)?;
    let mut state = design.start(alloc)?;
    let rows = Rows {
        design,
        request: &request,
        rows: sizes.len(),
    };
    rows.select_as_asked(&state);
    let mut tape = Tape::from_values(alloc, tape)?;
    walk(&rows, &mut state, &mut tape, &mut NoTrace)?;
    Ok(selected_units(alloc, &rows, &state)?)
}
