ghost use Rattle.std.specs.Prelude.{◌≡◌, ℕ, ◌<◌, true, OnOk, Err};
ghost use Rattle.smp_frac.specs.Fractions.{Fraction, Same};
ghost use Rattle.smp_tape.specs.declared.draws.DrawFault.{DrawFault};
ghost use Rattle.smp_split.specs.{Means.{mean, value_sum, inclusion_probability}, Runs.{position, Arrived, KeepsOn, Refused, Untold}};
ghost use Rattle.smp_split.specs.declared.walking.WalkFault.TheVariants as fault;

use crate::{Splitting, Trace};
use smp_frac::NoMemory;
use smp_tape::{DrawFault, Draws};

/// Why a walk stopped before the end.
#[derive(Clone, Copy, Debug, PartialEq, Eq)]
pub enum WalkFault {
    /// A draw was refused.
    Draw(DrawFault),
    /// There was no memory for the line of a step.
    NoMemory,
}

impl From<DrawFault> for WalkFault {
    ghost from_gives = { λ refused result. result ≡ fault.Draw refused };

    fn from(fault: DrawFault) -> WalkFault {
        WalkFault::Draw(fault)
    }
}

impl From<NoMemory> for WalkFault {
    ghost from_gives = { λ _ result. result ≡ fault.NoMemory };

    fn from(_: NoMemory) -> WalkFault {
        WalkFault::NoMemory
    }
}

/// Goes down the tree of a design by draws, from a state to a done one. It ends as the run over the draws' source does.
///
/// After a refused draw the state is the one that asked, and so much is left of the draws as their source leaves: a value
/// that a tape refuses stays on it. Where the trace was refused, the value of that step was taken.
pub fn walk<S: Splitting, D: Draws, T: Trace<S>>(
    design: &S,
    state: &mut S::State,
    draws: &mut D,
    trace: &mut T,
) -> Result<(), WalkFault>
    requires { (S.method design.now).belongs state.old }

    // How it ends: at a leaf, at a state whose draw was refused, or at a step that wasn't told.
    ensures arrived { OnOk result (Arrived D.source (S.method design.now).tree
        (position state.old draws.old (T.lines trace.old))
        (position state.new draws.new (T.lines trace.new))) }
    ensures refused { (refusal : DrawFault) → result ≡ Err (WalkFault.Draw refusal)
        → Refused D.source (S.method design.now).tree refusal
        (position state.old draws.old (T.lines trace.old))
        (position state.new draws.new (T.lines trace.new)) }
    ensures untold { result ≡ Err WalkFault.NoMemory
        → Untold D.source (S.method design.now).tree
        (position state.old draws.old (T.lines trace.old))
        (position state.new draws.new (T.lines trace.new)) }
    ensures may_refuse { result ≡ Err WalkFault.NoMemory → T.may_refuse ≡ true }
    ensures kept { OnOk result (KeepsOn (T.keeps design.now) state.old state.new
        trace.old trace.new) }
    ensures belongs { (S.method design.now).belongs state.new }

    // What a uniform draw at each step would give on average, from where it began.
    ensures mean { (c : ℕ → Fraction)
        → Same (mean (S.method design.now).tree c state.old)
        (value_sum (S.method design.now).tree c state.old) }
    ensures probability { (unit : ℕ) → unit < (S.method design.now).tree.units
        → Same (inclusion_probability (S.method design.now).tree state.old unit)
        ((S.method design.now).tree.value state.old unit) }
{
    while !design.done(state) {
        let kind = design.kind(state);
        let bound = design.bound(state);
        let value = draws.below(bound)?;
        trace.line(design, state, kind, bound, value)?;
        design.advance(state, value);
    }
    Ok(())
}
