//! The steps of a replay.

ghost use Rattle.std.specs.Prelude.{◌≡◌, ◌+◌, ◌<◌, ◌≤◌, ◌^◌, true, false, length, IfErr, IfOk, OnOk, OnErr, option_map};
ghost use Rattle.smp_split.specs.Runs.{KeepsOn};
ghost use Rattle.smp_log.specs.Steps.{AreAllMade, AreStopped, StepsOn};

use crate::ReplayFault;
use crate::lines::step_first;
use crate::parts::Part;
use smp_frac::NoMemory;
use smp_split::{Splitting, Trace};

// The steps of a part, read.
#[derive(Drop)]
pub(crate) struct StepsRead<'a> {
    // What stands behind their lines.
    pub(crate) rest: &'a [u8],
    // How many there are.
    pub(crate) steps: u64,
    // How many of them take a value of the tape: those with a bound of 2 or more.
    pub(crate) taken: u64,
}

// Makes the steps of a part, whose lines stand first in a text behind so many lines, and tells them to a trace, in their
// order. `Differs` names the line that isn't that of a step, where one of the part comes next.
pub(crate) fn replay_steps<'a, S: Splitting, P: Part<S>, T: Trace<S>>(
    run: &S,
    state: &mut S::State,
    part: &P,
    text: &'a [u8],
    lines: u64,
    trace: &mut T,
) -> Result<StepsRead<'a>, ReplayFault>
    requires member { (S.method run.now).belongs state.old }
    requires part { P.fits part.now run.now }
    requires room { lines + length text.now + 1 < 2 ^ 64 }
    ensures made { IfOk result (λ read.
        AreAllMade (S.method run.now).tree (P.has part.now run.now) state.old state.new text.now
        read.rest.now read.steps read.taken (T.lines trace.old) (T.lines trace.new)) }
    ensures few { IfOk result (λ read. (read.taken ≤ read.steps)
        × (read.steps + length read.rest.now ≤ length text.now)
        × (lines + read.steps + 1 < 2 ^ 64)) }
    ensures stopped { IfErr result
        (AreStopped (S.method run.now).tree (P.has part.now run.now) state.old state.new text.now
        lines (T.lines trace.old) (T.lines trace.new) T.may_refuse) }
    ensures kept { OnOk result (KeepsOn (T.keeps run.now) state.old state.new trace.old trace.new) }
{
    let mut rest = text;
    let mut steps = 0;
    let mut taken = 0;
    while part.goes_on(run, state) {
        let Some((after, bound)) = replay_step(run, state, rest, trace)? else {
            return Err(ReplayFault::Differs {
                line: lines + steps + 1,
            });
        };
        rest = after;
        steps += 1;
        taken += (bound > 1) as u64;
    }
    Ok(StepsRead { rest, steps, taken })
}

// Makes the step whose line stands first in a text, and tells it to a trace. Gives what stands behind the line, and the
// bound of the step, or `None` where the first line isn't that of the state's next step. Nothing is done then.
fn replay_step<'a, S: Splitting, T: Trace<S>>(
    run: &S,
    state: &mut S::State,
    text: &'a [u8],
    trace: &mut T,
) -> Result<Option<(&'a [u8], u128)>, NoMemory>
    requires member { (S.method run.now).belongs state.old }
    requires going { (S.method run.now).tree.done state.old ≡ false }
    ensures step { IfOk result (λ step. StepsOn (S.method run.now).tree state.old state.new text.now
        (option_map (λ p. (p.0.now, p.1)) step) (T.lines trace.old) (T.lines trace.new)) }
    ensures kept { OnOk result (KeepsOn (T.keeps run.now) state.old state.new trace.old trace.new) }
    ensures stays { OnErr result (state.new ≡ state.old) }
    ensures untold { OnErr result (T.lines trace.new ≡ T.lines trace.old) }
    ensures may_refuse { OnErr result (T.may_refuse ≡ true) }
{
    let kind = run.kind(state);
    let bound = run.bound(state);
    let Some((value, after)) = step_first(text, kind, bound) else {
        return Ok(None);
    };
    trace.line(run, state, kind, bound, value)?;
    run.advance(state, value);
    Ok(Some((after, bound)))
}
