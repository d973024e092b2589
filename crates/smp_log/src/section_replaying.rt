ghost use Rattle.std.specs.Prelude.{OnOk};
ghost use Rattle.smp_split.specs.Runs.{KeepsOn};
ghost use Rattle.smp_log.specs.{Heads.{IsHead}, Replayed.{Replays, sectioned_form}};

use crate::lines::{after_end, after_numbers};
use crate::parts::SectionSteps;
use crate::replaying::after_front;
use crate::steps::replay_steps;
use crate::{Head, ReplayFault};
use smp_split::{Sections, Trace};

// Replays a log of version 2 from the state in which it began, and tells each of its steps to a trace, in their order.
pub(crate) fn replay_sections_into<S: Sections, T: Trace<S>>(
    run: &S,
    state: &mut S::State,
    head: &Head,
    log: &[u8],
    trace: &mut T,
) -> Result<(), ReplayFault>
    requires { (S.method run.now).belongs state.old }
    ensures replays { Replays (S.method run.now).tree (S.method run.now).belongs
        (sectioned_form (S.method run.now).tree (S.sectioning run.now) state.old head.now log.now)
        state.old state.new (T.lines trace.old) (T.lines trace.new) T.may_refuse result }
    ensures head { IsHead head.now }
    ensures kept { OnOk result (KeepsOn (T.keeps run.now) state.old state.new trace.old trace.new) }
{
    let mut rest = after_front(log, &head.sectioned())?;
    let mut lines = 3;
    let mut steps = 0;
    let mut taken = 0;
    for section in 0..run.sections() {
        let number = section as u64 + 1;
        let Some(after) = after_numbers(rest, b"stratum ", number, taken) else {
            return Err(ReplayFault::Differs { line: lines + 1 });
        };
        lines += 1;
        let own = replay_steps(run, state, &SectionSteps { section }, after, lines, trace)?;
        lines += own.steps;
        steps += own.steps;
        taken += own.taken;
        let Some(after) = after_numbers(own.rest, b"done ", number, own.steps) else {
            return Err(ReplayFault::Differs { line: lines + 1 });
        };
        rest = after;
        lines += 1;
    }
    let Some(after) = after_end(rest, steps) else {
        return Err(ReplayFault::Differs { line: lines + 1 });
    };
    if !after.is_empty() {
        return Err(ReplayFault::Differs { line: lines + 2 });
    }
    Ok(())
}
