ghost use Rattle.std.specs.Prelude.{◌≡◌, ◌++◌, IfErr, IfOk, OnOk};
ghost use Rattle.smp_split.specs.Runs.{KeepsOn};
ghost use Rattle.smp_log.specs.{Fronts.{IsCompleteLines, Names, StopsAt}, Replayed.{Replays, ReplaysUntold, old_form}};

use crate::fault::untold;
use crate::lines::after_end;
use crate::parts::AllSteps;
use crate::steps::replay_steps;
use crate::{Head, LogFault, ReplayFault};
use smp_frac::cut_before;
use smp_split::{NoTrace, Splitting, Trace};

/// Replays a log from the state in which it began, as a design's `start` gives it. The log is read once, and no memory is
/// taken.
///
/// `Ok` comes exactly where the log is genuine for this head and state: where it is the log of the path of a full tape.
/// The state is then the leaf of that path. Otherwise [`LogFault::Differs`] names the line, counted from 1, behind the
/// greatest number of whole lines with which a genuine log begins. Nothing more is then said of the state than that it
/// belongs to the design.
pub fn old_replay<S: Splitting>(
    run: &S,
    state: &mut S::State,
    head: &Head,
    log: &[u8],
) -> Result<(), LogFault>
    requires { (S.method run.now).belongs state.old }
    ensures { ReplaysUntold (S.method run.now).tree (S.method run.now).belongs
        (old_form (S.method run.now).tree state.old head.now log.now)
        state.new result }
{
    untold(old_replay_into(run, state, head, log, &mut NoTrace))
}

/// Replays a log as [`old_replay`] does, and tells each of its steps to a trace, in their order.
///
/// Want of memory comes only where the trace may refuse a line. After an error the steps that lead to the state were told,
/// and no more: after [`ReplayFault::Differs`] those of the lines before the one that it names.
pub fn old_replay_into<S: Splitting, T: Trace<S>>(
    run: &S,
    state: &mut S::State,
    head: &Head,
    log: &[u8],
    trace: &mut T,
) -> Result<(), ReplayFault>
    requires { (S.method run.now).belongs state.old }
    ensures replays { Replays (S.method run.now).tree (S.method run.now).belongs
        (old_form (S.method run.now).tree state.old head.now log.now)
        state.old state.new (T.lines trace.old) (T.lines trace.new) T.may_refuse result }
    ensures kept { OnOk result (KeepsOn (T.keeps run.now) state.old state.new trace.old trace.new) }
{
    let rest = after_front(log, head.as_slice())?;
    let all = replay_steps(run, state, &AllSteps, rest, 3, trace)?;
    let Some(after) = after_end(all.rest, all.steps) else {
        return Err(ReplayFault::Differs {
            line: all.steps + 4,
        });
    };
    if !after.is_empty() {
        return Err(ReplayFault::Differs {
            line: all.steps + 5,
        });
    }
    Ok(())
}

// What stands behind the lines of a front. `Differs` names the first line that isn't the front's.
pub(crate) fn after_front<'a>(text: &'a [u8], front: &[u8]) -> Result<&'a [u8], ReplayFault>
    requires { IsCompleteLines front.now }
    ensures front { IfOk result (λ rest. text.now ≡ front.now ++ rest.now) }
    ensures stops { IfErr result (Names (StopsAt front.now text.now)) }
{
    let mut rest = text;
    let mut wanted = front;
    let mut line = 1;
    while let Some((wanted_line, wanted_after)) = cut_before(wanted, b'\n') {
        let Some((next, after)) = cut_before(rest, b'\n') else {
            return Err(ReplayFault::Differs { line });
        };
        if next != wanted_line {
            return Err(ReplayFault::Differs { line });
        }
        rest = after;
        wanted = wanted_after;
        line += 1;
    }
    Ok(rest)
}
