ghost use Rattle.std.specs.Prelude.{◌≡◌, OnOk};
ghost use Rattle.smp_split.specs.Runs.{KeepsOn};
ghost use Rattle.smp_log.specs.Replayed.{Replays, ReplaysUntold, any_form};
ghost use Rattle.smp_log.specs.SectionReading as SectionReading;

use crate::fault::untold;
use crate::lines::behind;
use crate::section_replaying::replay_sections_into;
use crate::{Head, LogFault, ReplayFault, old_replay_into};
use smp_split::{NoTrace, Sections, Trace};

/// Replays a log of version 1 or 2 from the state in which it began, as a design's `start` gives it. The log is read once,
/// and no memory is taken.
///
/// `Ok` comes exactly where the log is genuine for this head and state: where it is the log of the path of a full tape, of
/// one of the versions. The state is then the leaf of that path. Otherwise [`LogFault::Differs`] names the line, counted
/// from 1, behind the greatest number of whole lines with which a genuine log of either version begins.
pub fn replay<S: Sections>(
    run: &S,
    state: &mut S::State,
    head: &Head,
    log: &[u8],
) -> Result<(), LogFault>
    requires { (S.method run.now).belongs state.old }
    ensures { ReplaysUntold (S.method run.now).tree (S.method run.now).belongs
        (any_form (S.method run.now).tree (S.sectioning run.now) state.old head.now log.now)
        state.new result }
{
    untold(replay_into(run, state, head, log, &mut NoTrace))
}

/// Replays a log as [`replay`] does, and tells each of its steps to a trace, in their order.
///
/// Want of memory comes only where the trace may refuse a line. After an error the steps that lead to the state were told,
/// and no more: after [`ReplayFault::Differs`] those of the lines before the one that it names.
pub fn replay_into<S: Sections, T: Trace<S>>(
    run: &S,
    state: &mut S::State,
    head: &Head,
    log: &[u8],
    trace: &mut T,
) -> Result<(), ReplayFault>
    requires { (S.method run.now).belongs state.old }
    ensures replays { Replays (S.method run.now).tree (S.method run.now).belongs
        (any_form (S.method run.now).tree (S.sectioning run.now) state.old head.now log.now)
        state.old state.new (T.lines trace.old) (T.lines trace.new) T.may_refuse result }
    ensures kept { OnOk result (KeepsOn (T.keeps run.now) state.old state.new trace.old trace.new) }
{
    if is_sectioned(log) {
        replay_sections_into(run, state, head, log, trace)
    } else {
        old_replay_into(run, state, head, log, trace)
    }
}

// Whether the first line is that of version 2.
fn is_sectioned(log: &[u8]) -> bool
    ensures { result ≡ SectionReading.is_sectioned log.now }
{
    behind(log, b"sampler-log 2\n").is_some()
}
