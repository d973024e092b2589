ghost use Rattle.smp_log.specs.{Answers.{IsExactAnswer}, LoneSections.{AreReplayedAlone, IsExactSection}};
ghost use Rattle.smp_log.specs.{SectionLogs.{IsAnyGenuine, IsOnePathed, IsRunSectioned}, SectionReading.{any_reading}};

use crate::Head;
use smp_split::{Sections, Splitting};
use smp_tape::Draws;

/// The log of version 2 of the path of a run, over whichever draws, is genuine, so
/// [`replay`](crate::replay) accepts what was drawn. It runs nothing: its contract is the theorem.
pub fn runs_are_genuine<S: Sections, D: Draws>(run: &S, state: &S::State, draws: &D, head: &Head)
    requires { (S.method run.now).belongs state.now }
    ensures { IsRunSectioned D.source (S.method run.now).tree (S.sectioning run.now) state.now
        draws.now head.now }
{}

/// A log that is genuine in either version tells its path, and so its leaf and its steps. The answer of
/// [`replay`](crate::replay) is a function of the bytes, and the right one. Nothing comes of the call: its
/// contract is the theorem.
pub fn logs_are_unambiguous<S: Sections>(run: &S, state: &S::State, head: &Head, log: &[u8])
    requires { (S.method run.now).belongs state.now }
    ensures path { IsOnePathed (S.method run.now).tree (S.sectioning run.now) state.now head.now
        log.now }
    ensures reading { IsExactAnswer
        (IsAnyGenuine (S.method run.now).tree (S.sectioning run.now) state.now head.now) log.now
        (any_reading (S.method run.now).tree (S.sectioning run.now) state.now head.now log.now) }
{
    head.as_slice();
}

/// The answer of [`replay_section`](crate::replay_section) is a function of the bytes, and the right one. Nothing comes of
/// the call: its contract is the theorem.
pub fn section_answers_are_exact<S: Splitting>(
    run: &S,
    state: &S::State,
    head: &Head,
    number: usize,
    log: &[u8],
)
    requires { (S.method run.now).belongs state.now }
    ensures { IsExactSection (S.method run.now).tree state.now head.now number log.now }
{
    head.as_slice();
}

/// Each section of a genuine log of version 2 is replayed by the design of that section alone, which selects of its own
/// units what the whole design does. Nothing comes of the call: its contract is the theorem.
pub fn sections_are_replayed_alone<S: Sections, P: Splitting>(
    run: &S,
    state: &S::State,
    part: &P,
    start: &P::State,
    head: &Head,
    log: &[u8],
)
    requires whole { (S.method run.now).belongs state.now }
    requires part { (P.method part.now).belongs start.now }
    ensures { AreReplayedAlone (S.method run.now).tree (S.method run.now).belongs
        (S.sectioning run.now) state.now
        head.now log.now (P.method part.now).tree start.now }
{
    head.as_slice();
}
