ghost use Rattle.smp_log.specs.{Answers.{IsExactReading}, Genuine.{IsRunGenuine, IsUnambiguous}};

use crate::Head;
use smp_split::Splitting;
use smp_tape::Draws;

/// The log of the path of a run, over whichever draws, is genuine, so [`old_replay`](crate::old_replay) accepts what was drawn.
/// It runs nothing: its contract is the theorem.
pub fn old_runs_are_genuine<S: Splitting, D: Draws>(
    run: &S,
    state: &S::State,
    draws: &D,
    head: &Head,
)
    requires { (S.method run.now).belongs state.now }
    ensures { IsRunGenuine D.source (S.method run.now).tree state.now draws.now head.now }
{}

/// A genuine log tells its path, and so its leaf and the number of its steps. The answer of [`old_replay`](crate::old_replay) is
/// a function of the bytes, and the right one. Nothing comes of the call: its contract is the theorem.
pub fn old_logs_are_unambiguous<S: Splitting>(run: &S, state: &S::State, head: &Head, log: &[u8])
    requires { (S.method run.now).belongs state.now }
    ensures path { IsUnambiguous (S.method run.now).tree state.now head.now log.now }
    ensures reading { IsExactReading (S.method run.now).tree state.now head.now log.now }
{
    head.as_slice();
}
