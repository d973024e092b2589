ghost use Rattle.std.specs.Prelude.{◌≡◌, ℕ, true, Err, IfOk, OnOk};
ghost use Rattle.smp_log.specs.{Answers.{AnswersAs, log_reading}, Genuine.{DiffersAt, IsGenuine, IsToldGenuine}};
ghost use Rattle.smp_log.specs.{SectionLogs.{sectioned_log_text}, Told.{path_told}};
ghost use Rattle.smp_log.specs.declared.fault.ReplayFault.TheVariants as ReplayFault;

use crate::section_writing::log_bytes;
use crate::{Head, ReplayFault, SectionLines, old_replay_into};
use smp_frac::Bytes;
use smp_split::Sections;
use std::alloc::Global;

/// The log of version 2 for a genuine log of version 1: that of the same path. The state is the one in which the log began.
///
/// [`ReplayFault::Differs`] comes exactly where the log isn't genuine of version 1. After `Ok` the state is the leaf. After
/// an error nothing is said of it but that it belongs to the design.
pub fn migrate<S: Sections>(
    alloc: Global,
    run: &S,
    state: &mut S::State,
    head: &Head,
    log: &[u8],
) -> Result<Bytes, ReplayFault>
    requires { (S.method run.now).belongs state.old }
    ensures genuine { OnOk result
        (IsToldGenuine (S.method run.now).tree state.old head.now log.now state.new) }
    ensures text { IfOk result (λ text. text
        ≡ sectioned_log_text (S.method run.now).tree (S.sectioning run.now) state.old head.now
        (path_told (S.method run.now).tree state.old log.now)) }
    ensures done { OnOk result ((S.method run.now).tree.done state.new ≡ true) }
    ensures belongs { (S.method run.now).belongs state.new }
    ensures differs { (line : ℕ) → result ≡ Err (ReplayFault.Differs line)
        → DiffersAt (IsGenuine (S.method run.now).tree state.old head.now) log.now line }

    // The same as a function of the bytes.
    ensures reading { AnswersAs result state.new
        (log_reading (S.method run.now).tree state.old head.now log.now) }
{
    let mut lines = SectionLines::new(alloc);
    match old_replay_into(run, state, head, log, &mut lines) {
        Ok(()) => {}
        Err(fault) => return Err(fault),
    }
    match log_bytes(alloc, head, run.sections(), &lines) {
        Ok(text) => Ok(text),
        Err(_) => Err(ReplayFault::NoMemory),
    }
}
