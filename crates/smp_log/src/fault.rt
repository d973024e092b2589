ghost use Rattle.std.specs.Prelude.{◌≡◌, Err};
ghost use Rattle.smp_log.specs.Answers.{as_told};
ghost use Rattle.smp_log.specs.declared.fault.ReplayFault.TheVariants as fault;

use smp_frac::NoMemory;

/// Why a log isn't replayed.
#[derive(Clone, Copy, Debug, PartialEq, Eq)]
pub enum LogFault {
    /// The log isn't genuine. The lines before this one, counted from 1, are the first lines of a genuine log, and this
    /// line with them isn't.
    Differs { line: u64 },
}

/// Why a log isn't replayed with its steps told, or isn't migrated.
#[derive(Clone, Copy, Debug, PartialEq, Eq)]
pub enum ReplayFault {
    /// The log isn't genuine, and this is the first line that isn't kept, as in [`LogFault::Differs`].
    Differs { line: u64 },
    /// There was no memory: for the line of a step, or for a log.
    NoMemory,
}

impl From<NoMemory> for ReplayFault {
    ghost from_gives = { λ _ result. result ≡ fault.NoMemory };

    fn from(_: NoMemory) -> ReplayFault {
        ReplayFault::NoMemory
    }
}

// The answer of a replay whose trace refuses no line, so that no memory is wanted.
pub(crate) fn untold(answer: Result<(), ReplayFault>) -> Result<(), LogFault>
    requires { answer ≡ Err fault.NoMemory → ⊥ }
    ensures { answer ≡ as_told result }
{
    match answer {
        Ok(()) => Ok(()),
        Err(ReplayFault::Differs { line }) => Err(LogFault::Differs { line }),
        Err(ReplayFault::NoMemory) => unreachable!(),
    }
}
