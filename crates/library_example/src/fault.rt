ghost use Rattle.std.specs.Prelude.{◌≡◌};
ghost use Rattle.library_example.specs.Faults.{of_request, of_walk};
ghost use Rattle.library_example.specs.declared.fault.Fault.TheVariants as Fault;

use smp_frac::NoMemory;
use smp_prob::ProbFault;
use smp_split::WalkFault;
use smp_tape::DrawFault;

/// Why nothing is drawn.
#[derive(Clone, Copy, Debug, PartialEq, Eq)]
pub enum Fault {
    /// More rows are asked for than have a size above 0.
    TooMany,
    /// A draw was refused.
    Draw(DrawFault),
    /// Memory ran out.
    NoMemory,
}

impl From<ProbFault> for Fault {
    ghost from_gives = { λ fault result. result ≡ of_request fault };

    fn from(fault: ProbFault) -> Fault {
        match fault {
            ProbFault::TooMany { .. } => Fault::TooMany,
            ProbFault::NoMemory => Fault::NoMemory,
        }
    }
}

impl From<WalkFault> for Fault {
    ghost from_gives = { λ fault result. result ≡ of_walk fault };

    fn from(fault: WalkFault) -> Fault {
        match fault {
            WalkFault::Draw(fault) => Fault::Draw(fault),
            WalkFault::NoMemory => Fault::NoMemory,
        }
    }
}

impl From<NoMemory> for Fault {
    ghost from_gives = { λ _ result. result ≡ Fault.NoMemory };

    fn from(_: NoMemory) -> Fault {
        Fault::NoMemory
    }
}
