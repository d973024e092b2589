ghost use Rattle.std.specs.Prelude.{◌≡◌};
ghost use Rattle.smp_prob.specs.{declared.faults.GivenFault.{GivenFault}, declared.faults.ProbFault.{ProbFault}};

use smp_frac::NoMemory;

/// Why there is no request.
#[derive(Clone, Copy, Debug, PartialEq, Eq)]
pub enum ProbFault {
    /// More units are asked for than have a size above 0.
    TooMany {
        /// How many have one.
        positive: u32,
    },
    /// Memory ran out.
    NoMemory,
}

impl From<NoMemory> for ProbFault {
    ghost from_gives = { λ _ fault. fault ≡ ProbFault.NoMemory };

    fn from(_: NoMemory) -> Self {
        ProbFault::NoMemory
    }
}

/// Why there is no request for given probabilities.
#[derive(Clone, Copy, Debug, PartialEq, Eq)]
pub enum GivenFault {
    /// The least common multiple of their denominators passes 2,147,483,647.
    Denominator,
    /// Memory ran out.
    NoMemory,
}

impl From<NoMemory> for GivenFault {
    ghost from_gives = { λ _ fault. fault ≡ GivenFault.NoMemory };

    fn from(_: NoMemory) -> Self {
        GivenFault::NoMemory
    }
}
