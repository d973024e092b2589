//! Why a case draws nothing.

use smp_tape::DrawFault;

/// Why a case draws nothing.
#[derive(Clone, Copy, Debug, PartialEq, Eq)]
pub enum CaseFault {
    /// More units are asked for than have a size above 0.
    TooMany {
        /// How many have one.
        positive: u32,
    },
    /// A draw was refused: no value was left on the tape, or the next one wasn't below the bound.
    Draw(DrawFault),
    /// The units are drawn, and values are left on the tape.
    Long {
        /// How many are left, at least 1.
        left: u64,
    },
    /// Memory ran out.
    NoMemory,
}
