ghost use Rattle.std.specs.Prelude.{◌≡◌};
ghost use Rattle.smp_frame.specs.declared.fault.FrameFault.TheVariants as fault;

use smp_frac::{NoMemory, Text};
use std::alloc::{AllocError, AllocFailed};

/// Why no frame was read: the first fault of the bytes. Rows are counted from 1; the header is row 0.
#[derive(Debug, Drop)]
pub enum FrameFault {
    /// There is no record at all.
    NoHeader,
    /// An asked column isn't in the header.
    MissingColumn { name: Text },
    /// An asked column is in the header twice or more.
    RepeatedColumn { name: Text },
    /// The row has another number of fields than the header.
    RowLength { row: u64 },
    /// A field in a column of numbers isn't one or more decimal digits, or in a column of values such digits behind
    /// one minus.
    NotNumber { row: u64, column: Text },
    /// The absolute value of a number, or a side of a fraction, is above 2,147,483,647.
    TooLarge { row: u64, column: Text },
    /// An earlier row has the same id.
    RepeatedId { row: u64 },
    /// There are more than 200,000 rows.
    TooManyRows,
    /// A field of the row isn't UTF-8.
    NotText { row: u64 },
    /// The header is the only record.
    NoRows,
    /// A field in a column of probabilities isn't one or more decimal digits, or such digits on both sides of a slash.
    NotFraction { row: u64, column: Text },
    /// A fraction in a column of probabilities has denominator 0, or is above 1.
    NotProbability { row: u64, column: Text },
    /// Memory ran out.
    NoMemory,
}

impl From<NoMemory> for FrameFault {
    ghost from_gives = { λ _ f. f ≡ fault.NoMemory };

    fn from(_: NoMemory) -> FrameFault {
        FrameFault::NoMemory
    }
}

impl From<AllocError> for FrameFault {
    ghost from_gives = { λ _ f. f ≡ fault.NoMemory };

    fn from(_: AllocError) -> FrameFault {
        FrameFault::NoMemory
    }
}

impl<T: Drop> From<AllocFailed<T>> for FrameFault {
    ghost from_gives = { λ _ f. f ≡ fault.NoMemory };

    fn from(_: AllocFailed<T>) -> FrameFault {
        FrameFault::NoMemory
    }
}
