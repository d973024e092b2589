ghost use Rattle.std.specs.Prelude.{◌≡◌};

use smp_frac::NoMemory;
use std::alloc::AllocError;
use std::io;

/// Why a store or a sink didn't do what was asked.
#[derive(Clone, Copy, Debug, PartialEq, Eq)]
pub enum StoreFault {
    /// The file isn't there, or can't be read or written.
    Failed,
    /// Memory ran out.
    NoMemory,
}

impl From<NoMemory> for StoreFault {
    ghost use Rattle.smp_io.specs.declared.fault.StoreFault.TheVariants as faults;

    ghost from_gives = { λ _ fault. fault ≡ faults.NoMemory };

    fn from(_: NoMemory) -> Self {
        StoreFault::NoMemory
    }
}

impl From<AllocError> for StoreFault {
    ghost use Rattle.smp_io.specs.declared.fault.StoreFault.TheVariants as faults;

    ghost from_gives = { λ _ fault. fault ≡ faults.NoMemory };

    fn from(_: AllocError) -> Self {
        StoreFault::NoMemory
    }
}

impl From<io::Error> for StoreFault {
    ghost use Rattle.std.specs.{Prelude.{◌↔◌}, IoError.{error_kind}};
    ghost use Rattle.std.specs.declared.io.ErrorKind.TheVariants as kinds;
    ghost use Rattle.smp_io.specs.declared.fault.StoreFault.TheVariants as faults;

    ghost from_gives = { λ error fault. (fault ≡ faults.NoMemory) ↔ (error_kind error ≡ kinds.OutOfMemory) };

    fn from(error: io::Error) -> Self {
        if error.kind() == io::ErrorKind::OutOfMemory {
            StoreFault::NoMemory
        } else {
            StoreFault::Failed
        }
    }
}
