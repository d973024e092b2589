ghost use Rattle.std.specs.Prelude.{◌≡◌};
ghost use Rattle.smp_tape.specs.declared.fault.TapeFault.TheVariants as fault;

use std::alloc::AllocFailed;

/// Why no tape was read.
#[derive(Clone, Copy, Debug, PartialEq, Eq)]
pub enum TapeFault {
    /// This line, counted from 1, is the first that isn't a number below 2^128.
    Line { line: u64 },
    /// There was no memory.
    NoMemory,
}

impl<T: Drop> From<AllocFailed<T>> for TapeFault {
    ghost from_gives = { λ _ f. f ≡ fault.NoMemory };

    fn from(_: AllocFailed<T>) -> TapeFault {
        TapeFault::NoMemory
    }
}
