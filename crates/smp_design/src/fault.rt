//! Why no design was read.

ghost use Rattle.std.specs.Prelude.{◌≡◌};
ghost use Rattle.smp_design.specs.declared.fault.DesignFault.TheVariants as fault;

use smp_frac::{NoMemory, Text};

/// Why no design was read: the first fault of its bytes, in the order of the variants.
#[derive(Debug, Drop)]
pub enum DesignFault {
    /// The bytes aren't UTF-8, or aren't a TOML document.
    Syntax,
    /// The key `version` is missing, or isn't the integer 1 or 2.
    Version,
    /// A design of this version has no such key. A key of the table `second` is written `second.` and its name.
    UnknownKey { name: Text },
    /// A key that is needed isn't there.
    MissingKey { name: Text },
    /// The value of a key has another type or lies outside its range.
    BadValue { key: Text },
    /// Two keys, or a key and the method, don't go together.
    Clash { first: Text, second: Text },
    /// Memory ran out.
    NoMemory,
}

impl From<NoMemory> for DesignFault {
    ghost from_gives = { λ _ f. f ≡ fault.NoMemory };

    fn from(_: NoMemory) -> DesignFault {
        DesignFault::NoMemory
    }
}
