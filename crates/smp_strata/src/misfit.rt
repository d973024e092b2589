//! Why a frame doesn't serve a design.

ghost use Rattle.std.specs.Prelude.{◌≡◌};
ghost use Rattle.smp_strata.specs.declared.misfit.Misfit.TheVariants as misfits;

use smp_frac::{Frac, NoMemory, Text};
use std::alloc::{AllocError, AllocFailed};

/// Why a frame doesn't serve a design: the first misfit, in the order of the variants.
#[derive(Debug, Drop)]
pub enum Misfit {
    /// The psu of a row stood earlier in another stratum.
    UnitInTwo {
        /// The psu's name.
        psu: Text,
    },
    /// The sizes of a psu, or its balancing values in a column, sum up to more than 2,147,483,647.
    PsuTooLarge {
        /// The psu's name.
        psu: Text,
    },
    /// No number of units is given for a stratum, or the allocation gives it none.
    NoSize {
        /// The stratum's name.
        stratum: Text,
    },
    /// More units are asked of a stratum than have a size above 0.
    TooMany {
        /// The stratum's name, which is empty where there are no strata.
        stratum: Text,
        /// How many units are asked.
        n: u32,
        /// How many have a size above 0.
        positive: u32,
    },
    /// More rows are asked of a psu than have a second size above 0.
    SecondTooMany {
        /// The psu's name.
        psu: Text,
        /// How many rows are asked.
        n: u32,
        /// How many have a second size above 0.
        positive: u32,
    },
    /// The least common denominator of a stratum's probabilities is above 2,147,483,647.
    Denominator {
        /// The stratum's name, which is empty where there are no strata.
        stratum: Text,
    },
    /// The method draws a whole number of units, and a stratum's probabilities add up to no whole number.
    NotWhole {
        /// The stratum's name, which is empty where there are no strata.
        stratum: Text,
        /// What they add up to.
        sum: Frac,
    },
    /// The method draws all strata together, and the rows of its balancing equations are more than 16.
    RowLimit {
        /// How many strata there are.
        strata: u32,
        /// How many columns are balanced.
        variables: u32,
    },
    /// Memory ran out.
    NoMemory,
}

impl From<NoMemory> for Misfit {
    ghost from_gives = { λ _ misfit. misfit ≡ misfits.NoMemory };

    fn from(_: NoMemory) -> Misfit {
        Misfit::NoMemory
    }
}

impl From<AllocError> for Misfit {
    ghost from_gives = { λ _ misfit. misfit ≡ misfits.NoMemory };

    fn from(_: AllocError) -> Misfit {
        Misfit::NoMemory
    }
}

impl<T: Drop> From<AllocFailed<T>> for Misfit {
    ghost from_gives = { λ _ misfit. misfit ≡ misfits.NoMemory };

    fn from(_: AllocFailed<T>) -> Misfit {
        Misfit::NoMemory
    }
}
