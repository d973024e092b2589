//! Strata that are made: their first stage units are put in one by one.

ghost use Rattle.std.specs.Prelude.{◌≡◌, ◌∷◌, ◌++◌, ◌<◌, [], IfOk, OnOk, length, slice_index_or, slice_set};
ghost use Rattle.smp_strata.specs.Kept.Built.{with_unit};
ghost use Rattle.smp_strata.specs.declared.strata.Stratum as stratum;

use crate::{FirstUnit, Stratum, Units};
use smp_frac::{NoMemory, Text};
use smp_prob::Request;
use std::alloc::Global;
use std::marker::Model;

/// A stratum that is made, seen as the stratum with the first stage units that are put in so far.
#[derive(Drop)]
pub(crate) struct Begun {
    name: Text,
    units: Vec<FirstUnit>,
    request: Request,
}

impl Model for Begun {
    ghost use Rattle.smp_strata.specs.declared.strata.Stratum.{Stratum};

    ghost Value = { Stratum };

    ghost view = { λ b. record { name = b.name; units = b.units.items; request = b.request } };
}

impl Begun {
    /// A stratum without a first stage unit, with room for so many.
    pub(crate) fn new(
        alloc: Global,
        name: &Text,
        request: Request,
        room: usize,
    ) -> Result<Begun, NoMemory>
        ensures { IfOk result (λ begun.
            begun ≡ record { name = name.now; units = []; request = request }) }
    {
        Ok(Begun {
            name: name.copy(alloc)?,
            units: Vec::with_capacity(alloc, room)?,
            request,
        })
    }

    fn push(&mut self, unit: FirstUnit) -> Result<(), NoMemory>
        ensures { OnOk result (self.new ≡ with_unit self.old unit) }
    {
        self.units.push(unit)?;
        Ok(())
    }

    /// The stratum.
    pub(crate) fn finish(self) -> Stratum
        ensures { result ≡ self }
    {
        Stratum {
            name: self.name,
            units: Units::from_vec(self.units),
            request: self.request,
        }
    }
}

/// Puts a first stage unit into the stratum of a number.
pub(crate) fn put(strata: &mut Vec<Begun>, number: usize, unit: FirstUnit) -> Result<(), NoMemory>
    requires { number < length strata.old.items }
    ensures { OnOk result ((d : stratum.Stratum) → strata.new.items
        ≡ slice_set strata.old.items number
        (with_unit (slice_index_or strata.old.items number d) unit)) }
{
    strata[number].push(unit)?;
    Ok(())
}
