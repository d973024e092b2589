ghost use Rattle.std.specs.Prelude.{◌≡◌};

use crate::Numbers;
use smp_frac::{Frac, Text};
use std::marker::Model;

/// A unit of a frame: what its row says in the columns that were asked for.
#[derive(Drop)]
pub struct Unit {
    /// A text, which no other unit of the frame has.
    pub id: Text,
    /// The name of the unit's stratum; the empty text where no column of strata was asked for.
    pub stratum: Text,
    /// The name of the first stage unit that the unit belongs to; the empty text where no column of those was
    /// asked for.
    pub psu: Text,
    /// The measure of size, from 0 to 2,147,483,647; 1 where no column of sizes was asked for.
    pub size: u32,
    /// The measure of size in the second stage, from 0 to 2,147,483,647; 1 where no column of those was asked for.
    pub second_size: u32,
    /// The probability, from 0 to 1, with a numerator and a denominator up to 2,147,483,647; 1/1 where no column of
    /// those was asked for.
    pub prob: Frac,
    /// The balancing values in the order of their columns, each from -2,147,483,647 to 2,147,483,647.
    pub balance: Numbers,
    /// The coordinates of the point where the unit lies, in the order of their columns, each within the same range.
    pub point: Numbers,
}

/// The units of a frame in the order of its rows.
#[derive(Drop)]
pub struct Frame {
    units: Vec<Unit>,
}

impl Model for Frame {
    ghost use Rattle.std.specs.Prelude.{List};
    ghost use Rattle.smp_frame.specs.declared.frame.Unit as unit;

    ghost Value = { List unit.Unit };

    ghost view = { λ f. f.units.items };
}

impl Frame {
    pub(crate) fn new(units: Vec<Unit>) -> Frame
        ensures { result ≡ units.items }
    {
        Frame { units }
    }

    /// The units in the order of the frame's rows.
    pub fn units(&self) -> &[Unit]
        ensures { result.now ≡ self.now }
    {
        self.units.as_slice()
    }
}
