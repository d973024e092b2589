//! The systematic step on the values at places.

ghost use Rattle.smp_pivotal.specs.{Systematic.{systematic_rule}, Laws.SystematicSplits.{systematic_law}};

use crate::sample::take_sample;
use smp_split::Kind;
use smp_values::{PlaceSteps, Values};
use std::marker::Model;

/// Values at places, and the systematic step on them.
#[derive(Drop)]
pub struct SystematicPlaces {
    values: Values,
}

impl Model for SystematicPlaces {
    ghost use Rattle.smp_prob.specs.Shares.{Shares};

    ghost Value = { Shares };

    ghost view = { λ a. a.values };
}

impl PlaceSteps for SystematicPlaces {
    ghost shares = { λ values. values };

    ghost rule = { systematic_rule };

    ghost law = { systematic_law };

    fn from_values(values: Values) -> SystematicPlaces {
        SystematicPlaces { values }
    }

    fn is_done(&self) -> bool {
        self.values.is_settled()
    }

    fn kind(&self) -> Kind {
        Kind::System
    }

    fn bound(&self) -> u128 {
        self.values.denominator()
    }

    fn advance(&mut self, draw: u128) {
        take_sample(&mut self.values, draw);
    }

    fn exchange(&mut self, place: usize, other: usize) {
        self.values.exchange(place, other);
    }

    fn is_one(&self, place: usize) -> bool {
        self.values.is_one(place)
    }
}
