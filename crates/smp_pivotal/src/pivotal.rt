//! Pivotal steps on the values at places.

ghost use Rattle.smp_pivotal.specs.{Pivotal.{pivotal_rule}, Laws.PivotalSplits.{pivotal_law}};

use smp_split::Kind;
use smp_values::{PivotalSteps, PlaceSteps, Values};
use std::marker::Model;

/// Values at places, and the sequential pivotal steps on them.
#[derive(Drop)]
pub struct PivotalPlaces {
    steps: PivotalSteps,
}

impl Model for PivotalPlaces {
    ghost use Rattle.smp_prob.specs.Shares.{Shares};

    ghost Value = { Shares };

    ghost view = { λ a. a.steps };
}

impl PlaceSteps for PivotalPlaces {
    ghost shares = { λ values. values };

    ghost rule = { pivotal_rule };

    ghost law = { pivotal_law };

    fn from_values(values: Values) -> PivotalPlaces {
        PivotalPlaces {
            steps: PivotalSteps::from_values(values),
        }
    }

    fn is_done(&self) -> bool {
        self.steps.is_done()
    }

    fn kind(&self) -> Kind {
        self.steps.kind()
    }

    fn bound(&self) -> u128 {
        self.steps.bound()
    }

    fn advance(&mut self, draw: u128) {
        self.steps.advance(draw);
    }

    fn exchange(&mut self, place: usize, other: usize) {
        self.steps.exchange(place, other);
    }

    fn is_one(&self, place: usize) -> bool {
        self.steps.is_one(place)
    }
}
