//! Brewer's method as a design.

ghost use Rattle.std.specs.Prelude.{◌≡◌, sum, IfOk};
ghost use Rattle.smp_prob.specs.Requests.{IsRequest};
ghost use Rattle.smp_split.specs.Methods.{Starts};
ghost use Rattle.smp_values.specs.Starts.{IsRequested};
ghost use Rattle.smp_brewer.specs.{Brewer.{Brewing, offering, units_of, is_spent}, Method.{method_of, started}};
ghost use Rattle.smp_brewer.specs.Kept.States.{IsKept, IsStart, brewing_of};

use crate::offers::Offers;
use crate::sizes::OpenSizes;
use smp_frac::NoMemory;
use smp_prob::Request;
use smp_split::{Kind, Splitting};
use smp_values::{PivotalSteps, Values};
use std::alloc::Global;
use std::marker::Model;

/// A design that selects by Brewer's method.
///
/// It is seen as the state before the first step.
#[derive(Drop)]
pub struct Brewer {
    offers: Offers,
}

impl Model for Brewer {
    ghost Value = { Brewing };

    ghost view = { λ a. offering a.offers };

    ghost invariant = { λ a. IsStart a.offers };
}

/// Where a selection stands.
#[derive(Clone, Copy)]
pub(crate) enum Phase {
    /// A unit is to be offered.
    Offering,
    /// This unit is offered.
    Offered(usize),
    /// Pivotal steps finish the selection.
    Spent,
}

/// A state of a selection by Brewer's method.
///
/// The room for the values of the pivotal steps is there from the start, so no step takes memory.
#[derive(Drop)]
pub struct BrewerState {
    offers: Offers,
    phase: Phase,
    room: Values,
    steps: PivotalSteps,
}

impl Model for BrewerState {
    ghost Value = { Brewing };

    ghost view = { λ a. brewing_of a.phase a.offers a.steps };

    ghost invariant = { λ a. IsKept a.phase a.offers a.room };
}

impl Brewer {
    /// The design of a request whose shapes add up to its total: its units are the request's free units, and each has the value that is
    /// requested of it.
    pub fn new(alloc: Global, request: &Request) -> Result<Brewer, NoMemory>
        requires request { IsRequest request.now }
        requires whole { sum request.now.shape ≡ request.now.total }
        ensures design { IfOk result (λ design. design ≡ started request.now) }
        ensures requested { IfOk result (λ design.
            IsRequested (method_of design).tree request.now design) }
    {
        let sizes = OpenSizes::new(alloc, request.shape.as_slice())?;
        let draws = request.draws();
        Ok(Brewer {
            offers: Offers {
                sizes,
                draws,
                refused: 0,
            },
        })
    }

    /// The state before the first step. Over all draws, each unit is selected with the probability that is its value, and where the values
    /// add up to a whole number, that many units are.
    pub fn start(&self, alloc: Global) -> Result<BrewerState, NoMemory>
        ensures state { IfOk result (λ state. state ≡ self.now) }
        ensures starts { IfOk result (Starts (method_of self.now)) }
    {
        Ok(BrewerState {
            offers: self.offers.copy(alloc)?,
            phase: Phase::Offering,
            room: Values::with_room(alloc, self.offers.sizes.len())?,
            steps: PivotalSteps::from_values(Values::with_room(alloc, 0)?),
        })
    }

    // Whether as many offers were refused as may be in a selection.
    fn is_spent(&self, offers: &Offers) -> bool
        ensures { result ≡ is_spent (units_of self.now) offers.now }
    {
        offers.refused == 64 * self.offers.sizes.len() as u64
    }
}

impl Splitting for Brewer {
    type State = BrewerState;

    ghost method = { λ design. method_of design };

    fn units(&self) -> usize {
        self.offers.sizes.len()
    }

    fn done(&self, state: &BrewerState) -> bool {
        match state.phase {
            Phase::Offering => state.offers.draws == 0,
            Phase::Offered(_) => false,
            Phase::Spent => state.steps.is_done(),
        }
    }

    fn kind(&self, state: &BrewerState) -> Kind {
        match state.phase {
            Phase::Offering => {
                if self.is_spent(&state.offers) {
                    Kind::Spent
                } else {
                    Kind::Offer
                }
            }
            Phase::Offered(_) => Kind::Take,
            Phase::Spent => state.steps.kind(),
        }
    }

    fn bound(&self, state: &BrewerState) -> u128 {
        match state.phase {
            Phase::Offering => {
                if self.is_spent(&state.offers) {
                    1
                } else {
                    state.offers.sizes.total() as u128
                }
            }
            Phase::Offered(unit) => state.offers.bound(unit),
            Phase::Spent => state.steps.bound(),
        }
    }

    fn advance(&self, state: &mut BrewerState, draw: u128) {
        match state.phase {
            Phase::Offering => {
                if self.is_spent(&state.offers) {
                    state.offers.fill(&mut state.room);
                    state.steps.set(&mut state.room);
                    state.phase = Phase::Spent;
                } else {
                    state.phase = Phase::Offered(state.offers.find(draw));
                }
            }
            Phase::Offered(unit) => {
                state.offers.answer(unit, draw);
                state.phase = Phase::Offering;
            }
            Phase::Spent => state.steps.advance(draw),
        }
    }

    fn selected(&self, state: &BrewerState, unit: usize) -> bool {
        match state.phase {
            Phase::Spent => state.steps.is_one(unit),
            _ => state.offers.sizes.is_taken(unit),
        }
    }
}
