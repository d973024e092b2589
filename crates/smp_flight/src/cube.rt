//! The cube as a design.

ghost use Rattle.std.specs.Prelude.{◌≡◌, ◌↔◌, IfOk, length, true};
ghost use Rattle.smp_prob.specs.Requests.{IsRequest};
ghost use Rattle.smp_split.specs.Methods.{Starts};
ghost use Rattle.smp_values.specs.Starts.{IsRequested};
ghost use Rattle.smp_moves.specs.Cubes.{left_in};
ghost use Rattle.smp_flight.specs.{Requests.{AreValues, units_of}, States.{Units}, Landings.{IsBalanced, balancing_in}, Narrow.{IsNarrow}};
ghost use Rattle.smp_flight.specs.{Selections.{Balancing, IsBalancing, starting}, Cube.{cube_of, cube_tree}, CubeMethod.{method_of}};
ghost use Rattle.smp_flight.specs.Kept.CubeStates.{Finds, IsKept};

use crate::{Landing, Move, Shape, fly, is_narrow, look, step};
use smp_frac::{NoMemory, Numbers};
use smp_moves::{Course, Next, Phase};
use smp_prob::Request;
use smp_split::{Kind, Splitting};
use std::alloc::Global;
use std::marker::{Brand, Model};
use std::sync::ledger::Blank;

/// A design that selects by the cube method.
///
/// It is seen as its units: their sizes, their columns, and the probabilities that are requested of them.
#[derive(Drop)]
pub struct Cube {
    shape: Shape,
    units: usize,
}

impl Model for Cube {
    ghost Value = { Units };

    ghost view = { λ a. a.shape };

    ghost invariant = { λ a. a.units ≡ length a.shape.sizes };
}

/// A state of a selection by the cube.
///
/// The tables of a search take memory where there is some: no step fails for want of it.
#[derive(Drop)]
pub struct CubeState {
    pub(crate) landing: Landing,
}

impl Model for CubeState {
    ghost Value = { Balancing };

    ghost view = { λ a. balancing_in a.landing };

    ghost invariant = { λ a. IsKept a.landing.phase a.landing.flight a.landing.room };
}

impl Cube {
    /// The design of a request: its units are the request's free units, with a list of balancing values for each of them, and each has
    /// the value that is requested of it.
    pub fn new(alloc: Global, request: &Request, xs: &[Numbers]) -> Result<Cube, NoMemory>
        requires request { IsRequest request.now }
        requires one_each { length xs.now ≡ length request.now.free }
        requires values { AreValues xs.now }
        ensures design { IfOk result (λ design. design ≡ units_of request.now xs.now) }
        ensures requested { IfOk result (λ design.
            IsRequested (method_of design).tree request.now (starting design)) }
    {
        Ok(Cube {
            shape: Shape::new(alloc, request, xs)?,
            units: request.shape.as_slice().len(),
        })
    }

    /// The state before the first step. Over all draws, each unit is selected with the probability that is its value, and where the
    /// values add up to a whole number, that many units are. The flight keeps each balancing total, and the units that are fractional
    /// where the landing begins bound the error of each estimate.
    pub fn start(&self, alloc: Global) -> Result<CubeState, NoMemory>
        ensures state { IfOk result (λ state. state ≡ starting self.now) }
        ensures starts { IfOk result (Starts (method_of self.now)) }
        ensures balanced { IfOk result (IsBalanced (cube_of self.now)) }
    {
        let mut landing = Landing::start(alloc, &self.shape)?;
        look(&self.shape, &mut landing.flight);
        Ok(CubeState { landing })
    }

    /// Whether the numbers of the units are so small that no step of a selection is wide, whatever is drawn: exactly where some bounds of
    /// the rows, and some common multiple of denominator and sizes, are within the gates. Then no more units are left where a landing
    /// begins than there are rows, by the clause `balanced` of [`Cube::start`].
    pub fn is_narrow(&self) -> bool
        ensures { result ≡ true ↔ IsNarrow self.now }
    {
        is_narrow(&self.shape)
    }

    /// How many units were fractional where the landing began, and 0 as long as it hasn't begun.
    pub fn left(&self, state: &CubeState) -> u32
        ensures { result ≡ left_in state.now }
    {
        state.landing.left
    }
}

impl Course for Landing {
    type Units = Shape;

    type State = CubeState;

    type Move = Move;

    ghost tree = { cube_tree };

    ghost seen = { balancing_in };

    ghost belongs = { IsBalancing };

    ghost is_kept = { λ l. IsKept l.phase l.flight l.room };

    ghost finds = { Finds };

    fn found(&self, shape: &Shape) -> Option<Next<Move>> {
        match self.phase {
            Phase::Flying => Some(step(shape, &self.flight)),
            Phase::Pairing => None,
        }
    }

    fn weights(&self, _shape: &Shape, mv: &Move) -> (u128, u128) {
        (mv.plus_weight, mv.minus_weight)
    }

    fn go_to_end(&mut self, shape: &Shape, mv: &Move, plus: bool) {
        fly::<Brand>(shape, &mut self.flight, mv, plus, Blank::new(1));
        look(shape, &mut self.flight);
    }

    fn go_without_row(&mut self, shape: &Shape) {
        self.drop_row(shape);
        look(shape, &mut self.flight);
    }

    fn go_to_pivots(&mut self, shape: &Shape) {
        self.settle(shape);
    }

    fn kind_apart(&self, _shape: &Shape) -> Kind {
        self.steps.kind()
    }

    fn bound_apart(&self, _shape: &Shape) -> u128 {
        self.steps.bound()
    }

    fn go_apart(&mut self, _shape: &Shape, draw: u128) {
        self.steps.advance(draw);
    }
}

impl Splitting for Cube {
    type State = CubeState;

    ghost method = { λ design. method_of design };

    fn units(&self) -> usize {
        self.units
    }

    fn done(&self, state: &CubeState) -> bool {
        state.landing.is_done()
    }

    fn kind(&self, state: &CubeState) -> Kind {
        state.landing.kind(&self.shape)
    }

    fn bound(&self, state: &CubeState) -> u128 {
        state.landing.bound(&self.shape)
    }

    fn advance(&self, state: &mut CubeState, draw: u128) {
        state.landing.advance(&self.shape, draw);
    }

    fn selected(&self, state: &CubeState, unit: usize) -> bool {
        state.landing.is_one(unit)
    }
}
