//! The elimination procedure as a design.

ghost use Rattle.std.specs.Prelude.{◌≡◌, ◌^◌, ◌≤◌, length, sum, IfOk};
ghost use Rattle.smp_prob.specs.{Requests.{IsRequest}, Shares.{draws_of}};
ghost use Rattle.smp_split.specs.{Counts.{LeavesSelect}, Methods.{Starts}};
ghost use Rattle.smp_values.specs.Starts.{IsRequested};
ghost use Rattle.smp_elim.specs.{Elimination.{Remaining, all_left}, Method.{BoundsAreBelow, HasFractions, method_of, started, started_to}};
ghost use Rattle.smp_elim.specs.Kept.States.{IsStart};

use crate::cuts::{Cut, falling_order};
use crate::state::EliminationState;
use crate::weights::prepare;
use smp_frac::NoMemory;
use smp_places::Amounts;
use smp_prob::Request;
use smp_split::{Kind, Splitting};
use std::alloc::Global;
use std::marker::Model;

/// A design that takes out one unit after the other.
///
/// It is seen as the state before the first step.
#[derive(Drop)]
pub struct Elimination {
    sizes: Vec<u32>,
    order: Vec<usize>,
    wanted: u32,
}

impl Model for Elimination {
    ghost Value = { Remaining };

    ghost view = { λ a. all_left a.sizes.items a.wanted };

    ghost invariant = { λ a. IsStart a.sizes.items a.order.items a.wanted };
}

impl Elimination {
    /// The design of a request whose shapes add up to its total: its units are the request's free units, and each has the value that is
    /// requested of it.
    pub fn new(alloc: Global, request: &Request) -> Result<Elimination, NoMemory>
        requires request { IsRequest request.now }
        requires whole { sum request.now.shape ≡ request.now.total }
        ensures design { IfOk result (λ design. design ≡ started request.now) }
        ensures requested { IfOk result (λ design.
            IsRequested (method_of design).tree request.now design) }
    {
        Elimination::to(alloc, request, request.draws())
    }

    /// The design that goes on until so many units are left, at least as many as the request draws.
    pub fn to(alloc: Global, request: &Request, size: u32) -> Result<Elimination, NoMemory>
        requires request { IsRequest request.now }
        requires whole { sum request.now.shape ≡ request.now.total }
        requires some { draws_of request.now ≤ size }
        requires enough { size ≤ length request.now.free }
        ensures design { IfOk result (λ design. design ≡ started_to request.now size) }
    {
        let shape = request.shape.as_slice();
        Ok(Elimination {
            sizes: Vec::from_slice(alloc, shape)?,
            order: falling_order(alloc, shape)?,
            wanted: size,
        })
    }

    /// The state before the first step. Over all draws, each unit is selected with its probability among as many units as are
    /// wanted, in proportion to size as far as none passes 1, and each leaf selects as many units as are wanted.
    pub fn start(&self, alloc: Global) -> Result<EliminationState, NoMemory>
        ensures state { IfOk result (λ state. state ≡ self.now) }
        ensures starts { IfOk result (Starts (method_of self.now)) }
        ensures values { IfOk result (HasFractions self.now) }
        ensures count { IfOk result (LeavesSelect (method_of self.now).tree self.now.wanted) }
        ensures bounds { IfOk result (BoundsAreBelow (2 ^ 67) (method_of self.now).tree) }
    {
        let units = self.sizes.len();
        let sizes = Vec::from_slice(alloc, self.sizes.as_slice())?;
        let order = Vec::from_slice(alloc, self.order.as_slice())?;
        let left = vec![in alloc; true; units]?;
        let common = Amounts::none(alloc, units)?;
        let mut fresh = Amounts::none(alloc, units)?;
        let (wanted, count) = (self.wanted, units as u32);
        let cut = Cut {
            count: units,
            rest: 0,
        };
        let next = prepare(
            &mut fresh,
            sizes.as_slice(),
            order.as_slice(),
            wanted,
            count,
            cut,
        );
        Ok(EliminationState {
            sizes,
            order,
            wanted,
            left,
            count,
            cut,
            next,
            common,
            fresh,
        })
    }
}

impl Splitting for Elimination {
    type State = EliminationState;

    ghost method = { λ design. method_of design };

    fn units(&self) -> usize {
        self.sizes.len()
    }

    fn done(&self, state: &EliminationState) -> bool {
        state.is_done()
    }

    fn kind(&self, _state: &EliminationState) -> Kind {
        Kind::Eliminate
    }

    fn bound(&self, state: &EliminationState) -> u128 {
        state.bound()
    }

    fn advance(&self, state: &mut EliminationState, draw: u128) {
        state.advance(draw);
    }

    fn selected(&self, state: &EliminationState, unit: usize) -> bool {
        state.is_left(unit)
    }
}
