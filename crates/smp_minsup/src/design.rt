//! Minimum support as a design.

ghost use Rattle.std.specs.Prelude.{◌≡◌, ◌≤◌, length, sum, IfOk};
ghost use Rattle.smp_prob.specs.{Requests.{IsRequest}, Shares.{Shares}};
ghost use Rattle.smp_split.specs.{Leaves.{leaves}, Methods.{Starts}};
ghost use Rattle.smp_values.specs.Starts.{IsRequested};
ghost use Rattle.smp_minsup.specs.{Method.{method_of, started}, Kept.Starts.{IsStart}};

use crate::ranked::Ranked;
use crate::state::SupportState;
use smp_frac::NoMemory;
use smp_prob::Request;
use smp_split::{Kind, Splitting};
use smp_values::{SelectionState, Values};
use std::alloc::Global;
use std::marker::Model;

/// A design with minimum support.
///
/// It is seen as the state before the first step.
#[derive(Drop)]
pub struct MinimumSupport {
    values: Values,
    draws: usize,
}

impl Model for MinimumSupport {
    ghost Value = { Shares };

    ghost view = { λ a. a.values };

    ghost invariant = { λ a. IsStart a.draws a.values };
}

impl MinimumSupport {
    /// The design of a request whose shapes add up to its total: its units are the request's free units, and each has the value that is
    /// requested of it.
    pub fn new(alloc: Global, request: &Request) -> Result<MinimumSupport, NoMemory>
        requires request { IsRequest request.now }
        requires whole { sum request.now.shape ≡ request.now.total }
        ensures design { IfOk result (λ design. design ≡ started request.now) }
        ensures requested { IfOk result (λ design.
            IsRequested (method_of design).tree request.now design) }
    {
        Ok(MinimumSupport {
            values: Values::requested(alloc, request)?,
            draws: request.draws() as usize,
        })
    }

    /// The state before the first step. Over all draws, each unit is selected with the probability that is its value, and each leaf selects
    /// as many units as the values add up to.
    pub fn start(&self, alloc: Global) -> Result<SupportState, NoMemory>
        ensures state { IfOk result (λ state. state ≡ self.now) }
        ensures starts { IfOk result (Starts (method_of self.now)) }

        // There are at most as many leaves as units, and so at most as many samples in the support.
        ensures support { IfOk result (λ state. 1 ≤ length self.now.numer →
            leaves (method_of self.now).tree state ≤ length self.now.numer) }
    {
        let mut ranked = Ranked::all_small(alloc, self.values.numerators())?;
        ranked.take_largest(self.draws);
        Ok(SupportState::new(ranked, self.values.denominator()))
    }
}

impl Splitting for MinimumSupport {
    type State = SupportState;

    ghost method = { λ design. method_of design };

    fn units(&self) -> usize {
        self.values.len()
    }

    fn done(&self, state: &SupportState) -> bool {
        state.is_done()
    }

    fn kind(&self, state: &SupportState) -> Kind {
        state.kind()
    }

    fn bound(&self, state: &SupportState) -> u128 {
        state.bound()
    }

    fn advance(&self, state: &mut SupportState, draw: u128) {
        state.advance(draw);
    }

    fn selected(&self, state: &SupportState, unit: usize) -> bool {
        state.is_selected(unit)
    }
}
