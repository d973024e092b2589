//! Local pivotal selection as a design.

ghost use Rattle.std.specs.Prelude.{◌≡◌, ◌≤◌, length, IfOk};
ghost use Rattle.smp_near.specs.Nearest.{all_living};
ghost use Rattle.smp_prob.specs.Requests.{IsRequest};
ghost use Rattle.smp_split.specs.{Counts.{LeavesSelectAround}, Methods.{Starts}};
ghost use Rattle.smp_values.specs.Starts.{IsRequested};
ghost use Rattle.smp_localpiv.specs.{Local.{Local, located_values}, Kept.States.{IsOpen}, Method.{method_of, started}};

use crate::state::LocalState;
use smp_frac::NoMemory;
use smp_near::Points;
use smp_places::Amounts;
use smp_prob::Request;
use smp_split::{Kind, Splitting};
use smp_values::{SelectionState, Values};
use std::alloc::Global;
use std::marker::Model;

/// A design that selects by local pivotal steps, over units that lie at points with `K` whole coordinates, `K` from 1 to 4.
///
/// It is seen as the state before the first step.
#[derive(Drop)]
pub struct LocalPivotal<const K: usize> {
    coords: Vec<[i32; K]>,
    values: Values,
}

impl<const K: usize> Model for LocalPivotal<K> {
    ghost Value = { Local };

    ghost view = { λ a. located_values a.coords.items a.values };

    ghost invariant = { λ a. IsOpen K a.coords.items a.values };
}

impl<const K: usize> LocalPivotal<K> {
    /// The design of a request: its units are the request's free units, each has the value that is requested of it, and
    /// `coords` has the point of each, in their order.
    pub fn new(
        alloc: Global,
        request: &Request,
        coords: &[[i32; K]],
    ) -> Result<LocalPivotal<K>, NoMemory>
        requires request { IsRequest request.now }
        requires dimensions { (1 ≤ K) × (K ≤ 4) }
        requires placed { length coords.now ≡ length request.now.free }
        ensures design { IfOk result (λ design. design ≡ started request.now coords.now) }
        ensures requested { IfOk result (λ design.
            IsRequested (method_of design).tree request.now design) }
    {
        Ok(LocalPivotal {
            coords: Vec::from_slice(alloc, coords)?,
            values: Values::requested(alloc, request)?,
        })
    }

    /// The state before the first step. Over all draws, each unit is selected with the probability that is its value.
    /// Whatever is drawn, as many units are selected as the values add up to, or, where their sum isn't whole, one of the two
    /// whole numbers around it.
    pub fn start(&self, alloc: Global) -> Result<LocalState<K>, NoMemory>
        ensures state { IfOk result (λ state. state ≡ self.now) }
        ensures starts { IfOk result (Starts (method_of self.now)) }
        ensures around { IfOk result (LeavesSelectAround (method_of self.now).tree) }
    {
        let state = first_state(alloc, self.coords.as_slice(), &self.values)?;
        Ok(state)
    }
}

// The state with these values, each of them fractional, of units at these points.
fn first_state<const K: usize>(
    alloc: Global,
    coords: &[[i32; K]],
    values: &Values,
) -> Result<LocalState<K>, NoMemory>
    requires { IsOpen K coords.now values.now }
    ensures { IfOk result (λ state. state ≡ located_values coords.now values.now) }
{
    let weights = Amounts::ones(alloc, values.len())?;
    let points = points_at(alloc, coords)?;
    Ok(LocalState::new(points, values.copy(alloc)?, weights))
}

// The points with these coordinates, all of them living.
fn points_at<const K: usize>(alloc: Global, coords: &[[i32; K]]) -> Result<Points<K>, NoMemory>
    requires { (1 ≤ K) × (K ≤ 4) }
    ensures { IfOk result (λ points. points ≡ all_living coords.now) }
{
    Points::new(alloc, coords)
}

impl<const K: usize> Splitting for LocalPivotal<K> {
    type State = LocalState<K>;

    ghost method = { λ design. method_of design };

    fn units(&self) -> usize {
        self.values.len()
    }

    fn done(&self, state: &LocalState<K>) -> bool {
        state.is_done()
    }

    fn kind(&self, state: &LocalState<K>) -> Kind {
        state.kind()
    }

    fn bound(&self, state: &LocalState<K>) -> u128 {
        state.bound()
    }

    fn advance(&self, state: &mut LocalState<K>, draw: u128) {
        state.advance(draw);
    }

    fn selected(&self, state: &LocalState<K>, unit: usize) -> bool {
        state.is_selected(unit)
    }
}
