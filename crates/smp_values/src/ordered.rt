//! The design of a method that settles the values at places, over units that stand in an order.

ghost use Rattle.std.specs.Prelude.{◌≡◌, ℕ, ◌^◌, ◌<◌, length, IfOk};
ghost use Rattle.smp_prob.specs.{Requests.{IsRequest}, Shares.{Shares}};
ghost use Rattle.smp_split.specs.{Counts.{LeavesSelectAround}, Methods.{Starts}, Orders.{Ordered, in_order}};
ghost use Rattle.smp_values.specs.{InOrder.{IsPlacedBy, placed_method, placed_tree, started}, Starts.{IsRequested, ordered_values}};
ghost use Rattle.smp_values.specs.Values.{IsValues};

use crate::{PlaceSteps, SelectionState, Values, unit_order};
use smp_frac::NoMemory;
use smp_prob::{Order, Request};
use smp_split::{Kind, Splitting, UnitOrder};
use std::alloc::Global;
use std::marker::{Model, PhantomData};

/// A design that makes the steps `S`, in the order of the frame or in an order that is drawn first.
///
/// It is seen as the state before the first step.
#[derive(Drop)]
pub struct OrderedDesign<S: PlaceSteps> {
    order: Order,
    values: Values,
    steps: PhantomData<S>,
}

impl<S: PlaceSteps> Model for OrderedDesign<S> {
    ghost Value = { Ordered Shares };

    ghost view = { λ a. ordered_values a.order a.values };

    ghost invariant = { λ a. (length a.values.numer < 2 ^ 64)
        × IsValues (length a.values.numer) S.rule.most a.values };
}

/// A state of such a selection: the places of the units, and the steps on the values at the places.
#[derive(Drop)]
pub struct OrderedState<S: PlaceSteps> {
    order: UnitOrder,
    steps: S,
}

impl<S: PlaceSteps> Model for OrderedState<S> {
    ghost Value = { Ordered Shares };

    ghost view = { λ a. in_order a.order (S.shares a.steps) };
}

impl<S: PlaceSteps> OrderedDesign<S> {
    /// The design of a request: its units are the request's free units, and each has the value that is requested of it.
    pub fn new(alloc: Global, request: &Request, order: Order) -> Result<OrderedDesign<S>, NoMemory>
        requires { IsRequest request.now }
        ensures design { IfOk result (λ design. design ≡ started request.now order) }
        ensures requested { IfOk result (λ design.
            IsRequested (placed_method S.rule S.law.lawful design).tree request.now design) }
    {
        Ok(OrderedDesign {
            order,
            values: Values::requested(alloc, request)?,
            steps: PhantomData,
        })
    }

    /// The state before the first step. Over all draws, each unit is selected with the probability that is its value. Whatever is
    /// drawn, as many units are selected as the values add up to, or, where their sum isn't whole, one of the two whole numbers
    /// around it.
    pub fn start(&self, alloc: Global) -> Result<OrderedState<S>, NoMemory>
        ensures state { IfOk result (λ state. state ≡ self.now) }
        ensures starts { IfOk result (Starts (placed_method S.rule S.law.lawful self.now)) }
        ensures around { IfOk result
            (LeavesSelectAround (placed_method S.rule S.law.lawful self.now).tree) }
    {
        let state = first_state(alloc, self.order, &self.values)?;
        Ok(state)
    }
}

// The state with these values, in this order, before the first step.
fn first_state<S: PlaceSteps>(
    alloc: Global,
    order: Order,
    values: &Values,
) -> Result<OrderedState<S>, NoMemory>
    requires { IsValues (length values.now.numer) S.rule.most values.now }
    ensures { IfOk result (λ state. state ≡ ordered_values order values.now) }
{
    let order = unit_order(alloc, order, values.len())?;
    let steps = S::from_values(values.copy(alloc)?);
    Ok(OrderedState { order, steps })
}

impl<S: PlaceSteps> SelectionState for OrderedState<S> {
    ghost tree = { λ s. placed_tree S.rule (length s.state.numer) };

    ghost belongs = { λ s. IsPlacedBy S.rule (length s.state.numer) s };

    fn is_done(&self) -> bool {
        self.order.is_drawn() && self.steps.is_done()
    }

    fn kind(&self) -> Kind {
        if self.order.is_drawn() {
            self.steps.kind()
        } else {
            Kind::Order
        }
    }

    fn bound(&self) -> u128 {
        if self.order.is_drawn() {
            self.steps.bound()
        } else {
            self.order.bound()
        }
    }

    fn advance(&mut self, draw: u128) {
        if self.order.is_drawn() {
            self.steps.advance(draw);
        } else {
            let (place, other) = self.order.exchange(draw);
            self.steps.exchange(place, other);
        }
    }

    fn is_selected(&self, unit: usize) -> bool {
        self.steps.is_one(self.order.place(unit))
    }
}

impl<S: PlaceSteps> Splitting for OrderedDesign<S> {
    type State = OrderedState<S>;

    ghost method = { λ design. placed_method S.rule S.law.lawful design };

    fn units(&self) -> usize {
        self.values.len()
    }

    fn done(&self, state: &OrderedState<S>) -> bool {
        state.is_done()
    }

    fn kind(&self, state: &OrderedState<S>) -> Kind {
        state.kind()
    }

    fn bound(&self, state: &OrderedState<S>) -> u128 {
        state.bound()
    }

    fn advance(&self, state: &mut OrderedState<S>, draw: u128) {
        state.advance(draw);
    }

    fn selected(&self, state: &OrderedState<S>, unit: usize) -> bool {
        state.is_selected(unit)
    }
}
