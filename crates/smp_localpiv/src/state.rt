//! A state of a local pivotal selection, and its steps.

ghost use Rattle.std.specs.Prelude.{◌≡◌, ◌<◌, ◌≤◌, true, length, None};
ghost use Rattle.smp_frac.specs.Limits.{most_denominator};
ghost use Rattle.smp_split.specs.Trees.{weight_sum, picked};
ghost use Rattle.smp_values.specs.Values.{fractional_at, fractional_count, is_fractional, with_one};
ghost use Rattle.smp_localpiv.specs.Local.{IsLocal, Local, MayMeet, local_tree, located_values, meeting, neighbour, settling};
ghost use Rattle.smp_localpiv.specs.{Kept.States.{IsKept, IsWeighed, chosen_unit}, Laws.Neighbours.{IsMet}};

use smp_near::Points;
use smp_places::Amounts;
use smp_split::Kind;
use smp_values::{SelectionState, Values, pair_apply, pair_bound};
use std::marker::Model;

/// A state of a local pivotal selection: the points of the units, their values, and the unit that meets its neighbour
/// next, once it is chosen.
///
/// Of its points those of the fractional units are living, and these have the weight 1. So a unit is chosen, and a settled
/// one taken out, along one path of a tree. A chosen unit stands with its neighbour.
#[derive(Drop)]
pub struct LocalState<const K: usize> {
    points: Points<K>,
    values: Values,
    weights: Amounts,
    chosen: Option<(usize, usize)>,
}

impl<const K: usize> Model for LocalState<K> {
    ghost Value = { Local };

    ghost view = { λ a. record {
      coords = a.points.coords;
      state = a.values;
      chosen = chosen_unit a.chosen;
    } };

    ghost invariant = { λ a. IsKept a.points a.values a.weights a.chosen };
}

impl<const K: usize> LocalState<K> {
    /// The state with these values, each of them fractional, of the units at these points, all of them living.
    pub(crate) fn new(points: Points<K>, values: Values, weights: Amounts) -> LocalState<K>
        requires { IsWeighed points.living values weights }
        ensures { result ≡ located_values points.entry.coords values }
    {
        LocalState {
            points,
            values,
            weights,
            chosen: None,
        }
    }

    // How many units are fractional.
    fn left(&self) -> u64
        ensures { result ≡ fractional_count self.now.state }
    {
        self.weights.total()
    }

    // The fractional unit at a place among them, in the order of the frame.
    fn fractional_at(&self, place: u128) -> usize
        requires { place < fractional_count self.now.state }
        ensures unit { result ≡ fractional_at self.now.state place }
        ensures open_at { is_fractional self.now.state result ≡ true }
    {
        self.weights.find(place)
    }

    // The nearest of the other fractional units.
    fn neighbour(&self, unit: usize) -> usize
        requires { MayMeet self.now.state unit }
        ensures { result ≡ neighbour self.now unit }
    {
        match self.points.nearest(unit) {
            Some(other) => other,
            None => unreachable!(),
        }
    }

    // Gives a fractional unit another value. Where this is 0 or 1, the unit's point and weight are taken out.
    fn set_value(&mut self, unit: usize, numer: u128)
        requires fractional { is_fractional self.old.state unit ≡ true }
        requires none { self.old.chosen ≡ None }
        ensures { self.new ≡ record self.old { state = with_one self.old.state unit numer } }
    {
        self.values.set(unit, numer);
        if !self.values.is_fractional(unit) {
            self.points.remove(unit);
            self.weights.take_out(unit);
        }
    }

    // The pivotal step of the chosen unit and its neighbour.
    fn meet(&mut self, unit: usize, other: usize, draw: u128)
        requires met { IsMet self.old unit }
        requires other { other ≡ neighbour self.old unit }
        requires narrow { self.old.state.den ≤ most_denominator }
        requires within { draw < weight_sum (meeting self.old unit) }
        ensures { self.new ≡ picked self.old (meeting self.old unit) draw }
    {
        let (at_unit, at_other) = pair_apply(
            self.values.numerator(unit),
            self.values.numerator(other),
            self.values.denominator(),
            draw,
        );
        self.chosen = None;
        self.set_value(unit, at_unit);
        self.set_value(other, at_other);
    }

    // The step of the only fractional unit.
    fn settle_alone(&mut self, draw: u128)
        requires going { 1 ≤ fractional_count self.old.state }
        requires none { self.old.chosen ≡ None }
        requires within { draw < weight_sum (settling self.old) }
        ensures { self.new ≡ picked self.old (settling self.old) draw }
    {
        let unit = self.fractional_at(0);
        let wins = draw < self.values.numerator(unit);
        let settled = if wins { self.values.denominator() } else { 0 };
        self.set_value(unit, settled);
    }
}

impl<const K: usize> SelectionState for LocalState<K> {
    ghost tree = { λ s. local_tree (length s.state.numer) };

    ghost belongs = { λ s. IsLocal (length s.state.numer) s };

    fn is_done(&self) -> bool {
        self.left() == 0
    }

    fn kind(&self) -> Kind {
        if self.chosen.is_some() {
            Kind::Pivot
        } else if self.left() > 1 {
            Kind::Choose
        } else {
            Kind::Lone
        }
    }

    fn bound(&self) -> u128 {
        match self.chosen {
            Some((unit, other)) => pair_bound(
                self.values.numerator(unit),
                self.values.numerator(other),
                self.values.denominator(),
            ),
            None if self.left() > 1 => self.left() as u128,
            None => self.values.denominator(),
        }
    }

    fn advance(&mut self, draw: u128) {
        match self.chosen {
            Some((unit, other)) => self.meet(unit, other, draw),
            None if self.left() > 1 => {
                let unit = self.fractional_at(draw);
                let other = self.neighbour(unit);
                self.chosen = Some((unit, other));
            }
            None => self.settle_alone(draw),
        }
    }

    fn is_selected(&self, unit: usize) -> bool {
        self.values.is_one(unit)
    }
}
