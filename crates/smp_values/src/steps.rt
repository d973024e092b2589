//! Sequential pivotal steps.

ghost use Rattle.std.specs.Prelude.{◌≡◌, ℕ, ◌<◌, false, length};
ghost use Rattle.smp_frac.specs.Limits.{most_denominator};
ghost use Rattle.smp_split.specs.Trees.{weight_sum, picked};
ghost use Rattle.smp_prob.specs.Shares.{Shares};
ghost use Rattle.smp_values.specs.{Values.{IsValues, exchanged_values, is_one, is_settled}, Steps.{pivotal_kind, pivotal_parts}};
ghost use Rattle.smp_values.specs.Kept.Places.{IsPlaced};

use crate::Values;
use smp_split::Kind;
use std::marker::Model;
use std::mem;

/// Values in a row, and the sequential pivotal steps on them.
///
/// It keeps the first two fractional units, and looks for the next ones behind them. So the searches of a whole run go over the
/// units once, and apart from them each step takes constant time.
#[derive(Drop)]
pub struct PivotalSteps {
    values: Values,
    first: usize,
    second: usize,
}

impl Model for PivotalSteps {
    ghost Value = { Shares };

    ghost view = { λ a. a.values };

    ghost invariant = { λ a. IsPlaced a.values a.first a.second };
}

impl PivotalSteps {
    /// The steps on these values.
    pub fn from_values(values: Values) -> PivotalSteps
        requires { IsValues (length values.numer) most_denominator values }
        ensures { result ≡ values }
    {
        let first = values.next_fractional(0);
        let second = values.next_fractional(first + 1);
        PivotalSteps {
            values,
            first,
            second,
        }
    }

    /// Goes on with these values, and gives back in their place those that it had. No memory is taken.
    pub fn set(&mut self, values: &mut Values)
        requires { IsValues (length values.old.numer) most_denominator values.old }
        ensures set { self.new ≡ values.old }
        ensures given_back { values.new ≡ self.old }
    {
        mem::swap(&mut self.values, values);
        self.first = self.values.next_fractional(0);
        self.second = self.values.next_fractional(self.first + 1);
    }

    /// Whether no step is left, as each value is 0 or 1.
    pub fn is_done(&self) -> bool
        ensures { result ≡ is_settled self.now }
    {
        self.first == self.values.len()
    }

    /// The kind of the next step: on a pair, or on a unit that is left alone.
    pub fn kind(&self) -> Kind
        ensures { result ≡ pivotal_kind self.now }
    {
        if self.second < self.values.len() {
            Kind::Pivot
        } else {
            Kind::Lone
        }
    }

    /// The bound of the next step's draw.
    pub fn bound(&self) -> u128
        requires { is_settled self.now ≡ false }
        ensures { result ≡ weight_sum (pivotal_parts self.now) }
    {
        self.values.step_bound(self.first, self.second)
    }

    /// Makes the step that this draw leads to.
    pub fn advance(&mut self, draw: u128)
        requires going { is_settled self.old ≡ false }
        requires within { draw < weight_sum (pivotal_parts self.old) }
        ensures { self.new ≡ picked self.old (pivotal_parts self.old) draw }
    {
        self.values.step(self.first, self.second, draw);
        let (first, second) = self.values.next_two(self.first, self.second);
        self.first = first;
        self.second = second;
    }

    /// Exchanges the values of two units. Where the first units are fractional, this takes constant time.
    pub fn exchange(&mut self, unit: usize, other: usize)
        requires unit { unit < length self.old.numer }
        requires other { other < length self.old.numer }
        ensures { self.new ≡ exchanged_values unit other self.old }
    {
        self.values.exchange(unit, other);
        self.first = self.values.next_fractional(0);
        self.second = self.values.next_fractional(self.first + 1);
    }

    /// How many units there are.
    pub fn len(&self) -> usize
        ensures { result ≡ length self.now.numer }
    {
        self.values.len()
    }

    /// Whether a unit's value is 1.
    pub fn is_one(&self, unit: usize) -> bool
        requires { unit < length self.now.numer }
        ensures { result ≡ is_one self.now unit }
    {
        self.values.is_one(unit)
    }
}
