//! Values from 0 to 1, as numerators over one denominator.

ghost use Rattle.std.specs.Prelude.{◌≡◌, ℕ, ◌+◌, ◌^◌, ◌<◌, ◌≤◌, true, IfOk, length, replicate, slice_index};
ghost use Rattle.smp_prob.specs.{Requests.{IsRequest}, Shares.{Shares, shares_of}};
ghost use Rattle.smp_split.specs.Trees.{weight_sum, picked};
ghost use Rattle.smp_values.specs.Values.{exchanged_values, fractional_at, fractional_count, is_fractional, is_one, is_settled, with_one};
ghost use Rattle.smp_values.specs.Kept.Places.{IsGoing, OnlyBefore, fractional_from, first_of, second_of, parts_at};

use crate::pairs::{pair_apply, pair_bound};
use smp_frac::NoMemory;
use smp_prob::Request;
use std::alloc::Global;
use std::marker::Model;

/// Values of units in a row, from 0 to 1, as numerators over one denominator.
#[derive(Drop)]
pub struct Values {
    numer: Vec<u128>,
    den: u128,
}

impl Model for Values {
    ghost Value = { Shares };

    ghost view = { λ a. record { numer = a.numer.items; den = a.den } };
}

impl Values {
    /// The probabilities that a request asks of its free units, over their common denominator.
    pub fn requested(alloc: Global, request: &Request) -> Result<Values, NoMemory>
        requires { IsRequest request.now }
        ensures { IfOk result (λ values. values ≡ shares_of request.now) }
    {
        Ok(Values {
            numer: request.numerators(alloc)?,
            den: request.common_denominator() as u128,
        })
    }

    /// Room for so many values: each is 0, over the denominator 1.
    pub fn with_room(alloc: Global, units: usize) -> Result<Values, NoMemory>
        ensures numer { IfOk result (λ values. values.numer ≡ replicate units 0) }
        ensures den { IfOk result (λ values. values.den ≡ 1) }
    {
        Ok(Values {
            numer: vec![in alloc; 0; units]?,
            den: 1,
        })
    }

    /// The same values in memory of their own.
    pub fn copy(&self, alloc: Global) -> Result<Values, NoMemory>
        ensures { IfOk result (λ copy. copy ≡ self.now) }
    {
        Ok(Values {
            numer: Vec::from_slice(alloc, self.numer.as_slice())?,
            den: self.den,
        })
    }

    /// How many units there are.
    pub fn len(&self) -> usize
        ensures { result ≡ length self.now.numer }
    {
        self.numer.len()
    }

    /// The denominator.
    pub fn denominator(&self) -> u128
        ensures { result ≡ self.now.den }
    {
        self.den
    }

    /// The numerator of a unit.
    pub fn numerator(&self, unit: usize) -> u128
        requires { unit < length self.now.numer }
        ensures { result ≡ slice_index self.now.numer unit }
    {
        self.numer[unit]
    }

    /// The numerators in order.
    pub fn numerators(&self) -> &[u128]
        ensures { result.now ≡ self.now.numer }
    {
        self.numer.as_slice()
    }

    /// Whether a unit's value is strictly between 0 and 1.
    pub fn is_fractional(&self, unit: usize) -> bool
        requires { unit < length self.now.numer }
        ensures { result ≡ is_fractional self.now unit }
    {
        0 < self.numer[unit] && self.numer[unit] < self.den
    }

    /// Whether a unit's value is 1.
    pub fn is_one(&self, unit: usize) -> bool
        requires { unit < length self.now.numer }
        ensures { result ≡ is_one self.now unit }
    {
        self.numer[unit] == self.den
    }

    /// Whether no value is strictly between 0 and 1. It goes over the values once.
    pub fn is_settled(&self) -> bool
        ensures { result ≡ is_settled self.now }
    {
        for unit in 0..self.len() {
            if self.is_fractional(unit) {
                return false;
            }
        }
        true
    }

    /// The fractional unit at a place among them, in order. It goes over the values up to that unit.
    pub fn fractional_at(&self, place: usize) -> usize
        requires { place < fractional_count self.now }
        ensures unit { result ≡ fractional_at self.now place }
        ensures open_at { is_fractional self.now result ≡ true }
    {
        let mut before = 0;
        for unit in 0..self.len() {
            if self.is_fractional(unit) {
                if before == place {
                    return unit;
                }
                before += 1;
            }
        }
        unreachable!()
    }

    /// Gives a unit another numerator.
    pub fn set(&mut self, unit: usize, numer: u128)
        requires { unit < length self.old.numer }
        ensures { self.new ≡ with_one self.old unit numer }
    {
        self.numer[unit] = numer;
    }

    /// Sets the denominator; the numerators stay.
    pub fn set_denominator(&mut self, den: u128)
        ensures { self.new ≡ record { numer = self.old.numer; den = den } }
    {
        self.den = den;
    }

    /// Exchanges the values of two units.
    pub fn exchange(&mut self, unit: usize, other: usize)
        requires unit { unit < length self.old.numer }
        requires other { other < length self.old.numer }
        ensures { self.new ≡ exchanged_values unit other self.old }
    {
        self.numer.swap(unit, other);
    }

    // The first fractional unit from a place on, or the number of units.
    pub(crate) fn next_fractional(&self, place: usize) -> usize
        ensures next { result ≡ fractional_from self.now place }
        ensures followed { result + 1 < 2 ^ 64 }
    {
        for unit in place..self.numer.len() {
            if self.is_fractional(unit) {
                return unit;
            }
        }
        self.numer.len()
    }

    // The first two fractional units after a step on `first` and `second`. The search goes on at `second`, so all the searches of a run
    // together go over the units once.
    pub(crate) fn next_two(&self, first: usize, second: usize) -> (usize, usize)
        requires ordered { first < second }
        requires second_in { second ≤ length self.now.numer }
        requires before { OnlyBefore self.now first second }
        ensures first { result.0 ≡ first_of self.now }
        ensures second { result.1 ≡ second_of self.now }
    {
        let next = self.next_fractional(second);
        if self.is_fractional(first) {
            (first, next)
        } else {
            (next, self.next_fractional(next + 1))
        }
    }

    // The bound of the step on these two, or on the first alone where `second` is no unit.
    pub(crate) fn step_bound(&self, first: usize, second: usize) -> u128
        requires { IsGoing self.now first second }
        ensures { result ≡ weight_sum (parts_at self.now first second) }
    {
        if second < self.numer.len() {
            pair_bound(self.numer[first], self.numer[second], self.den)
        } else {
            self.den
        }
    }

    // Makes that step by a draw.
    pub(crate) fn step(&mut self, first: usize, second: usize, draw: u128)
        requires going { IsGoing self.old first second }
        requires within { draw < weight_sum (parts_at self.old first second) }
        ensures { self.new ≡ picked self.old (parts_at self.old first second) draw }
    {
        if second < self.numer.len() {
            let (at_first, at_second) = pair_apply(
                self.numer[first],
                self.numer[second],
                self.den,
                draw,
            );
            self.numer[first] = at_first;
            self.numer[second] = at_second;
        } else {
            let wins = draw < self.numer[first];
            self.numer[first] = if wins { self.den } else { 0 };
        }
    }
}
