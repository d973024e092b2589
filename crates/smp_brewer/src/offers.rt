//! The offers of a selection, and their answers.

ghost use Rattle.std.specs.Prelude.{◌≡◌, ◌+◌, ◌*◌, ◌^◌, ◌<◌, ◌≤◌, length, IfOk};
ghost use Rattle.smp_split.specs.Trees.{weight_sum, picked};
ghost use Rattle.smp_brewer.specs.Brewer.{offering, offered, total, largest, size_of, offer_parts};
ghost use Rattle.smp_brewer.specs.Brewer.{take_bound, take_weight, take_parts, after_taken, shares_left, IsOffered};

use crate::sizes::OpenSizes;
use smp_frac::NoMemory;
use smp_values::Values;
use std::alloc::Global;

/// The sizes of the units that are open, how many are still to be drawn, and how many offers were refused so far.
#[derive(Drop)]
pub(crate) struct Offers {
    pub(crate) sizes: OpenSizes,
    pub(crate) draws: u32,
    pub(crate) refused: u64,
}

impl Offers {
    /// The same offers in memory of their own.
    pub(crate) fn copy(&self, alloc: Global) -> Result<Offers, NoMemory>
        ensures { IfOk result (λ copy. copy ≡ self.now) }
    {
        Ok(Offers {
            sizes: self.sizes.copy(alloc)?,
            draws: self.draws,
            refused: self.refused,
        })
    }

    /// The unit that a draw offers.
    pub(crate) fn find(&self, draw: u128) -> usize
        requires { draw < weight_sum (offer_parts self.now) }
        ensures { offered self.now result ≡ picked (offering self.now) (offer_parts self.now) draw }
    {
        self.sizes.find(draw)
    }

    /// The bound of the draw that answers the offer of a unit.
    pub(crate) fn bound(&self, unit: usize) -> u128
        requires unit { unit < length self.now.sizes }
        requires light { self.now.draws * size_of self.now unit ≤ total self.now }
        ensures { result ≡ take_bound self.now unit }
    {
        let rest = self.sizes.total() - self.sizes.largest();
        let share = self.draws as u64 * self.sizes.size(unit);
        rest as u128 * (self.sizes.total() - share) as u128
    }

    /// The weight with which the offer of a unit is taken.
    pub(crate) fn weight(&self, unit: usize) -> u128
        requires unit { unit < length self.now.sizes }
        requires light { self.now.draws * largest self.now ≤ total self.now }
        ensures { result ≡ take_weight self.now unit }
    {
        let rest = self.sizes.total() - self.sizes.size(unit);
        let share = self.draws as u64 * self.sizes.largest();
        rest as u128 * (self.sizes.total() - share) as u128
    }

    /// Takes a unit.
    pub(crate) fn take(&mut self, unit: usize)
        requires unit { unit < length self.old.sizes }
        requires some { 1 ≤ self.old.draws }
        ensures { self.new ≡ after_taken self.old unit }
    {
        self.sizes.take(unit);
        self.draws -= 1;
    }

    /// Answers the offer of a unit by a draw: it is taken or refused.
    pub(crate) fn answer(&mut self, unit: usize, draw: u128)
        requires offered { IsOffered (length self.old.sizes) self.old unit }
        requires counted { self.old.refused + 1 < 2 ^ 64 }
        requires within { draw < weight_sum (take_parts self.old unit) }
        ensures { self.new ≡ picked self.old (take_parts self.old unit) draw }
    {
        if draw < self.weight(unit) {
            self.take(unit);
        } else {
            self.refused += 1;
        }
    }

    /// Sets the values to those that the units have now.
    pub(crate) fn fill(&self, values: &mut Values)
        requires room { length values.old.numer ≡ length self.now.sizes }
        ensures { values.new ≡ shares_left self.now }
    {
        let total = self.sizes.total() as u128;
        for unit in 0..self.sizes.len() {
            let share = if self.sizes.is_taken(unit) {
                total
            } else {
                self.sizes.size(unit) as u128 * self.draws as u128
            };
            values.set(unit, share);
        }
        values.set_denominator(total);
    }
}
