//! Amounts at places, which are summed by a tree.
#![tactic(auto)]

ghost use Rattle.std.specs.Prelude.{◌≡◌, ◌+◌, ◌*◌, ◌^◌, ◌<◌, ◌≤◌, length, replicate, slice_index, slice_set, sum, IfOk};
ghost use Rattle.smp_places.specs.Amounts.{sum_before, weighted_before};

use crate::sums::{change, find, sum_up};
use std::alloc::{AllocError, Global};
use std::marker::Model;

/// Amounts at places, numbered from 0 on. It is seen as the list of the amounts.
///
/// A sum stands at the root of each tree of places, so that finding a place and setting an amount go along one path.
#[derive(Drop)]
pub struct Amounts {
    amounts: Vec<u64>,
    sums: Vec<u64>,
    total: u64,
}

impl Model for Amounts {
    ghost use Rattle.std.specs.Prelude.{ℕ, List};
    ghost use Rattle.smp_places.specs.Kept.{IsTotalled};

    ghost Value = { List ℕ };

    ghost view = { λ a. a.amounts.items };

    ghost invariant = { λ a. IsTotalled a.amounts.items a.sums.items a.total };
}

impl Amounts {
    /// These amounts.
    pub fn new(alloc: Global, amounts: &[u32]) -> Result<Amounts, AllocError>
        requires { sum amounts.now < 2 ^ 64 }
        ensures { IfOk result (λ own. own ≡ amounts.now) }
    {
        let wide = wide(alloc, amounts)?;
        let mut sums = vec![in alloc; 0; amounts.len()]?;
        let total = sum_up(wide.as_slice(), sums.as_mut_slice(), 0, amounts.len());
        Ok(Amounts {
            amounts: wide,
            sums,
            total,
        })
    }

    /// The amount 1 at each of so many places.
    pub fn ones(alloc: Global, places: usize) -> Result<Amounts, AllocError>
        ensures { IfOk result (λ ones. ones ≡ replicate places 1) }
    {
        let ones = vec![in alloc; 1; places]?;
        Amounts::new(alloc, ones.as_slice())
    }

    /// No amount at each of so many places.
    pub fn none(alloc: Global, places: usize) -> Result<Amounts, AllocError>
        ensures { IfOk result (λ none. none ≡ replicate places 0) }
    {
        let none = vec![in alloc; 0; places]?;
        Amounts::new(alloc, none.as_slice())
    }

    /// The same amounts in memory of their own.
    pub fn copy(&self, alloc: Global) -> Result<Amounts, AllocError>
        ensures { IfOk result (λ copy. copy ≡ self.now) }
    {
        Ok(Amounts {
            amounts: Vec::from_slice(alloc, self.amounts.as_slice())?,
            sums: Vec::from_slice(alloc, self.sums.as_slice())?,
            total: self.total,
        })
    }

    /// The amounts in order.
    pub fn as_slice(&self) -> &[u64]
        ensures { result.now ≡ self.now }
    {
        self.amounts.as_slice()
    }

    /// The sum of the amounts.
    pub fn total(&self) -> u64
        ensures { result ≡ sum self.now }
    {
        self.total
    }

    /// The place that a draw below the total leads to: the first at which the amounts, summed up from the first place on,
    /// pass the draw.
    pub fn find(&self, draw: u128) -> usize
        requires { draw < sum self.now }
        ensures place { result < length self.now }
        ensures from { sum_before self.now result ≤ draw }
        ensures passes { draw < sum_before self.now result + slice_index self.now result }
    {
        let sums = self.sums.as_slice();
        find(
            1,
            self.amounts.as_slice(),
            sums,
            0,
            self.amounts.as_slice(),
            sums,
            draw,
        )
    }

    /// The place that a draw leads to where two amounts count at each place, each times a factor: the first at which they,
    /// summed up from the first place on, pass the draw.
    pub fn find_in_both(&self, by: u128, other: &Amounts, times: u128, draw: u128) -> usize
        requires paired { length other.now ≡ length self.now }
        requires narrow { by * sum self.now + times * sum other.now < 2 ^ 128 }
        requires within { draw < by * sum self.now + times * sum other.now }
        ensures place { result < length self.now }
        ensures from { weighted_before by self.now times other.now result ≤ draw }
        ensures passes { draw < weighted_before by self.now times other.now (result + 1) }
    {
        let sums = self.sums.as_slice();
        let others = other.amounts.as_slice();
        find(
            by,
            self.amounts.as_slice(),
            sums,
            times,
            others,
            other.sums.as_slice(),
            draw,
        )
    }

    /// Sets the amount at a place.
    pub fn set(&mut self, place: usize, amount: u64)
        requires place { place < length self.old }
        requires narrow { sum self.old + amount < 2 ^ 64 }
        ensures { self.new ≡ slice_set self.old place amount }
    {
        let end = self.amounts.len();
        change(
            self.amounts.as_slice(),
            self.sums.as_mut_slice(),
            0,
            end,
            place,
            amount,
        );
        self.total = self.total - self.amounts[place] + amount;
        self.amounts[place] = amount;
    }

    /// Takes out the amount at a place, which leaves 0 there.
    pub fn take_out(&mut self, place: usize)
        requires { place < length self.old }
        ensures { self.new ≡ slice_set self.old place 0 }
    {
        // A field that is used tells that the sum is narrow.
        let _ = &self.total;
        self.set(place, 0);
    }
}

// The same numbers in more room.
fn wide(alloc: Global, amounts: &[u32]) -> Result<Vec<u64>, AllocError>
    ensures { IfOk result (λ wide. wide.items ≡ amounts.now) }
{
    amounts.iter().map(|&amount| amount as u64).collect(alloc)
}
