//! Units in two groups, the large ones and the small ones.

ghost use Rattle.std.specs.Prelude.{◌≡◌, ℕ, ◌+◌, ◌-◌, ◌*◌, ◌<◌, ◌≤◌, true, false, length, slice_index, IfOk, IfSome, IfNone};
ghost use Rattle.std.specs.{Bool.{OnTrue, OnFalse}, BinaryHeap.{heap_items, heap_len, heap_capacity}};
ghost use Rattle.smp_frac.specs.Limits.{wide_limit};
ghost use Rattle.smp_values.specs.Values.{is_settled};
ghost use Rattle.smp_minsup.specs.{Support.{IsSupport, lambda}, Kept.Ranked.{RankedUnits, IsMostSmall, IsLeastLarge, IsParted}};
ghost use Rattle.smp_minsup.specs.Kept.Ranked.{IsMixed, IsKept, IsCut, is_in, large_count, largest_small, least_large, placed, lowered_by};
ghost use Rattle.smp_minsup.specs.Kept.Ranked.{ranked_of, shares_over};

use smp_frac::NoMemory;
use std::alloc::Global;
use std::cmp::Reverse;
use std::collections::BinaryHeap;
use std::marker::Model;

/// Units in two groups, the large ones and the small ones, each with its numerator.
///
/// The large ones are kept with what all of them were lowered by, so that to lower them touches none. A heap for each group,
/// with room for all units from the start, has its next unit to change groups at the top.
#[derive(Drop)]
pub(crate) struct Ranked {
    raw: Vec<u128>,
    large: Vec<bool>,
    offset: u128,
    smalls: BinaryHeap<(u128, usize)>,
    larges: BinaryHeap<Reverse<(u128, usize)>>,
}

impl Model for Ranked {
    ghost Value = { RankedUnits };

    ghost view = { λ a. ranked_of a.raw.items a.large.items a.offset };

    ghost invariant = { λ a. IsKept a.raw.items a.large.items a.offset
        (heap_items a.smalls) (heap_items a.larges)
        (heap_capacity a.smalls) (heap_capacity a.larges) };
}

impl Ranked {
    /// The units with these numerators, of which none is large.
    pub(crate) fn all_small(alloc: Global, numer: &[u128]) -> Result<Ranked, NoMemory>
        ensures numer { IfOk result (λ ranked. ranked.numer ≡ numer.now) }
        ensures paired { IfOk result (λ ranked. length ranked.large ≡ length ranked.numer) }
        ensures none { IfOk result (λ ranked. large_count ranked ≡ 0) }
        ensures lowered { IfOk result (λ ranked. ranked.lowered ≡ 0) }
    {
        let units = numer.len();
        let raw = Vec::from_slice(alloc, numer)?;
        let mut large = Vec::with_capacity(alloc, units)?;
        let mut smalls = BinaryHeap::with_capacity(alloc, units)?;
        let larges = BinaryHeap::with_capacity(alloc, units)?;
        for unit in 0..units {
            large.push(false)?;
            smalls.push((numer[unit], unit))?;
        }
        Ok(Ranked {
            raw,
            large,
            offset: 0,
            smalls,
            larges,
        })
    }

    /// The numerator of a unit.
    pub(crate) fn numer(&self, unit: usize) -> u128
        requires { unit < length self.now.numer }
        ensures { result ≡ slice_index self.now.numer unit }
    {
        if self.large[unit] {
            self.raw[unit] - self.offset
        } else {
            self.raw[unit]
        }
    }

    /// Whether a unit is large.
    pub(crate) fn is_large(&self, unit: usize) -> bool
        requires { unit < length self.now.large }
        ensures { result ≡ is_in self.now.large unit }
    {
        self.large[unit]
    }

    /// The unit that counts as the largest of the small ones.
    fn most_small(&self) -> Option<usize>
        ensures most { IfSome result (λ unit. IsMostSmall self.now unit) }
        ensures none { IfNone result ((unit : ℕ)
            → unit < length self.now.numer → is_in self.now.large unit ≡ true) }
    {
        match self.smalls.peek() {
            Some(&(_, unit)) => Some(unit),
            None => None,
        }
    }

    /// The unit that counts as the least of the large ones.
    fn least_large(&self) -> Option<usize>
        ensures least { IfSome result (λ unit. IsLeastLarge self.now unit) }
        ensures none { IfNone result ((unit : ℕ)
            → unit < length self.now.numer → is_in self.now.large unit ≡ false) }
    {
        match self.larges.peek() {
            Some(&Reverse((_, unit))) => Some(unit),
            None => None,
        }
    }

    /// The largest numerator of a small unit, or 0.
    fn largest_small_numer(&self) -> u128
        ensures { result ≡ largest_small self.now }
    {
        match self.most_small() {
            Some(unit) => self.numer(unit),
            None => 0,
        }
    }

    /// The least numerator of a large unit, or a bound.
    fn least_large_numer(&self, bound: u128) -> u128
        ensures { result ≡ least_large bound self.now }
    {
        match self.least_large() {
            Some(unit) => self.numer(unit).min(bound),
            None => bound,
        }
    }

    /// By how much a step lowers the large units: the lesser of what the largest small one lacks to 1, and the least large one.
    pub(crate) fn lambda(&self, den: u128) -> u128
        requires cut { IsCut den self.now }
        requires state { IsSupport (length self.now.numer) (shares_over den self.now) }
        ensures { result ≡ lambda (shares_over den self.now) }
    {
        (den - self.largest_small_numer()).min(self.least_large_numer(den))
    }

    /// Whether each value is 0 or 1.
    pub(crate) fn is_settled(&self, den: u128) -> bool
        requires cut { IsCut den self.now }
        requires state { IsSupport (length self.now.numer) (shares_over den self.now) }
        ensures { result ≡ is_settled (shares_over den self.now) }
    {
        self.largest_small_numer() == 0 && self.least_large_numer(den) == den
    }

    /// Whether some small unit counts as larger than some large one.
    fn is_mixed(&self) -> bool
        ensures mixed { OnTrue result (IsMixed self.now) }
        ensures parted { OnFalse result (IsParted self.now) }
    {
        let Some(small) = self.most_small() else {
            return false;
        };
        let Some(large) = self.least_large() else {
            return false;
        };
        (self.numer(large), large) < (self.numer(small), small)
    }

    /// Makes the largest small unit a large one. Answers which it is.
    fn promote(&mut self) -> usize
        requires some { large_count self.old < length self.old.numer }
        requires narrow { (unit : ℕ) → slice_index self.old.numer unit < wide_limit }
        ensures most { IsMostSmall self.old result }
        ensures placed { self.new ≡ placed self.old result true }
    {
        let Some((numer, unit)) = self.smalls.pop() else {
            unreachable!()
        };
        let raw = numer + self.offset;
        self.raw[unit] = raw;
        self.large[unit] = true;
        let _ = self.larges.push(Reverse((raw, unit)));
        unit
    }

    /// Makes the least large unit a small one. Answers which it is.
    fn demote(&mut self) -> usize
        requires some { 1 ≤ large_count self.old }
        ensures least { IsLeastLarge self.old result }
        ensures placed { self.new ≡ placed self.old result false }
    {
        let Some(Reverse((raw, unit))) = self.larges.pop() else {
            unreachable!()
        };
        let numer = raw - self.offset;
        self.raw[unit] = numer;
        self.large[unit] = false;
        let _ = self.smalls.push((numer, unit));
        unit
    }

    /// Makes the largest units large, so many of them.
    pub(crate) fn take_largest(&mut self, count: usize)
        requires paired { length self.old.large ≡ length self.old.numer }
        requires none { large_count self.old ≡ 0 }
        requires within { count ≤ length self.old.numer }
        requires narrow { (unit : ℕ) → slice_index self.old.numer unit < wide_limit }
        ensures numer { self.new.numer ≡ self.old.numer }
        ensures lowered { self.new.lowered ≡ self.old.lowered }
        ensures paired { length self.new.large ≡ length self.new.numer }
        ensures count { large_count self.new ≡ count }
        ensures parted { IsParted self.new }
    {
        for _i in 0..count {
            self.promote();
        }
    }

    /// Exchanges units until each large one counts as larger than each small one.
    pub(crate) fn part(&mut self)
        requires paired { length self.old.large ≡ length self.old.numer }
        requires narrow { (unit : ℕ) → slice_index self.old.numer unit < wide_limit }
        ensures numer { self.new.numer ≡ self.old.numer }
        ensures lowered { self.new.lowered ≡ self.old.lowered }
        ensures paired { length self.new.large ≡ length self.new.numer }
        ensures count { large_count self.new ≡ large_count self.old }
        ensures parted { IsParted self.new }
    {
        while self.is_mixed() {
            self.promote();
            self.demote();
        }
    }

    /// Lowers all large units.
    pub(crate) fn lower(&mut self, by: u128)
        requires low { self.old.lowered + by < wide_limit }
        requires above { (unit : ℕ) → unit < length self.old.numer
            → is_in self.old.large unit ≡ true → by ≤ slice_index self.old.numer unit }
        ensures { self.new ≡ lowered_by self.old by }
    {
        self.offset += by;
    }
}
