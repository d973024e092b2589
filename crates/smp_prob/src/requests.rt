ghost use Rattle.std.specs.Prelude.{◌≡◌, ℕ, ◌≤◌, ◌<◌, length, slice_index, position, nat_eq, IfOk};
ghost use Rattle.smp_frac.specs.{Exact.{fraction}, Fractions.{Same, over}};
ghost use Rattle.smp_prob.specs.Inclusions.{Rises};

use crate::{Inclusion, Places, Shapes};
use smp_frac::{Frac, NoMemory, gcd};
use smp_places::numbers_below;
use std::alloc::Global;

/// Requested inclusion probabilities: which units are certain, and which are free.
///
/// The i-th free unit is selected with the probability `shape[i] * r / total`, in proportion to its shape. Where the
/// probabilities of the free units have a whole sum, [`requested`](crate::requested) and [`given`](crate::given) set
/// `r` to it, and `total` to the sum of the shapes. Where the sum isn't whole, `given` sets `total` to the least common
/// multiple of the denominators, and `r` to the greatest common divisor of the numerators over it.
#[derive(Debug, Drop)]
pub struct Request {
    /// The units that are taken for sure.
    pub certain: Places,
    /// The units with a probability strictly between 0 and 1, in order.
    pub free: Places,
    /// A number for each free unit.
    pub shape: Shapes,
    /// How many draws the free units share, where the shapes add up to the total; 0 where no unit is free.
    pub r: u32,
    /// What `shape * r` is out of; 0 where no unit is free.
    pub total: u64,
}

impl Request {
    ghost use Rattle.std.specs.Prelude.{◌≡◌, EachIndex, slice_index};
    ghost use Rattle.smp_prob.specs.{Requests.{IsRequest, all_free}, Inclusions.{IsRising, inclusion, free_fraction, asked_fraction}};
    ghost use Rattle.smp_prob.specs.Shares.{common_divisor, common_denominator, draws_of, numerators};

    /// The request in which every unit is free: unit i is selected with the probability `shapes[i] * r / total`. The
    /// number of units that are selected needn't be whole.
    pub fn all_free(alloc: Global, shapes: &[u32], r: u32, total: u64) -> Result<Request, NoMemory>
        requires { IsRequest (all_free shapes.now r total) }
        ensures value { IfOk result (λ request. request ≡ all_free shapes.now r total) }
        ensures request { IfOk result IsRequest }
    {
        Ok(Request {
            certain: Places::from_vec(Vec::new(alloc)),
            free: Places::from_vec(numbers_below(alloc, shapes.len())?),
            shape: Shapes::from_slice(alloc, shapes)?,
            r,
            total,
        })
    }

    /// How many of the free units are drawn, where the shapes add up to the total: none where none is free.
    pub fn draws(&self) -> u32
        ensures { result ≡ draws_of self.now }
    {
        if self.free.as_slice().is_empty() {
            return 0;
        }
        self.r
    }

    // The divisor that brings r / total to lowest terms.
    fn common_divisor(&self) -> u128
        ensures { result ≡ common_divisor self.now }
    {
        gcd(self.total as u128, self.r as u128)
    }

    /// The denominator of all probabilities of the free units, in lowest terms of `r / total`; 1 where no unit is free.
    #[tactic(auto, using(crate::proofs::Fractions::common_divisor_positive))]
    pub fn common_denominator(&self) -> u64
        requires { IsRequest self.now }
        ensures value { result ≡ common_denominator self.now }
        ensures probabilities { EachIndex self.now.free (λ place.
            Same (over (slice_index (numerators self.now) place) result)
            (free_fraction self.now place)) }
    {
        if self.free.as_slice().is_empty() {
            return 1;
        }
        (self.total as u128 / self.common_divisor()) as u64
    }

    /// The numerators of the free units' probabilities, in order, over the common denominator.
    #[tactic(auto, using(crate::proofs::Fractions::common_divisor_positive))]
    pub fn numerators(&self, alloc: Global) -> Result<Vec<u128>, NoMemory>
        requires { IsRequest self.now }
        ensures value { IfOk result (λ list. list.items ≡ numerators self.now) }
        ensures probabilities { IfOk result (λ list. EachIndex self.now.free (λ place.
            Same (over (slice_index list.items place) (common_denominator self.now))
            (free_fraction self.now place))) }
    {
        if self.free.as_slice().is_empty() {
            return Ok(Vec::new(alloc));
        }
        let factor = self.r as u128 / self.common_divisor();
        let mut list = Vec::with_capacity(alloc, self.shape.as_slice().len())?;
        for &shape in self.shape.as_slice() {
            list.push(shape as u128 * factor)?;
        }
        Ok(list)
    }

    /// Where a unit stands: it is certain, a free unit, or never selected. It takes time logarithmic in their number.
    pub fn inclusion(&self, unit: usize) -> Inclusion
        requires { IsRising self.now }
        ensures { result ≡ inclusion self.now unit }
    {
        if place_of(self.certain.as_slice(), unit).is_some() {
            return Inclusion::Certain;
        }
        match place_of(self.free.as_slice(), unit) {
            Some(place) => Inclusion::Free(place),
            None => Inclusion::Never,
        }
    }

    /// The probability of a unit, in lowest terms: 1 where it is certain, `shape * r / total` where it is free, else 0.
    pub fn asked(&self, unit: usize) -> Frac
        requires request { IsRequest self.now }
        requires ordered { IsRising self.now }
        ensures { Same (fraction result) (asked_fraction self.now unit) }
    {
        match self.inclusion(unit) {
            Inclusion::Certain => Frac::over(1, 1),
            Inclusion::Free(place) => {
                let shape = self.shape.as_slice()[place] as u128;
                Frac::over(shape * self.r as u128, self.total as u128)
            }
            Inclusion::Never => Frac::over(0, 1),
        }
    }
}

// The place of a unit in a list of units that rises. It takes time logarithmic in how many units the list passes over.
fn place_of(units: &[usize], unit: usize) -> Option<usize>
    requires { Rises units.now }
    ensures { result ≡ position (nat_eq unit) units.now }
{
    let (mut low, mut high) = places_near(units, unit);
    while low < high {
        let middle = low + (high - low) / 2;
        let found = units[middle];
        if found == unit {
            return Some(middle);
        }
        if found < unit {
            low = middle + 1;
        } else {
            high = middle;
        }
    }
    None
}

// The first place where a unit of a list that rises may stand, and the place behind the last: it stands at its own number, or before
// that by one place for each unit that the list passes over.
fn places_near(units: &[usize], unit: usize) -> (usize, usize)
    requires { Rises units.now }
    ensures within { result.1 ≤ length units.now }
    ensures all { (place : ℕ) → place < length units.now → slice_index units.now place ≡ unit
        → (result.0 ≤ place) × (place < result.1) }
{
    match units.last() {
        Some(last) => {
            let passed = last.saturating_sub(units.len() - 1);
            let behind = unit.saturating_add(1);
            (unit.saturating_sub(passed), units.len().min(behind))
        }
        None => (0, 0),
    }
}
