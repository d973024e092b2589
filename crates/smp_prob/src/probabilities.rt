ghost use Rattle.std.specs.Prelude.{◌≡◌, ◌↔◌, ◌+◌, ◌≤◌, ◌<◌, ◌^◌, ℕ, Bool, Err, SomeIff, IfOk, IsOkUnless, All, EachIndex, length, map};
ghost use Rattle.std.specs.Prelude.{sum, slice_index, count_by};
ghost use Rattle.std.specs.List.{range_with_len};
ghost use Rattle.smp_frac.specs.{Fractions.{Same, whole}, Limits.{most_rows}, Exact.{fraction}};
ghost use Rattle.smp_prob.specs.{declared.faults.GivenFault.{GivenFault}, Kept.Numerators.{over_of}, Requests.{IsRequest}};
ghost use Rattle.smp_prob.specs.Given as Given;
ghost use Rattle.smp_prob.specs.Given.{AreGiven, IsLeastMultipleOf, IsWholeNumber, draws, given_fraction, given_of, largest_multiple};
ghost use Rattle.smp_prob.specs.Given.{out_of};
ghost use Rattle.smp_prob.specs.{Shapes.{shape_of}, Inclusions.{AreApart, AreBelow, IsRising, count_taken, asked_fraction}};

use crate::picked::pick;
use crate::shapes::{shape_of, size_divisor, sum_of};
use crate::{GivenFault, Places, Request, Shapes};
use smp_frac::{Frac, NoMemory, lcm_within};
use std::alloc::Global;

// The largest common multiple of the denominators.
const LARGEST_MULTIPLE: u128 = 2_147_483_647;

// The least common multiple of the denominators, or `None` where it passes the limit.
fn common_multiple(probs: &[Frac]) -> Option<u32>
    ensures { SomeIff result
        (Given.common_multiple probs.now ≤ largest_multiple)
        (Given.common_multiple probs.now) }
{
    let mut multiple = 1;
    for prob in probs {
        multiple = lcm_within(multiple, prob.den, LARGEST_MULTIPLE)?;
    }
    Some(multiple as u32)
}

// The numerator of a fraction over a multiple of its denominator.
fn numerator_over(multiple: u32, prob: Frac) -> u32
    requires { prob.num ≤ prob.den }
    ensures value { result ≡ Given.numerator_over multiple prob }
    ensures within { result ≤ multiple }
{
    (prob.num * (multiple as u128 / prob.den)) as u32
}

// The numerators of all fractions over a multiple of their denominators.
fn numerators(alloc: Global, multiple: u32, probs: &[Frac]) -> Result<Vec<u32>, NoMemory>
    requires { All (λ p. p.num ≤ p.den) probs.now }
    ensures { IfOk result (λ list. list.items ≡ map (Given.numerator_over multiple) probs.now) }
{
    let mut list = Vec::with_capacity(alloc, probs.len())?;
    for &prob in probs {
        list.push(numerator_over(multiple, prob))?;
    }
    Ok(list)
}

// How many draws the free units share, and what their shapes are out of.
fn draws_over(den: u32, numerators: &[u32], shape: &[u32]) -> (u32, u64)
    requires some { 1 ≤ den }
    requires few { length numerators.now ≤ most_rows }
    requires positive { EachIndex numerators.now (λ i. 1 ≤ slice_index numerators.now i) }
    requires within { EachIndex numerators.now (λ i.
        slice_index numerators.now i ≤ den) }
    requires small { den ≤ largest_multiple }
    requires shape { shape.now ≡ shape_of numerators.now }
    ensures draws { result.0 ≡ draws den numerators.now }
    ensures out_of { result.1 ≡ out_of den numerators.now }
{
    let sum = sum_of(numerators);
    let rest = sum % den as u64;
    if rest == 0 {
        ((sum / den as u64) as u32, sum_of(shape))
    } else {
        (size_divisor(numerators) as u32, den as u64)
    }
}

// The request for the numerators of all units over a denominator.
fn request_over(alloc: Global, den: u32, numerators: &[u32]) -> Result<Request, NoMemory>
    requires some { 1 ≤ den }
    requires few { length numerators.now ≤ most_rows }
    requires small { den ≤ largest_multiple }
    ensures { IfOk result (λ request. request ≡ over_of den numerators.now) }
{
    let picked = pick(alloc, numerators, den)?;
    let shape = shape_of(alloc, &picked.free_sizes)?;
    let (r, total) = draws_over(den, &picked.free_sizes, &shape);
    Ok(Request {
        certain: Places::from_vec(picked.certain),
        free: Places::from_vec(picked.free),
        shape: Shapes::from_vec(shape),
        r,
        total,
    })
}

/// The request for units whose probabilities are given, and how many of them are expected.
#[derive(Debug, Drop)]
pub struct GivenRequest {
    /// The request.
    pub request: Request,
    /// The sum of the probabilities in lowest terms.
    pub expected: Frac,
}

/// The request for units whose probabilities are given, and their sum in lowest terms.
///
/// The units with the fraction 1 are certain, and those with a fraction strictly between 0 and 1
/// are free. Over the least common multiple of the denominators, the shapes are the numerators of
/// the free units, each divided by their greatest common divisor. Where the free units' fractions
/// have a whole sum, that is `r`, and `total` is the sum of the shapes. Otherwise `total` is the
/// least common multiple, and `r` the greatest common divisor of the numerators.
///
/// `Denominator` comes exactly where the least common multiple passes 2,147,483,647.
pub fn given(alloc: Global, probs: &[Frac]) -> Result<GivenRequest, GivenFault>
    requires { AreGiven probs.now }
    ensures value { IfOk result (λ given. given.request ≡ given_of probs.now) }
    ensures request { IfOk result (λ given. IsRequest given.request) }
    ensures denominator { largest_multiple < Given.common_multiple probs.now
        → result ≡ Err GivenFault.Denominator }
    ensures within { Given.common_multiple probs.now ≤ largest_multiple
        → IsOkUnless result GivenFault.NoMemory }
    ensures multiple { IsLeastMultipleOf probs.now (Given.common_multiple probs.now) }

    // how many units are expected to be selected
    ensures expected { IfOk result (λ given.
        Same (fraction given.expected) (Given.expected_size probs.now)) }
    ensures whole_expected { IfOk result (λ given.
        (given.expected.den ≡ 1) ↔ IsWholeNumber (Given.expected_size probs.now)) }
    // each unit has the probability that is given for it
    ensures probabilities { IfOk result (λ given. EachIndex probs.now (λ unit.
        Same (asked_fraction given.request unit) (given_fraction probs.now unit))) }
    // where the expected size is whole, the certain units and the draws add up to it
    ensures size { IfOk result (λ given. (n : ℕ)
        → Same (Given.expected_size probs.now) (whole n)
        → length given.request.certain + given.request.r ≡ n) }
    // so where r of the free units are selected, that many are selected in all
    ensures drawn { IfOk result (λ given. (n : ℕ)
        → Same (Given.expected_size probs.now) (whole n) → (drawn : ℕ → Bool)
        → count_by drawn (range_with_len 0 (length given.request.free)) ≡ given.request.r
        → count_taken given.request drawn (length probs.now) ≡ n) }
    // it is whole exactly where the shapes add up to the total
    ensures whole { IfOk result (λ given.
        IsWholeNumber (Given.expected_size probs.now)
        ↔ (sum given.request.shape ≡ given.request.total)) }
    ensures ordered { IfOk result (λ given. IsRising given.request) }
    ensures apart { IfOk result (λ given. AreApart given.request) }
    ensures below { IfOk result (λ given. AreBelow (length probs.now) given.request) }
    ensures none_free { IfOk result (λ given. length given.request.free ≡ 0
        → (given.request.r ≡ 0) × (given.request.total ≡ 0)) }
{
    let Some(multiple) = common_multiple(probs) else {
        return Err(GivenFault::Denominator);
    };
    let numerators = numerators(alloc, multiple, probs)?;
    let expected = Frac::over(sum_of(&numerators) as u128, multiple as u128);
    let request = request_over(alloc, multiple, &numerators)?;
    Ok(GivenRequest { request, expected })
}
