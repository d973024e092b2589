//! What the library answers.

ghost use Rattle.std.specs.Prelude.{◌≡◌, ◌↔◌, ◌-◌, ◌<◌, ◌≤◌, EachIndex, IfOk, IfSome, length, slice_index, true};
ghost use Rattle.smp_frac.specs.Limits.{number_limit};
ghost use Rattle.smp_prob.specs.Requests.{IsRequest, all_free};
ghost use Rattle.smp_flight.specs.{Narrow.{IsNarrow}, Requests.{AreValues, Within, units_of}};

use smp_flight::{Shape, is_narrow};
use smp_frac::{MOST_ROWS, NUMBER_LIMIT, NoMemory, Numbers};
use smp_prob::Request;
use std::alloc::Global;

/// Whether units with these sizes and balancing values are narrow, where each is drawn with its size over the denominator as its
/// probability; `None` where these are no probabilities, or no values.
pub fn answer(
    alloc: Global,
    sizes: &[u32],
    values: &[Numbers],
    denominator: u64,
) -> Result<Option<bool>, NoMemory>
    ensures { IfOk result (λ answer. IfSome answer (λ is_narrow.
        is_narrow ≡ true ↔ IsNarrow (units_of (all_free sizes.now 1 denominator) values.now))) }
{
    if values.len() != sizes.len() || !is_request(sizes, denominator) || !are_values(values) {
        return Ok(None);
    }
    let request = Request::all_free(alloc, sizes, 1, denominator)?;
    let shape = Shape::new(alloc, &request, values)?;
    Ok(Some(is_narrow(&shape)))
}

// Whether these are sizes of units that are drawn with probabilities between 0 and 1.
fn is_request(sizes: &[u32], denominator: u64) -> bool
    ensures { result ≡ true → IsRequest (all_free sizes.now 1 denominator) }
{
    if sizes.len() > MOST_ROWS as usize || denominator >= 1 << 49 {
        return false;
    }
    are_below(sizes, denominator)
}

// Whether each size is at least 1, below 2^31 and below the denominator.
fn are_below(sizes: &[u32], denominator: u64) -> bool
    ensures { result ≡ true → EachIndex sizes.now (λ i. (1 ≤ slice_index sizes.now i)
        × (slice_index sizes.now i < number_limit) × (slice_index sizes.now i < denominator)) }
{
    sizes.iter().all(|&size| size >= 1 && size < NUMBER_LIMIT && (size as u64) < denominator)
}

// Whether these are balancing values: at most 15 of each unit, and as many of each.
fn are_values(values: &[Numbers]) -> bool
    ensures { result ≡ true → AreValues values.now }
{
    let columns = match values.first() {
        Some(first) => first.as_slice().len(),
        None => 0,
    };
    columns <= 15 && values.iter().all(|own| is_row(own.as_slice(), columns))
}

// Whether these are so many values below 2^31.
fn is_row(own: &[i32], columns: usize) -> bool
    ensures count { result ≡ true → length own.now ≡ columns }
    ensures within { result ≡ true → Within (number_limit - 1) own.now }
{
    own.len() == columns && own.iter().all(|&value| value.unsigned_abs() < NUMBER_LIMIT)
}
