//! Places in the order of their amounts.
#![tactic(auto)]

ghost use Rattle.std.specs.{Prelude.{◌≡◌, ℕ, ◌<◌, ◌≤◌, length, slice_index, IfOk}, List.Sorted.{IsPermutation}};
ghost use Rattle.smp_places.specs.Orders.{InRisingOrder};

use crate::numbers::numbers_below;
use std::alloc::{AllocError, Global};

// The amount at a place, or 0 where there is none.
fn amount_at(amounts: &[u32], place: usize) -> u32
    ensures { result ≡ slice_index amounts.now place }
{
    match amounts.get(place) {
        Some(&amount) => amount,
        None => 0,
    }
}

// Puts places in rising order of their amounts.
fn rank(amounts: &[u32], order: &mut [usize])
    ensures permuted { IsPermutation order.old order.new }
    ensures rises { (a b : ℕ) → a ≤ b → b < length order.new →
        slice_index amounts.now (slice_index order.new a)
        ≤ slice_index amounts.now (slice_index order.new b) }
{
    order.sort_unstable_by_key(|&place| amount_at(amounts, place));
}

/// The places in rising order of their amounts.
pub fn rising_order(alloc: Global, amounts: &[u32]) -> Result<Vec<usize>, AllocError>
    ensures { IfOk result (λ order. InRisingOrder amounts.now order.items) }
{
    let mut order = numbers_below(alloc, amounts.len())?;
    rank(amounts, order.as_mut_slice());
    Ok(order)
}
