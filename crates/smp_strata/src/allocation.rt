//! Proportional allocation: how many first stage units each stratum gets.

ghost use Rattle.std.specs.Prelude.{◌≡◌, ℕ, ◌+◌, ◌-◌, ◌*◌, ◌^◌, ◌<◌, ◌≤◌, List, length, map, nat_eq, nat_le, nat_lt, slice_index, sum};
ghost use Rattle.std.specs.Prelude.{sum_by, count_by, EachIndex, IfOk, OnOk, if◌then◌else◌};
ghost use Rattle.std.specs.{List.{range_with_len}, List.Sorted.{IsPermutation}};
ghost use Rattle.smp_frac.specs.Limits.{most_rows};
ghost use Rattle.smp_prob.specs.Requested.{IsFalling};
ghost use Rattle.smp_strata.specs.Allocations;
ghost use Rattle.smp_strata.specs.{Allocations.{IsAllocation, allocation, comes_before, left_over}, Kept.Keys.{keys}};
ghost use Rattle.smp_strata.specs.Kept.Keys;

use smp_frac::NoMemory;
use std::alloc::Global;

/// What each stratum gets of n units, by the numbers of first stage units of the strata.
pub(crate) fn allocation(alloc: Global, n: u32, counts: &[u32]) -> Result<Vec<u32>, NoMemory>
    requires few { length counts.now ≤ most_rows }
    requires small { n ≤ most_rows }
    requires total { sum counts.now ≤ most_rows }
    requires some { 1 ≤ sum counts.now }
    ensures value { IfOk result (λ sizes. sizes.items ≡ allocation n counts.now) }
    ensures rule { IfOk result (λ sizes. IsAllocation n counts.now sizes.items) }
{
    let sizes = shares(alloc, n, counts)?;
    Ok(sizes)
}

fn shares(alloc: Global, n: u32, counts: &[u32]) -> Result<Vec<u32>, NoMemory>
    requires few { length counts.now ≤ most_rows }
    requires small { n ≤ most_rows }
    requires total { sum counts.now ≤ most_rows }
    requires some { 1 ≤ sum counts.now }
    ensures value { IfOk result (λ sizes. sizes.items ≡ allocation n counts.now) }
    ensures given { OnOk result (sum (allocation n counts.now) ≡ n) }
{
    let all = sum_of(counts);
    let keys = keys(alloc, n, all, counts)?;
    let left = left_over(n, all, counts);
    let border = border(alloc, &keys, left)?;
    let mut sizes = Vec::with_capacity(alloc, counts.len())?;
    for place in 0..counts.len() {
        let more = key(n, all, counts[place], place) >= border;
        sizes.push(share(n, all, counts[place], more))?;
    }
    Ok(sizes)
}

fn sum_of(counts: &[u32]) -> u32
    requires { sum counts.now ≤ most_rows }
    ensures { result ≡ sum counts.now }
{
    counts.iter().map(|&count| count as u64).sum::<u64>() as u32
}

// The whole part of a stratum.
fn whole(n: u32, all: u32, count: u32) -> u32
    requires some { 1 ≤ all }
    requires within { count ≤ all }
    ensures value { result ≡ Allocations.whole n all count }
    ensures within { result ≤ n }
{
    (n as u64 * count as u64 / all as u64) as u32
}

fn share(n: u32, all: u32, count: u32, more: bool) -> u32
    requires some { 1 ≤ all }
    requires within { count ≤ all }
    requires small { n ≤ most_rows }
    ensures { result ≡ Allocations.whole n all count + (if more then 1 else 0) }
{
    if more {
        whole(n, all, count) + 1
    } else {
        whole(n, all, count)
    }
}

// How many units are left over after the whole parts.
fn left_over(n: u32, all: u32, counts: &[u32]) -> u32
    requires few { length counts.now ≤ most_rows }
    requires small { n ≤ most_rows }
    requires total { all ≡ sum counts.now }
    requires some { 1 ≤ all }
    ensures { result ≡ left_over n counts.now }
{
    let mut given = 0;
    for &count in counts {
        given += whole(n, all, count) as u64;
    }
    (n as u64).saturating_sub(given) as u32
}

// A number that is larger for a stratum the earlier it gets one more.
fn key(n: u32, all: u32, count: u32, place: usize) -> u64
    requires some { 1 ≤ all }
    requires small { all ≤ most_rows }
    requires few { place < most_rows }
    ensures value { result ≡ Keys.key n all count place }
    ensures within { result < 2 ^ 40 }
{
    let remainder = n as u64 * count as u64 % all as u64;
    remainder * 200_000 + (199_999 - place as u64)
}

fn keys(alloc: Global, n: u32, all: u32, counts: &[u32]) -> Result<Vec<u64>, NoMemory>
    requires few { length counts.now ≤ most_rows }
    requires some { 1 ≤ all }
    requires small { all ≤ most_rows }
    ensures value { IfOk result (λ list. list.items ≡ Keys.keys n all counts.now) }
{
    let mut list = Vec::with_capacity(alloc, counts.len())?;
    for place in 0..counts.len() {
        list.push(key(n, all, counts[place], place))?;
    }
    Ok(list)
}

// The least key that gets one more, of the `left` largest.
fn border(alloc: Global, keys: &[u64], left: u32) -> Result<u64, NoMemory>
    ensures test { IfOk result (λ border. (v : ℕ) → v < 2 ^ 40
        → nat_le border v ≡ nat_lt (count_by (nat_lt v) keys.now) left) }
    ensures number { IfOk result (λ border. ((v : ℕ) → count_by (nat_eq v) keys.now ≤ 1)
        → 1 ≤ left → left ≤ length keys.now
        → count_by (nat_le border) keys.now ≡ left) }
{
    let mut order = Vec::from_slice(alloc, keys)?;
    order.sort()?;
    order.reverse();
    Ok(border_in(&order, left))
}

fn border_in(falling: &[u64], left: u32) -> u64
    requires { IsFalling falling.now }
    ensures test { (v : ℕ) → v < 2 ^ 40
        → nat_le result v ≡ nat_lt (count_by (nat_lt v) falling.now) left }
    ensures number { ((v : ℕ) → count_by (nat_eq v) falling.now ≤ 1)
        → 1 ≤ left → left ≤ length falling.now
        → count_by (nat_le result) falling.now ≡ left }
{
    if left == 0 {
        return 1 << 40;
    }
    match falling.get(left as usize - 1) {
        Some(&key) => key,
        None => 0,
    }
}
