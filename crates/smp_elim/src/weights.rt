//! The weights of the units that may be taken out.
//!
//! Each unit that isn't certain has the same weight, which falls from step to step. So there is a place for each unit, and what
//! a step sets are the places of those units alone that it makes uncertain.

ghost use Rattle.std.specs.{Prelude.{◌≡◌, ◌≢◌, ℕ, ◌-◌, ◌^◌, ◌<◌, ◌≤◌, length, slice_index, sum, EachIndex}, List.{range_with_len, sum_by}};
ghost use Rattle.smp_frac.specs.Limits.{most_rows};
ghost use Rattle.smp_elim.specs.{Kept.Cuts.{InFallingOrder, IsCutAt}, Kept.Weights.{IsReady, fresh_amount}};

use crate::cuts::{Cut, cut_below};
use smp_places::Amounts;

/// Counts the units at some places of the order among those of the common weight, and takes the amounts of their own from them.
pub(crate) fn settle(
    common: &mut Amounts,
    fresh: &mut Amounts,
    order: &[usize],
    from: usize,
    to: usize,
)
    requires paired { length fresh.old ≡ length common.old }
    requires few { length common.old ≤ most_rows }
    requires ones { (unit : ℕ) → unit < length common.old → slice_index common.old unit ≤ 1 }
    requires ordered { from ≤ to }
    requires end { to ≤ length order.now }
    requires within { (place : ℕ) → place < length order.now
        → slice_index order.now place < length common.old }
    ensures common_length { length common.new ≡ length common.old }
    ensures fresh_length { length fresh.new ≡ length common.old }
    ensures counted { (place : ℕ) → from ≤ place → place < to
        → slice_index common.new (slice_index order.now place) ≡ 1 }
    ensures taken { (place : ℕ) → from ≤ place → place < to
        → slice_index fresh.new (slice_index order.now place) ≡ 0 }
    ensures others { (unit : ℕ) → ((place : ℕ) → from ≤ place → place < to
        → slice_index order.now place ≢ unit)
        → (slice_index common.new unit ≡ slice_index common.old unit)
        × (slice_index fresh.new unit ≡ slice_index fresh.old unit) }
{
    for place in from..to {
        let unit = order[place];
        fresh.take_out(unit);
        common.set(unit, 1);
    }
}

/// Sets the amounts of the units that are certain for so many draws, and not for one less.
pub(crate) fn expect(
    fresh: &mut Amounts,
    sizes: &[u32],
    order: &[usize],
    draws: u32,
    now: Cut,
    next: Cut,
)
    requires order { InFallingOrder sizes.now order.now }
    requires positive { EachIndex sizes.now (λ unit. 1 ≤ slice_index sizes.now unit) }
    requires paired { length fresh.old ≡ length sizes.now }
    requires none { (unit : ℕ) → slice_index fresh.old unit ≡ 0 }
    requires some { 2 ≤ draws }
    requires enough { draws ≤ length sizes.now }
    requires now { IsCutAt draws sizes.now now }
    requires next { IsCutAt (draws - 1) sizes.now next }
    requires fewer { next.count ≤ now.count }
    requires narrow { sum_by (fresh_amount sizes.now draws)
        (range_with_len 0 (length sizes.now)) < 2 ^ 63 }
    ensures length { length fresh.new ≡ length sizes.now }
    ensures amounts { (unit : ℕ) → unit < length sizes.now
        → slice_index fresh.new unit ≡ fresh_amount sizes.now draws unit }
{
    let left = draws as u64 - 1 - next.count as u64;
    for place in next.count..now.count {
        let unit = order[place];
        let share = sizes[unit] as u64 * left;
        fresh.set(unit, next.rest - share);
    }
}

/// Makes ready for a step from so many units, where there is one: sets the amounts, and gives the cut for one draw less.
pub(crate) fn prepare(
    fresh: &mut Amounts,
    sizes: &[u32],
    order: &[usize],
    wanted: u32,
    draws: u32,
    now: Cut,
) -> Cut
    requires order { InFallingOrder sizes.now order.now }
    requires positive { EachIndex sizes.now (λ unit. 1 ≤ slice_index sizes.now unit) }
    requires small { sum sizes.now < 2 ^ 49 }
    requires paired { length fresh.old ≡ length sizes.now }
    requires none { (unit : ℕ) → slice_index fresh.old unit ≡ 0 }
    requires some { 1 ≤ length sizes.now → 1 ≤ wanted }
    requires enough { draws ≤ length sizes.now }
    requires now { IsCutAt draws sizes.now now }
    requires narrow { wanted < draws
        → sum_by (fresh_amount sizes.now draws) (range_with_len 0 (length sizes.now)) < 2 ^ 63 }
    ensures length { length fresh.new ≡ length sizes.now }
    ensures ready { wanted < draws → IsReady sizes.now draws now result fresh.new }
{
    if draws <= wanted {
        return now;
    }
    let next = cut_below(sizes, order, draws, now);
    expect(fresh, sizes, order, draws, now, next);
    next
}
