//! Whether the numbers of units are so small that no step over them can be wide.

ghost use Rattle.std.specs.Prelude.{◌≡◌, ◌↔◌, ◌<◌, ◌≤◌, IfNone, IfSome, true};
ghost use Rattle.smp_frac.specs.Limits.{most_denominator};
ghost use Rattle.smp_flight.specs.{Kept.Narrow.{IsLeast, IsLimit, IsRowMost}, Narrow.{IsNarrow}, States.{IsUnits, row_count}};

use crate::shapes::Shape;
use crate::steps::GATE;
use smp_frac::lcm_within;

/// The greatest absolute value of an entry of a direction.
const MOST_ENTRY: u128 = 1 << 44;

/// Whether the numbers of the units are so small that no step over them is wide, whatever is drawn and in whichever order is searched.
///
/// It is known before any draw. With the greatest numbers of the rows (of the sizes, and of each balancing value), and at least 1 for
/// each, half of the permutations of the rows times their product is a bound of every minor of the columns. That times the greatest size
/// is at most 2^44, and times the least common multiple of the sizes and of the requested denominator at most 2^80. It is true exactly
/// where some bounds of the rows and some common multiple are within both, since no others are less. Where it is false, as where a
/// balancing value is below 0, a step may be wide, and needn't be.
pub fn is_narrow(shape: &Shape) -> bool
    ensures { result ≡ true ↔ IsNarrow shape.now }
{
    let rows = shape.rows();
    let Some(first) = row_bound(shape, 0) else {
        return false;
    };
    let Some(limit) = limit_of(shape, rows) else {
        return false;
    };
    let Some(multiple) = multiple_of(shape) else {
        return false;
    };
    first as u128 * limit <= MOST_ENTRY && multiple * limit <= GATE
}

/// The greatest number of a row, or 1, and `None` where one is below 0.
fn row_bound(shape: &Shape, row: usize) -> Option<u32>
    requires are { IsUnits shape.now }
    requires row { row < row_count shape.now }
    ensures some { IfSome result (IsRowMost shape.now row) }
    ensures none { IfNone result (¬ (IsNarrow shape.now)) }
{
    let mut most: u32 = 1;
    for unit in 0..shape.requested().len() {
        let number = shape.column(unit)[row];
        if number < 0 {
            return None;
        }
        most = most.max(number.unsigned_abs());
    }
    Some(most)
}

/// No minor passes this, by the greatest numbers of the rows; `None` where one is below 0, or this passes the gate of entries.
fn limit_of(shape: &Shape, rows: usize) -> Option<u128>
    requires are { IsUnits shape.now }
    requires rows { rows ≡ row_count shape.now }
    ensures some { IfSome result (IsLimit shape.now rows) }
    ensures none { IfNone result (¬ (IsNarrow shape.now)) }
{
    let mut limit: u128 = 1;
    for row in 0..rows {
        let places = if row < 2 { 1 } else { row as u128 + 1 };
        let most = row_bound(shape, row)?;
        limit = limit * most as u128 * places;
        if limit > MOST_ENTRY {
            return None;
        }
    }
    Some(limit)
}

/// The least common multiple of the requested denominator and of the sizes, or `None` where it passes the gate of denominators.
fn multiple_of(shape: &Shape) -> Option<u128>
    requires { IsUnits shape.now }
    ensures some { IfSome result (IsLeast shape.now) }
    ensures small { IfSome result (λ multiple. multiple ≤ most_denominator) }
    ensures none { IfNone result (¬ (IsNarrow shape.now)) }
{
    let mut multiple = shape.requested().denominator();
    for unit in 0..shape.requested().len() {
        multiple = lcm_within(multiple, shape.size(unit) as u128, GATE)?;
    }
    Some(multiple)
}
