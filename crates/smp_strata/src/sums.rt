//! Sums over the rows of a first stage unit.

ghost use Rattle.std.specs.Prelude.{◌≡◌, ◌*◌, ◌+◌, ◌-◌, ◌<◌, ◌≤◌, ℕ, IfOk, false, length, nat_abs, nat_le};
ghost use Rattle.smp_frac.specs.Limits.{number_limit};
ghost use Rattle.smp_frame.specs.Bounds.{HaveBalance, IsFrame};
ghost use Rattle.smp_strata.specs.{Kept.Layouts.{AreRows}, Rows.{is_large, size_of, value_of, values_of}};

use smp_frac::{NUMBER_LIMIT, NoMemory};
use smp_frame::Unit;
use std::alloc::Global;

/// The sum of the sizes of some rows.
pub(crate) fn size_of(units: &[Unit], rows: &[usize]) -> u64
    requires frame { IsFrame units.now }
    requires rows { AreRows (length units.now) rows.now }
    ensures { result ≡ size_of units.now rows.now }
{
    let mut sum = 0;
    for &row in rows {
        sum += units[row].size as u64;
    }
    sum
}

// The sum of a column of balancing values of some rows.
fn value_of(units: &[Unit], columns: usize, rows: &[usize], column: usize) -> i64
    requires frame { IsFrame units.now }
    requires balance { HaveBalance columns units.now }
    requires column { column < columns }
    requires rows { AreRows (length units.now) rows.now }
    ensures { result ≡ value_of units.now rows.now column }
{
    let mut sum = 0;
    for &row in rows {
        sum += units[row].balance.as_slice()[column] as i64;
    }
    sum
}

// Whether the absolute value of a sum is above the limit.
fn is_above(value: i64) -> bool
    ensures { result ≡ nat_le number_limit (nat_abs value) }
{
    value.unsigned_abs() >= NUMBER_LIMIT as u64
}

/// Whether a sum of sizes, or the absolute value of a sum of balancing values, is above the limit.
pub(crate) fn is_large(units: &[Unit], columns: usize, rows: &[usize]) -> bool
    requires frame { IsFrame units.now }
    requires balance { HaveBalance columns units.now }
    requires rows { AreRows (length units.now) rows.now }
    ensures { result ≡ is_large units.now columns rows.now }
{
    if size_of(units, rows) >= NUMBER_LIMIT as u64 {
        return true;
    }
    for column in 0..columns {
        if is_above(value_of(units, columns, rows, column)) {
            return true;
        }
    }
    false
}

/// The sums of the columns of balancing values of some rows.
pub(crate) fn values_of(
    alloc: Global,
    units: &[Unit],
    columns: usize,
    rows: &[usize],
) -> Result<Vec<i32>, NoMemory>
    requires frame { IsFrame units.now }
    requires balance { HaveBalance columns units.now }
    requires rows { AreRows (length units.now) rows.now }
    requires small { is_large units.now columns rows.now ≡ false }
    ensures { IfOk result (λ values. values.items ≡ values_of units.now columns rows.now) }
{
    let mut values = Vec::with_capacity(alloc, columns)?;
    for column in 0..columns {
        values.push(value_of(units, columns, rows, column) as i32)?;
    }
    Ok(values)
}
