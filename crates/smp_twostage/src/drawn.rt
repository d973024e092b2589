//! What the report tells of the units that were drawn.

ghost use Rattle.std.specs.Prelude.{◌≡◌, ◌++◌, ◌<◌, [], IfOk, OnOk, length, slice_index_or, string_bytes};
ghost use Rattle.smp_kernel.specs.Vectors.{entry};
ghost use Rattle.smp_twostage.specs.DrawnLines as Lines;
ghost use Rattle.smp_twostage.specs.DrawnLines.{AreTold, balance_line, drawn_lines, column_of, drawn_view};
ghost use Rattle.smp_twostage.specs.DrawnLines.{estimate_text, known_total, left_line};

use smp_frac::{Frac, NoMemory, Signed, Wide};
use smp_weights::estimate;
use std::alloc::{AllocError, Global};

/// What was drawn of a stratum, or of all strata together.
#[derive(Drop)]
pub struct DrawnUnits<'a> {
    /// The number of the stratum, from 1; 1 where all strata are drawn together.
    pub number: usize,
    /// How many units were undecided where the landing began.
    pub left: u32,
    /// How many balancing columns there are.
    pub columns: usize,
    /// The balancing values of each unit, in frame order.
    pub values: &'a [&'a [i32]],
    /// The probability that is asked for each unit.
    pub asked: &'a [Frac],
    /// Whether each unit was drawn.
    pub chosen: &'a [bool],
}

/// The lines of the report: `left H L`, with L the number of units that were undecided where the landing began, and then for each
/// balancing column `balance H J E T`: E is the weighted total of the drawn units, a fraction, or `wide` where it needs a number of
/// 2^126 or more; and T the sum over the units that can be selected. H is the number that is told, and J is counted from 1. Each line
/// ends with a line feed.
///
/// Where there is too little memory, the answer is [`NoMemory`], the only error.
pub fn drawn_lines(alloc: Global, drawn: &DrawnUnits) -> Result<String, NoMemory>
    requires { AreTold (drawn_view drawn.now) }
    ensures { IfOk result (λ text. string_bytes text ≡ drawn_lines (drawn_view drawn.now)) }
{
    let mut text = left_line(alloc, drawn)?;
    for column in 0..drawn.columns {
        let values = column_of(alloc, drawn, column)?;
        let estimate = estimate(values.as_slice(), drawn.asked, drawn.chosen);
        push_balance_line(alloc, &mut text, drawn, values.as_slice(), column, estimate)?;
    }
    Ok(text)
}

fn left_line(alloc: Global, drawn: &DrawnUnits) -> Result<String, AllocError>
    ensures { IfOk result (λ text. string_bytes text ≡ left_line (drawn_view drawn.now)) }
{
    format!(in alloc; "left {} {}\n", drawn.number, drawn.left)
}

// The values of the units in a column.
fn column_of(alloc: Global, drawn: &DrawnUnits, column: usize) -> Result<Vec<i64>, NoMemory>
    requires told { AreTold (drawn_view drawn.now) }
    requires column { column < drawn.now.columns }
    ensures { IfOk result (λ values. values.items ≡ column_of (drawn_view drawn.now) column) }
{
    let mut values = Vec::with_capacity(alloc, drawn.values.len())?;
    for unit in 0..drawn.values.len() {
        values.push(value_in(drawn, unit, column))?;
    }
    Ok(values)
}

// The value of a unit in a column.
fn value_in(drawn: &DrawnUnits, unit: usize, column: usize) -> i64
    requires told { AreTold (drawn_view drawn.now) }
    requires unit { unit < length drawn.now.values.now }
    requires column { column < drawn.now.columns }
    ensures { result ≡ entry (slice_index_or (drawn_view drawn.now).values unit []) column }
{
    drawn.values[unit][column] as i64
}

// The sum of a column over the units that can be selected.
fn known_total(drawn: &DrawnUnits, values: &[i64], column: usize) -> i64
    requires told { AreTold (drawn_view drawn.now) }
    requires column { column < drawn.now.columns }
    requires values { values.now ≡ column_of (drawn_view drawn.now) column }
    ensures { result ≡ known_total (drawn_view drawn.now) column }
{
    let mut total = 0;
    for unit in 0..values.len() {
        if drawn.asked[unit].num() != 0 {
            total += values[unit];
        }
    }
    total
}

fn push_balance_line(
    alloc: Global,
    text: &mut String,
    drawn: &DrawnUnits,
    values: &[i64],
    column: usize,
    estimate: Result<Signed, Wide>,
) -> Result<(), AllocError>
    requires told { AreTold (drawn_view drawn.now) }
    requires column { column < drawn.now.columns }
    requires values { values.now ≡ column_of (drawn_view drawn.now) column }
    requires estimate { estimate ≡ Lines.column_estimate (drawn_view drawn.now) column }
    ensures { OnOk result (string_bytes text.new
        ≡ string_bytes text.old ++ balance_line (drawn_view drawn.now) column) }
{
    let estimate = estimate_text(alloc, estimate)?;
    let known = known_total(drawn, values, column);
    let number = drawn.number;
    write!(text, "balance {number} {} {estimate} {known}\n", column + 1)
}

// A fraction, with a minus where it is below zero, or `wide`.
fn estimate_text(alloc: Global, estimate: Result<Signed, Wide>) -> Result<String, AllocError>
    ensures { IfOk result (λ text. string_bytes text ≡ estimate_text estimate) }
{
    match estimate {
        Ok(total) => {
            let num = total.size.num();
            let den = total.size.den();
            if total.minus {
                format!(in alloc; "-{num}/{den}")
            } else {
                format!(in alloc; "{num}/{den}")
            }
        }
        Err(Wide) => format!(in alloc; "wide"),
    }
}
