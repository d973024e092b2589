//! What the fields of a row write.

ghost use Rattle.std.specs.{Prelude.{◌≡◌, ◌<◌, IfOk, true}, List.{list_all}, Str.{is_utf8}};
ghost use Rattle.smp_frac.specs.{Limits.{number_limit}, Decimals.{number_below}, Memory.{Reads}};
ghost use Rattle.csv.specs.Records.{fields_of};
ghost use Rattle.smp_frame.specs.Fields;
ghost use Rattle.smp_frame.specs.Faults.{is_memory};

use crate::layout::Column;
use crate::records::{field, text};
use crate::{FrameFault, Numbers};
use csv::ByteRecord;
use smp_frac::{Frac, NUMBER_LIMIT, NoMemory, Text, cut_before, is_decimal, number};
use std::alloc::Global;

/// The text in an asked column, or the empty text.
pub(crate) fn text_in(
    alloc: Global,
    row: &ByteRecord,
    column: &Option<Column>,
) -> Result<Text, NoMemory>
    requires { list_all is_utf8 (fields_of row.now) ≡ true }
    ensures { IfOk result (λ text. text ≡ Fields.text_in (fields_of row.now) column.now) }
{
    match column {
        Some(column) => Ok(Text::from_str(alloc, text(row, column.place))?),
        None => Ok(Text::empty(alloc)),
    }
}

/// The size in an asked column, or 1. The row has this number.
pub(crate) fn size_in(
    alloc: Global,
    number: u64,
    row: &ByteRecord,
    column: &Option<Column>,
) -> Result<u32, FrameFault>
    ensures { Reads is_memory result (Fields.size_in number (fields_of row.now) column.now) }
{
    match column {
        Some(column) => size_of(alloc, number, &column.name, field(row, column.place)),
        None => Ok(1),
    }
}

/// The probability in an asked column, or 1. The row has this number.
pub(crate) fn prob_in(
    alloc: Global,
    number: u64,
    row: &ByteRecord,
    column: &Option<Column>,
) -> Result<Frac, FrameFault>
    ensures { Reads is_memory result (Fields.prob_in number (fields_of row.now) column.now) }
{
    match column {
        Some(column) => prob_of(alloc, number, &column.name, field(row, column.place)),
        None => Ok(Frac::over(1, 1)),
    }
}

/// The values in asked columns. The row has this number.
#[inline(always)]
pub(crate) fn values_in(
    alloc: Global,
    number: u64,
    row: &ByteRecord,
    columns: &[Column],
) -> Result<Numbers, FrameFault>
    ensures { Reads is_memory result (Fields.values_in number (fields_of row.now) columns.now) }
{
    match columns {
        // Most rows of most frames have none: so nothing is called for them.
        [] => Ok(Numbers::from_vec(Vec::new(alloc))),
        _ => values_of(alloc, number, row, columns),
    }
}

// The same, of columns that there are.
fn values_of(
    alloc: Global,
    number: u64,
    row: &ByteRecord,
    columns: &[Column],
) -> Result<Numbers, FrameFault>
    ensures { Reads is_memory result (Fields.values_in number (fields_of row.now) columns.now) }
{
    let mut values = Vec::with_capacity(alloc, columns.len())?;
    for column in columns {
        values.push(value_of(alloc, number, &column.name, field(row, column.place))?)?;
    }
    Ok(Numbers::from_vec(values))
}

#[tactic(auto, unfolding(crate::specs::Fields::size_of))]
fn size_of(alloc: Global, row: u64, name: &Text, text: &[u8]) -> Result<u32, FrameFault>
    ensures reads { Reads is_memory result (Fields.size_of row name.now text.now) }
    ensures small { IfOk result (λ size. size < number_limit) }
{
    if !is_decimal(text) {
        return Err(FrameFault::NotNumber {
            row,
            column: name.copy(alloc)?,
        });
    }
    match small_number(text) {
        Some(size) => Ok(size as u32),
        None => Err(FrameFault::TooLarge {
            row,
            column: name.copy(alloc)?,
        }),
    }
}

#[tactic(auto, unfolding(crate::specs::Fields::prob_of))]
fn prob_of(alloc: Global, row: u64, name: &Text, text: &[u8]) -> Result<Frac, FrameFault>
    ensures { Reads is_memory result (Fields.prob_of row name.now text.now) }
{
    let (num, den) = sides_of(text);
    if !is_decimal(num) || !is_decimal(den) {
        return Err(FrameFault::NotFraction {
            row,
            column: name.copy(alloc)?,
        });
    }
    let (Some(num), Some(den)) = (small_number(num), small_number(den)) else {
        return Err(FrameFault::TooLarge {
            row,
            column: name.copy(alloc)?,
        });
    };
    if den == 0 || den < num {
        return Err(FrameFault::NotProbability {
            row,
            column: name.copy(alloc)?,
        });
    }
    Ok(Frac::over(num, den))
}

// The texts on both sides of the first slash. A text without a slash stands over 1.
fn sides_of(text: &[u8]) -> (&[u8], &[u8])
    ensures { (result.0.now, result.1.now) ≡ Fields.sides_of text.now }
{
    match cut_before(text, b'/') {
        Some(sides) => sides,
        None => (text, b"1"),
    }
}

// The number that decimal digits write, where it is within the limit.
fn small_number(text: &[u8]) -> Option<u128>
    ensures { result ≡ number_below number_limit text.now }
{
    match number(text) {
        Some(value) if value < NUMBER_LIMIT as u128 => Some(value),
        _ => None,
    }
}

fn value_of(alloc: Global, row: u64, name: &Text, text: &[u8]) -> Result<i32, FrameFault>
    ensures { Reads is_memory result (Fields.field_value row name.now text.now) }
{
    match text {
        [b'-', digits @ ..] => Ok(-(size_of(alloc, row, name, digits)? as i32)),
        _ => Ok(size_of(alloc, row, name, text)? as i32),
    }
}
