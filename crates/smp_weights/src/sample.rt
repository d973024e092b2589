ghost use Rattle.std.specs.Prelude.{◌≡◌, ◌≤◌, [], None, Some, length, IfOk, OnErr, OnOk};
ghost use Rattle.smp_frac.specs.Exact.{fraction};
ghost use Rattle.smp_weights.specs.{Chosen.{ChosenArePositive}, Rows.{AddsRow}, Sample.{sample_row, sample_file, sample_text}};

use crate::CsvRows;
use crate::weights::weight_of;
use smp_frac::{Bytes, Frac, NoMemory, Text};
use std::alloc::Global;

/// The rows of a sample file of no units: its header `id,weight`.
pub fn sample_rows(alloc: Global) -> Result<CsvRows, NoMemory>
    ensures { IfOk result (λ rows. rows ≡ Some (sample_file [])) }
{
    let mut rows = CsvRows::new(alloc);
    rows.push(&[b"id", b"weight"])?;
    Ok(rows)
}

/// Writes the row of a unit: its id, and its design weight, the inverse of the inclusion probability asked for it
/// (Tillé 2006), as a fraction in lowest terms.
///
/// After want of memory nothing is told of the rows any more.
pub fn push_sample_row(rows: &mut CsvRows, id: &Text, asked: Frac) -> Result<(), NoMemory>
    requires { 1 ≤ asked.num }
    ensures ok { OnOk result (AddsRow rows.old rows.new (sample_row id.now (fraction asked))) }
    ensures err { OnErr result (rows.new ≡ None) }
{
    let weight = weight_of(asked).text();
    rows.push(&[id.as_str().as_bytes(), weight.as_slice()])
}

/// The sample file: CSV with the header `id,weight`, then a row for each chosen unit, in order, with its id and its
/// design weight.
pub fn sample_bytes(
    alloc: Global,
    ids: &[Text],
    asked: &[Frac],
    chosen: &[bool],
) -> Result<Bytes, NoMemory>
    requires asked { length asked.now ≡ length ids.now }
    requires chosen { length chosen.now ≡ length ids.now }
    requires positive { ChosenArePositive asked.now chosen.now }
    ensures { IfOk result (λ text. text ≡ sample_text ids.now asked.now chosen.now) }
{
    let mut rows = sample_rows(alloc)?;
    for (place, id) in ids.iter().enumerate() {
        if chosen[place] {
            push_sample_row(&mut rows, id, asked[place])?;
        }
    }
    rows.into_bytes()
}
