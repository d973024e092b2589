//! The units of the rows of a frame.

ghost use Rattle.std.specs.{Prelude.{◌≡◌, ◌++◌, ◌∷◌, [], ◌<◌, ◌≤◌, IfOk, length, map, not, true, string_bytes}, List.{list_any}};
ghost use Rattle.std.specs.Str.{bytes_eq};
ghost use Rattle.csv.specs.Records.{fields_of};
ghost use Rattle.smp_frame.specs.Frames;
ghost use Rattle.smp_frame.specs.{Frames.{units_from}, Kept.Readers.{IsReading, rows_left}, Kept.Ids.{named, with_id}, Faults.{is_memory}};
ghost use Rattle.smp_frame.specs.Records;
ghost use Rattle.smp_frac.specs.Memory.{Gives};

use crate::fields::{prob_in, size_in, text_in, values_in};
use crate::layout::Layout;
use crate::records::{is_text, next_record, text};
use crate::{FrameFault, Unit};
use csv::{ByteRecord, Reader};
use indexmap::IndexSet;
use smp_frac::{MOST_ROWS, NoMemory, Text};
use std::alloc::Global;

/// The units of the rows that a reader has left, of which the first is row 1.
pub(crate) fn units_left(
    alloc: Global,
    layout: &Layout,
    reader: &mut Reader<&[u8]>,
) -> Result<Vec<Unit>, FrameFault>
    requires { IsReading reader.old }
    ensures { Gives is_memory (λ units. units.items) result
        (units_from layout.now 1 [] (rows_left reader.old)) }
{
    let mut row = ByteRecord::new(alloc);
    let mut seen = IndexSet::new(alloc);
    let mut units = Vec::new(alloc);
    add_units(alloc, layout, reader, &mut row, &mut seen, &mut units)?;
    name_units(&mut units, seen);
    Ok(units)
}

// Adds the unit of each row that a reader has left, without its id, which is among those that were seen.
fn add_units(
    alloc: Global,
    layout: &Layout,
    reader: &mut Reader<&[u8]>,
    row: &mut ByteRecord,
    seen: &mut IndexSet<String>,
    units: &mut Vec<Unit>,
) -> Result<(), FrameFault>
    requires reading { IsReading reader.old }
    requires unseen { seen.old.keys ≡ [] }
    requires none { units.old.items ≡ [] }
    ensures gives { Gives is_memory
        (λ _. named units.new.items (map string_bytes seen.new.keys)) result
        (units_from layout.now 1 [] (rows_left reader.old)) }
    ensures paired { IfOk result
        (λ _. length units.new.items ≡ length (map string_bytes seen.new.keys)) }
{
    for number in 1..=MOST_ROWS as u64 {
        if !next_record(reader, row)? {
            return Ok(());
        }
        let unit = unit_of(alloc, layout, number, seen, row)?;
        units.push(unit)?;
    }
    if next_record(reader, row)? {
        return Err(FrameFault::TooManyRows);
    }
    Ok(())
}

// The unit of a row with this number, without its id, which is then the last of those that were seen.
#[tactic(auto, unfolding(crate::specs::Frames::unit_of))]
fn unit_of(
    alloc: Global,
    layout: &Layout,
    number: u64,
    seen: &mut IndexSet<String>,
    row: &ByteRecord,
) -> Result<Unit, FrameFault>
    ensures reads { Gives is_memory
        (with_id (Records.field (fields_of row.now) layout.now.id.place)) result
        (Frames.unit_of layout.now number (map string_bytes seen.old.keys) (fields_of row.now)) }
    ensures seen { IfOk result
        (λ _. map string_bytes seen.new.keys ≡ map string_bytes seen.old.keys
        ++ Records.field (fields_of row.now) layout.now.id.place ∷ []) }
{
    if row.len() != layout.width {
        return Err(FrameFault::RowLength { row: number });
    }
    if !is_text(row) {
        return Err(FrameFault::NotText { row: number });
    }
    if !is_new(alloc, seen, text(row, layout.id.place))? {
        return Err(FrameFault::RepeatedId { row: number });
    }
    let size = size_in(alloc, number, row, &layout.size)?;
    let second_size = size_in(alloc, number, row, &layout.second_size)?;
    let prob = prob_in(alloc, number, row, &layout.prob)?;
    let balance = values_in(alloc, number, row, layout.balance.as_slice())?;
    let point = values_in(alloc, number, row, layout.near.as_slice())?;
    Ok(Unit {
        id: Text::empty(alloc),
        stratum: text_in(alloc, row, &layout.stratum)?,
        psu: text_in(alloc, row, &layout.psu)?,
        size,
        second_size,
        prob,
        balance,
        point,
    })
}

// Adds an id, and says whether it is new.
fn is_new(alloc: Global, seen: &mut IndexSet<String>, id: &str) -> Result<bool, NoMemory>
    ensures new { IfOk result (λ new.
        new ≡ not (list_any (bytes_eq id.now) (map string_bytes seen.old.keys))) }
    ensures added { IfOk result (λ new. new ≡ true
        → map string_bytes seen.new.keys ≡ map string_bytes seen.old.keys ++ id.now ∷ []) }
{
    let id = String::from_str(alloc, id)?;
    Ok(seen.insert(id)?)
}

// Gives each unit its id: the ids that were seen are moved, and not copied.
fn name_units(units: &mut Vec<Unit>, seen: IndexSet<String>)
    requires { length units.old.items ≡ length (map string_bytes seen.keys) }
    ensures { units.new.items ≡ named units.old.items (map string_bytes seen.keys) }
{
    let mut place = 0;
    for id in seen {
        units[place].id = Text::from_string(id);
        place += 1;
    }
}
