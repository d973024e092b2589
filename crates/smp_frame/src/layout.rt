//! Where the asked columns stand in the rows of a frame.

ghost use Rattle.std.specs.Prelude.{◌≡◌, [], map};
ghost use Rattle.csv.specs.Records.{fields_of};
ghost use Rattle.smp_frame.specs.Layouts;
ghost use Rattle.smp_frac.specs.Memory.{Gives, Reads};
ghost use Rattle.smp_frame.specs.Faults.{is_memory};

use crate::records::field;
use crate::{Columns, FrameFault};
use csv::ByteRecord;
use smp_frac::{Items, NoMemory, Text};
use std::alloc::Global;

/// An asked column.
#[derive(Drop)]
pub(crate) struct Column {
    pub name: Text,
    /// The place of its field in each row, counted from 0.
    pub place: usize,
}

/// How many fields each row has, and the asked columns.
#[derive(Drop)]
pub(crate) struct Layout {
    pub width: usize,
    pub id: Column,
    pub stratum: Option<Column>,
    pub psu: Option<Column>,
    pub size: Option<Column>,
    pub second_size: Option<Column>,
    pub prob: Option<Column>,
    pub balance: Items<Column>,
    pub near: Items<Column>,
}

/// Looks for the asked columns in a header.
#[tactic(auto, unfolding(crate::specs::Layouts::layout_of))]
pub(crate) fn layout_of(
    alloc: Global,
    columns: &Columns,
    header: &ByteRecord,
) -> Result<Layout, FrameFault>
    ensures { Reads is_memory result (Layouts.layout_of columns.now (fields_of header.now)) }
{
    Ok(Layout {
        width: header.len(),
        id: column_in(alloc, header, &columns.id)?,
        stratum: asked_in(alloc, header, &columns.stratum)?,
        psu: asked_in(alloc, header, &columns.psu)?,
        size: asked_in(alloc, header, &columns.size)?,
        second_size: asked_in(alloc, header, &columns.second_size)?,
        prob: asked_in(alloc, header, &columns.prob)?,
        balance: columns_in(alloc, header, columns.balance.as_slice())?,
        near: columns_in(alloc, header, columns.near.as_slice())?,
    })
}

#[tactic(auto, using(crate::proofs::RecordFields::drop_field))]
fn column_in(alloc: Global, header: &ByteRecord, name: &Text) -> Result<Column, FrameFault>
    ensures { Reads is_memory result (Layouts.column_in (fields_of header.now) name.now) }
{
    let mut found = None;
    for place in 0..header.len() {
        if field(header, place) == name.as_str().as_bytes() {
            if found.is_some() {
                return Err(FrameFault::RepeatedColumn {
                    name: name.copy(alloc)?,
                });
            }
            found = Some(place);
        }
    }
    let name = name.copy(alloc)?;
    match found {
        Some(place) => Ok(Column { name, place }),
        None => Err(FrameFault::MissingColumn { name }),
    }
}

fn asked_in(
    alloc: Global,
    header: &ByteRecord,
    name: &Option<Text>,
) -> Result<Option<Column>, FrameFault>
    ensures { Reads is_memory result (Layouts.asked_in (fields_of header.now) name.now) }
{
    match name {
        Some(name) => Ok(Some(column_in(alloc, header, name)?)),
        None => Ok(None),
    }
}

fn columns_in(
    alloc: Global,
    header: &ByteRecord,
    names: &[Text],
) -> Result<Items<Column>, FrameFault>
    ensures { Reads is_memory result (Layouts.columns_in (fields_of header.now) names.now) }
{
    let mut items = Vec::new(alloc);
    for name in names {
        items.push(column_in(alloc, header, name)?)?;
    }
    Ok(Items::from_vec(items))
}
