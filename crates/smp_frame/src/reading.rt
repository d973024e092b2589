ghost use Rattle.std.specs.Prelude.{◌≡◌, length, IfOk};
ghost use Rattle.smp_frame.specs.{Frames.{frame_of, units_of}, Bounds.{HaveBalance, HavePoints, IsFrame}};
ghost use Rattle.smp_frame.specs.Kept.Readers.{IsReading, rows_left};
ghost use Rattle.smp_frac.specs.Memory.{Reads};
ghost use Rattle.smp_frame.specs.Faults.{is_memory};

use crate::layout::layout_of;
use crate::records::{is_text, next_record, reader_of};
use crate::units::units_left;
use crate::{Columns, Frame, FrameFault};
use csv::{ByteRecord, Reader};
use std::alloc::Global;

/// Reads the asked columns of a frame: a text of CSV, with commas and double quotes, in which a header names the
/// columns and 1 to 200,000 rows follow. Byte order marks in front are dropped.
///
/// A name matches a column of the header by equal bytes. A size is one or more decimal digits with a value up to
/// 2,147,483,647, and a balancing value or coordinate may have a minus in front of those. A probability is `A` or
/// `A/B`, where `A` and `B` are written as sizes are, `B` isn't 0 and `A` is at most `B`; `A` alone is `A/1`. Leading
/// zeros are allowed; blanks, a plus sign, points and exponents aren't.
///
/// The answer is the first fault in this order: [`FrameFault::NoHeader`]; [`FrameFault::NotText`] of the header; each
/// asked column, id, stratum, psu, size, second size, prob, balance and near, with [`FrameFault::MissingColumn`] or
/// [`FrameFault::RepeatedColumn`]; the rows in their order; [`FrameFault::NoRows`]. Within one row it is
/// [`FrameFault::TooManyRows`], [`FrameFault::RowLength`], [`FrameFault::NotText`], [`FrameFault::RepeatedId`], and
/// then each column of numbers, as above, with [`FrameFault::NotNumber`] or [`FrameFault::TooLarge`]. In the column of
/// probabilities it is [`FrameFault::NotFraction`], [`FrameFault::TooLarge`] or [`FrameFault::NotProbability`]. Where
/// memory runs out it is [`FrameFault::NoMemory`].
pub fn read_frame(alloc: Global, bytes: &[u8], columns: &Columns) -> Result<Frame, FrameFault>
    ensures reads { Reads is_memory result (frame_of columns.now bytes.now) }
    ensures bounds { IfOk result IsFrame }
    // a value for each balancing column that is asked for, and one for each column of coordinates
    ensures balance { IfOk result (HaveBalance (length columns.now.balance)) }
    ensures points { IfOk result (HavePoints (length columns.now.near)) }
{
    frame_in(alloc, bytes, columns)
}

#[tactic(auto, unfolding(crate::specs::Frames::frame_of))]
fn frame_in(alloc: Global, bytes: &[u8], columns: &Columns) -> Result<Frame, FrameFault>
    ensures { Reads is_memory result (frame_of columns.now bytes.now) }
{
    let mut reader = reader_of(alloc, bytes);
    let mut header = ByteRecord::new(alloc);
    frame_left(alloc, columns, &mut reader, &mut header)
}

// The frame of the records that a reader has left, of which the first is the header.
fn frame_left(
    alloc: Global,
    columns: &Columns,
    reader: &mut Reader<&[u8]>,
    header: &mut ByteRecord,
) -> Result<Frame, FrameFault>
    requires { IsReading reader.old }
    ensures { Reads is_memory result (units_of columns.now (rows_left reader.old)) }
{
    if !next_record(reader, header)? {
        return Err(FrameFault::NoHeader);
    }
    if !is_text(header) {
        return Err(FrameFault::NotText { row: 0 });
    }
    // The layout is let go before the answer is looked at.
    let units = {
        let layout = layout_of(alloc, columns, header)?;
        units_left(alloc, &layout, reader)
    }?;
    if units.is_empty() {
        return Err(FrameFault::NoRows);
    }
    Ok(Frame::new(units))
}
