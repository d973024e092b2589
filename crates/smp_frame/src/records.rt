//! The records of a text, one after another, and their fields.

ghost use Rattle.std.specs.{Prelude.{◌≡◌, IfOk, true}, List.{list_all}, Str.{is_utf8}};
ghost use Rattle.std.specs.Str;
ghost use Rattle.csv.specs.Records.{fields_of};
ghost use Rattle.smp_frame.specs.{Records.{records_of}, Kept.Readers.{IsReading, Takes, rows_left}};
ghost use Rattle.smp_frame.specs.Records;

use csv::{ByteRecord, ErrorKind, Reader, ReaderBuilder};
use smp_frac::NoMemory;
use std::alloc::Global;

/// A reader of the records of a text.
pub(crate) fn reader_of(alloc: Global, bytes: &[u8]) -> Reader<&[u8]>
    ensures reading { IsReading result }
    ensures rows { rows_left result ≡ records_of bytes.now }
{
    ReaderBuilder::new()
        .has_headers(false)
        .flexible(true)
        .from_reader(alloc, without_marks(bytes))
}

fn without_marks(bytes: &[u8]) -> &[u8]
    ensures { result.now ≡ Records.without_marks bytes.now }
{
    let mut rest = bytes;
    while let [0xef, 0xbb, 0xbf, after @ ..] = rest {
        rest = after;
    }
    rest
}

/// Reads the next record in place of another, and says whether there was one.
pub(crate) fn next_record(
    reader: &mut Reader<&[u8]>,
    row: &mut ByteRecord,
) -> Result<bool, NoMemory>
    requires { IsReading reader.old }
    ensures reading { IfOk result (λ found. found ≡ true → IsReading reader.new) }
    ensures takes { IfOk result (λ found.
        Takes found (fields_of row.new) (rows_left reader.old) (rows_left reader.new)) }
{
    let error = match reader.read_byte_record(row) {
        Ok(found) => return Ok(found),
        Err(error) => error,
    };
    // A record of any length and of any bytes is read, so only its source or memory can fail, and a slice doesn't.
    match error.into_kind() {
        ErrorKind::Io(_) | ErrorKind::OutOfMemory => Err(NoMemory),
        _ => unreachable!(),
    }
}

/// The field at a place, counted from 0; the empty field where there is none.
pub(crate) fn field(row: &ByteRecord, place: usize) -> &[u8]
    ensures { result.now ≡ Records.field (fields_of row.now) place }
{
    match row.get(place) {
        Some(field) => field,
        None => &[],
    }
}

/// Whether each field is UTF-8. Most records are of ASCII, which takes less than to look at characters.
#[tactic(auto, using(crate::proofs::RecordFields::drop_field))]
pub(crate) fn is_text(row: &ByteRecord) -> bool
    ensures { result ≡ list_all is_utf8 (fields_of row.now) }
{
    if row.as_slice().is_ascii() {
        return true;
    }
    for place in 0..row.len() {
        if !is_utf8(field(row, place)) {
            return false;
        }
    }
    true
}

fn is_utf8(text: &[u8]) -> bool
    ensures { result ≡ Str.is_utf8 text.now }
{
    if text.is_ascii() {
        return true;
    }
    match str::from_utf8(text) {
        Ok(_) => true,
        Err(_) => false,
    }
}

/// The field at a place of a record of text.
pub(crate) fn text(row: &ByteRecord, place: usize) -> &str
    requires { list_all is_utf8 (fields_of row.now) ≡ true }
    ensures { result.now ≡ Records.field (fields_of row.now) place }
{
    // The fields were looked at, and aren't looked at again.
    unsafe { str::from_utf8_unchecked(field(row, place)) }
}
