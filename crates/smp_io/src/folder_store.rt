ghost use Rattle.std.specs.Prelude.{◌≡◌, ◌≤◌, None, length, option_map, IfSome, SomeIff, IfOk, OnOk, OnErr, IsErrOf};
ghost use Rattle.smp_io.specs.{Counts.{Rose, count_after, shortages_after}, Store.{Holds, OthersStay, with_file}};

use crate::replacing::write_file;
use crate::{Store, StoreFault};
use smp_frac::Bytes;
use std::alloc::Global;
use std::io::Read;
use std::marker::Model;
use std::rt::Files;
use std::{fs, io};

/// The longest file that is read, in bytes.
pub const MAX_FILE_LEN: u32 = 2_147_483_648;

/// The files of the present folder. It tells no content and no name, and a file longer than `MAX_FILE_LEN` can't be read.
///
/// A write leaves under its name the old file or the whole new one, where the system renames at once. It makes a new
/// file in the same folder, whose name is the wanted one, `.partial` and the first free number from 1 to 100, with the
/// permissions of the old file; it writes and syncs that file, and renames it. If this fails, the new file is removed
/// again. What an ended program left under such a name is never opened: the next number is taken.
///
/// So a write fails where no file can be made in the folder, even if the old file could be written, and where the name
/// has no room for the ending. It also fails where the old file is read-only. A name under which something other than
/// a regular file stands, as a link or a device, is written in place.
#[derive(Drop)]
pub struct FolderStore<'a, R: Files + AllocGlobal> {
    rt: &'a R,
    failed_reads: u64,
    failed_writes: u64,
    short_writes: u64,
}

// Callers see how many of its reads and of its writes failed, and how many writes ended for want of memory.
impl<'a, R: Files + AllocGlobal> Model for FolderStore<'a, R> {
    ghost use Rattle.smp_io.specs.Counts.{FaultCounts};

    ghost Value = { FaultCounts };

    ghost view = { λ s. record { failed_reads = s.failed_reads; failed_writes = s.failed_writes; short_writes = s.short_writes } };
}

impl<'a, R: Files + AllocGlobal> FolderStore<'a, R> {
    /// The files of the folder that the program runs in.
    pub fn new(rt: &'a R) -> FolderStore<'a, R>
        ensures reads { result.failed_reads ≡ 0 }
        ensures writes { result.failed_writes ≡ 0 }
        ensures short { result.short_writes ≡ 0 }
    {
        FolderStore {
            rt,
            failed_reads: 0,
            failed_writes: 0,
            short_writes: 0,
        }
    }
}

// All that a reader has left, where that is at most so many bytes, and none where it is more. One byte more is asked
// for, so that the reader's end is seen.
pub(crate) fn read_within<F: Read + Drop>(
    alloc: Global,
    reader: F,
    limit: u32,
) -> io::Result<Option<Bytes>>
    ensures all { IfOk result (λ found. IfSome (F.remaining reader) (λ left.
        SomeIff found (length left ≤ limit) left)) }
    ensures within { IfOk result (λ found. IfSome found (λ bytes. length bytes ≤ limit)) }
{
    let mut bytes = Vec::new(alloc);
    let mut reader = reader.take(limit as u64 + 1);
    reader.read_to_end(&mut bytes)?;
    if bytes.len() > limit as usize {
        return Ok(None);
    }
    Ok(Some(Bytes::from_vec(bytes)))
}

fn read_file<R: Files>(rt: &R, alloc: Global, name: &str) -> Result<Bytes, StoreFault>
    ensures { IfOk result (λ bytes. length bytes ≤ MAX_FILE_LEN) }
{
    match read_within(alloc, fs::open(rt, name)?, MAX_FILE_LEN)? {
        Some(bytes) => Ok(bytes),
        None => Err(StoreFault::Failed),
    }
}

impl<'a, R: Files + AllocGlobal> Store for FolderStore<'a, R> {
    ghost files = { λ _. None };

    ghost read_faults = { λ s _. s.failed_reads };

    ghost write_faults = { λ s _. s.failed_writes };

    ghost write_shortages = { λ s _. s.short_writes };

    ghost asked = { λ _. None };

    fn read(&mut self, alloc: Global, name: &str) -> Result<Bytes, StoreFault>
        ensures content { IfOk result (λ bytes. Holds None name.now bytes) }
        ensures reads { self.old.failed_reads ≤ self.new.failed_reads }
        ensures writes { self.old.failed_writes ≤ self.new.failed_writes }
        ensures cause { IsErrOf result StoreFault.Failed →
            Rose self.old.failed_reads self.new.failed_reads }
        ensures counted { self.new.failed_reads ≡ count_after result self.old.failed_reads }
        ensures not_a_write { self.new.failed_writes ≡ self.old.failed_writes }
        ensures shortages { self.old.short_writes ≤ self.new.short_writes }
        ensures not_short { self.new.short_writes ≡ self.old.short_writes }
        ensures within { IfOk result (λ bytes. length bytes ≤ MAX_FILE_LEN) }
    {
        let outcome = read_file(self.rt, alloc, name);
        if outcome.is_err() {
            self.failed_reads = self.failed_reads.saturating_add(1);
        }
        outcome
    }

    fn write(&mut self, name: &str, bytes: &[u8]) -> Result<(), StoreFault>
        ensures written { OnOk result (None ≡ option_map (with_file name.now bytes.now) None) }
        ensures others { OnErr result (OthersStay name.now None None) }
        ensures reads { self.old.failed_reads ≤ self.new.failed_reads }
        ensures writes { self.old.failed_writes ≤ self.new.failed_writes }
        ensures cause { IsErrOf result StoreFault.Failed →
            Rose self.old.failed_writes self.new.failed_writes }
        ensures counted { self.new.failed_writes ≡ count_after result self.old.failed_writes }
        ensures not_a_read { self.new.failed_reads ≡ self.old.failed_reads }
        ensures shortages { self.old.short_writes ≤ self.new.short_writes }
        ensures short { IsErrOf result StoreFault.NoMemory →
            Rose self.old.short_writes self.new.short_writes }
        ensures counted_short { self.new.short_writes
            ≡ shortages_after result self.old.short_writes }
    {
        let outcome = write_file(self.rt, name, bytes);
        if outcome.is_err() {
            self.failed_writes = self.failed_writes.saturating_add(1);
        }
        if let Err(StoreFault::NoMemory) = outcome {
            self.short_writes = self.short_writes.saturating_add(1);
        }
        outcome
    }
}
