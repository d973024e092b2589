ghost use Rattle.std.specs.Prelude.{◌≡◌, ◌⊎◌, ◌≤◌, ◌↔◌, ◌∷◌, ◌++◌, [], Some, None, IfOk, OnOk, OnErr, IsErrOf, option_map};
ghost use Rattle.smp_io.specs.{Counts.{Rose, failures_after, shortages_after}, Calls.{after_call, IsDueToFail}};
ghost use Rattle.smp_io.specs.{Store.{Asks, OthersStay, with_file}, Memory.{held, files_of, store_of, told_where}};

use crate::calls::FailingCalls;
use crate::{Store, StoreFault};
use smp_frac::{Bytes, NoMemory, Text};
use std::alloc::Global;
use std::marker::Model;

/// Files in memory, of which chosen calls fail.
#[derive(Drop)]
pub struct MemStore {
    // A write adds a file at the end, and the last one of a name counts.
    files: Vec<(Text, Bytes)>,
    calls: FailingCalls,
    failed_reads: u64,
    failed_writes: u64,
    short_writes: u64,
    // The names of which a read was asked, and whether there was memory for each.
    asked: Vec<Text>,
    all_asked: bool,
}

impl Model for MemStore {
    ghost use Rattle.smp_io.specs.Memory.{StoreState, told_where};

    ghost Value = { StoreState };

    ghost view = { λ s. record {
      entries = s.files.items;
      calls = s.calls;
      failed_reads = s.failed_reads;
      failed_writes = s.failed_writes;
      short_writes = s.short_writes;
      asked = told_where s.all_asked s.asked.items;
    } };
}

impl MemStore {
    /// A store of these files. Where a name is given more than once, the last of its files counts.
    ///
    /// Reads and writes are counted together, from 1. Those whose numbers are in `failing` fail.
    pub fn new(files: Vec<(Text, Bytes)>, failing: Vec<u64>) -> MemStore
        ensures { result ≡ store_of files.items failing.items }
    {
        let asked = Vec::new(*files.allocator());
        MemStore {
            files,
            calls: FailingCalls::new(failing),
            failed_reads: 0,
            failed_writes: 0,
            short_writes: 0,
            asked,
            all_asked: true,
        }
    }
}

// The last content under a name.
fn content_of<'a>(files: &'a [(Text, Bytes)], name: &str) -> Option<&'a Bytes>
    ensures { option_map (λ bytes. bytes.now) result ≡ held files.now name.now }
{
    files
        .iter()
        .rev()
        .find(|file| file.0.as_str() == name)
        .map(|file| &file.1)
}

fn copy_of(alloc: Global, bytes: &[u8]) -> Result<Bytes, NoMemory>
    ensures { IfOk result (λ copy. copy ≡ bytes.now) }
{
    let mut copy = Bytes::new(alloc);
    copy.push_all(bytes)?;
    Ok(copy)
}

// Keeps a name behind the others.
fn keep(names: &mut Vec<Text>, name: &str) -> Result<(), NoMemory>
    ensures { OnOk result (names.new.items ≡ names.old.items ++ name.now ∷ []) }
{
    let name = Text::from_str(*names.allocator(), name)?;
    names.push(name)?;
    Ok(())
}

// Keeps a name of which a read was asked, and answers whether all are there.
#[tactic(auto, using(crate::proofs::Asked::keeps_name))]
fn note(names: &mut Vec<Text>, all: bool, name: &str) -> bool
    ensures { Asks (name.now ∷ []) (told_where all names.old.items)
        (told_where result names.new.items) }
{
    if keep(names, name).is_err() {
        return false;
    }
    all
}

// Adds a file at the end.
fn add(files: &mut Vec<(Text, Bytes)>, name: &str, bytes: &[u8]) -> Result<(), NoMemory>
    ensures ok { OnOk result
        (held files.new.items ≡ with_file name.now bytes.now (held files.old.items)) }
    ensures err { OnErr result (files.new.items ≡ files.old.items) }
{
    let alloc = *files.allocator();
    let name = Text::from_str(alloc, name)?;
    let bytes = copy_of(alloc, bytes)?;
    files.push((name, bytes))?;
    Ok(())
}

impl Store for MemStore {
    ghost files = { λ s. Some (files_of s) };

    ghost read_faults = { λ s _. s.failed_reads };

    ghost write_faults = { λ s _. s.failed_writes };

    ghost write_shortages = { λ s _. s.short_writes };

    ghost asked = { λ s. s.asked };

    fn read(&mut self, alloc: Global, name: &str) -> Result<Bytes, StoreFault>
        ensures content { IfOk result (λ bytes. files_of self.old name.now ≡ Some bytes) }
        ensures same { files_of self.new ≡ files_of self.old }
        ensures calls { self.new.calls ≡ after_call self.old.calls }
        ensures reads { self.old.failed_reads ≤ self.new.failed_reads }
        ensures counted { self.new.failed_reads ≡ failures_after result self.old.failed_reads }
        ensures writes { self.new.failed_writes ≡ self.old.failed_writes }
        ensures not_short { self.new.short_writes ≡ self.old.short_writes }
        ensures asked { Asks (name.now ∷ []) self.old.asked self.new.asked }
        ensures cause { IsErrOf result StoreFault.Failed →
            Rose self.old.failed_reads self.new.failed_reads }
        ensures failed { IsErrOf result StoreFault.Failed ↔
            (IsDueToFail self.old.calls ⊎ (files_of self.old name.now ≡ None)) }
    {
        self.all_asked = note(&mut self.asked, self.all_asked, name);
        let fails = self.calls.next_fails();
        match content_of(&self.files, name) {
            Some(content) if !fails => Ok(copy_of(alloc, content.as_slice())?),
            _ => {
                self.failed_reads = self.failed_reads.saturating_add(1);
                Err(StoreFault::Failed)
            }
        }
    }

    fn write(&mut self, name: &str, bytes: &[u8]) -> Result<(), StoreFault>
        ensures written { OnOk result
            (files_of self.new ≡ with_file name.now bytes.now (files_of self.old)) }
        ensures others { OnErr result
            (OthersStay name.now (Some (files_of self.old)) (Some (files_of self.new))) }
        ensures same { OnErr result (files_of self.new ≡ files_of self.old) }
        ensures calls { self.new.calls ≡ after_call self.old.calls }
        ensures reads { self.new.failed_reads ≡ self.old.failed_reads }
        ensures writes { self.old.failed_writes ≤ self.new.failed_writes }
        ensures counted { self.new.failed_writes ≡ failures_after result self.old.failed_writes }
        ensures cause { IsErrOf result StoreFault.Failed →
            Rose self.old.failed_writes self.new.failed_writes }
        ensures failed { IsErrOf result StoreFault.Failed ↔ IsDueToFail self.old.calls }
        ensures asked { self.new.asked ≡ self.old.asked }
        ensures shortages { self.old.short_writes ≤ self.new.short_writes }
        ensures short { IsErrOf result StoreFault.NoMemory →
            Rose self.old.short_writes self.new.short_writes }
        ensures counted_short { self.new.short_writes
            ≡ shortages_after result self.old.short_writes }
    {
        if self.calls.next_fails() {
            self.failed_writes = self.failed_writes.saturating_add(1);
            return Err(StoreFault::Failed);
        }
        if add(&mut self.files, name, bytes).is_err() {
            self.short_writes = self.short_writes.saturating_add(1);
            return Err(StoreFault::NoMemory);
        }
        Ok(())
    }
}
