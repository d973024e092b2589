//! What comes of a case.

use smp_app::{Status, sampler};
use smp_caseread::{Case, Differences, Wanted, WatchedStore, has_name};
use smp_frac::{Bytes, NoMemory, Text};
use smp_io::{MemSink, MemStore, Sink, Store, StoreFault};
use std::alloc::Global;

/// Calls `sampler` as a case says, and tells what differs from what the case wants. A call that ends for want of memory
/// has no verdict.
pub fn differences(alloc: Global, case: Case) -> Result<Differences, NoMemory> {
    let Case {
        words,
        files,
        failing_calls,
        failing_puts,
        wanted,
    } = case;
    let before = copies(alloc, files.as_slice())?;
    let tries = failing_calls.len() as u64 + 1;
    let store = MemStore::new(files, failing_calls);
    let sink = MemSink::new(alloc, failing_puts);
    let mut seen = setting_of(alloc, words.as_slice(), store, sink, tries)?;
    compare(alloc, &wanted, before.as_slice(), &mut seen)
}

// What is seen of a call: its code, the store after it, the names under which it was asked to write, and what was put.
#[derive(Drop)]
struct Seen {
    code: u8,
    after: After,
    names: Vec<String>,
    sink: MemSink,
}

fn setting_of(
    alloc: Global,
    words: &[String],
    store: MemStore,
    sink: MemSink,
    tries: u64,
) -> Result<Seen, NoMemory> {
    let mut store = WatchedStore::new(alloc, store);
    let mut sink = sink;
    let code = code_of(alloc, words, &mut store, &mut sink)?;
    let (store, names) = store.into_parts();
    let names = names?;
    let after = After {
        alloc,
        store,
        tries,
    };
    Ok(Seen {
        code,
        after,
        names,
        sink,
    })
}

// The code with which the call ends. What it promises is of no use to the judge, who looks for himself.
fn code_of<K: Store, S: Sink>(
    alloc: Global,
    words: &[String],
    store: &mut K,
    sink: &mut S,
) -> Result<u8, NoMemory> {
    match sampler(alloc, words, store, sink) {
        Status::NoMemory => Err(NoMemory),
        status => Ok(status.code()),
    }
}

fn compare(
    alloc: Global,
    wanted: &Wanted,
    before: &[(Text, Bytes)],
    seen: &mut Seen,
) -> Result<Differences, NoMemory> {
    let mut found = Differences::new(alloc);
    found.compare_codes(wanted.code, seen.code)?;
    compare_named(&mut found, wanted, &mut seen.after)?;
    compare_others(
        &mut found,
        wanted,
        before,
        seen.names.as_slice(),
        &mut seen.after,
    )?;
    found.compare_bytes("put", wanted.put.as_slice(), seen.sink.as_slice())?;
    Ok(found)
}

// The store after the call.
#[derive(Drop)]
struct After {
    alloc: Global,
    store: MemStore,
    tries: u64,
}

impl After {
    // The content under a name, or none where there is no file. A read that is due to fail is tried again.
    fn content(&mut self, name: &str) -> Result<Option<Bytes>, NoMemory> {
        for _ in 0..self.tries {
            match self.store.read(self.alloc, name) {
                Ok(bytes) => return Ok(Some(bytes)),
                Err(StoreFault::NoMemory) => return Err(NoMemory),
                Err(StoreFault::Failed) => {}
            }
        }
        Ok(None)
    }
}

// The files that the case speaks of.
fn compare_named(
    found: &mut Differences,
    wanted: &Wanted,
    after: &mut After,
) -> Result<(), NoMemory> {
    for (name, content) in wanted.files.as_slice() {
        let name = name.as_str();
        let got = after.content(name)?;
        let wanted = content.as_ref().map(|bytes| bytes.as_slice());
        found.compare_files(name, wanted, got.as_ref().map(|bytes| bytes.as_slice()))?;
    }
    Ok(())
}

// The others: those that were there before are as they were, and nothing else is written.
fn compare_others(
    found: &mut Differences,
    wanted: &Wanted,
    before: &[(Text, Bytes)],
    names: &[String],
    after: &mut After,
) -> Result<(), NoMemory> {
    for (name, content) in before {
        let name = name.as_str();
        if !has_name(wanted.files.as_slice(), name) {
            let got = after.content(name)?;
            found.compare_files(
                name,
                Some(content.as_slice()),
                got.as_ref().map(|bytes| bytes.as_slice()),
            )?;
        }
    }
    for name in names {
        let name = name.as_str();
        if !has_name(wanted.files.as_slice(), name) && !has_name(before, name) {
            let got = after.content(name)?;
            found.compare_files(name, None, got.as_ref().map(|bytes| bytes.as_slice()))?;
        }
    }
    Ok(())
}

fn copies(alloc: Global, files: &[(Text, Bytes)]) -> Result<Vec<(Text, Bytes)>, NoMemory> {
    let mut list = Vec::new(alloc);
    for (name, content) in files {
        let mut copy = Bytes::new(alloc);
        copy.push_all(content.as_slice())?;
        list.push((name.copy(alloc)?, copy))?;
    }
    Ok(list)
}
