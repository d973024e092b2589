//! The program over the files of the present folder and standard output.
#![tactic(auto)]

use smp_app::{Status, sampler};
use smp_io::{FolderStore, OutSink, Sink, Store};
use std::alloc::{AllocError, Global};
use std::process::ExitCode;
use std::{env, io};

// The words of the command line. Words that aren't text are those of no command, as no words are.
fn command_words(rt: &HostRuntime) -> Result<Vec<String>, AllocError> {
    let mut words = Vec::new(rt.alloc());
    let given = match env::args(rt) {
        Ok(given) => given,
        Err(error) if error.kind() == io::ErrorKind::OutOfMemory => return Err(AllocError),
        Err(_) => return Ok(words),
    };
    for word in given {
        words.push(word)?;
    }
    Ok(words)
}

// The exit code of the call that the words ask for. What the call promises stands in its own contract.
fn code_of<K: Store, S: Sink>(alloc: Global, words: &[String], store: &mut K, out: &mut S) -> u8 {
    sampler(alloc, words, store, out).code()
}

fn main(rt: HostRuntime) -> ExitCode {
    let Ok(words) = command_words(&rt) else {
        return ExitCode::from(Status::NoMemory.code());
    };
    let mut store = FolderStore::new(&rt);
    let mut out = OutSink::new(&rt);
    ExitCode::from(code_of(rt.alloc(), words.as_slice(), &mut store, &mut out))
}
