//! Runs the cases of a folder. A case is a file that says what `sampler` is given and what has to come of it.
//!
//! The folder is the present one, or that of the first word. Each folder in it is a group, and each file of a group is a
//! case, whose name ends in `.txt`. A line is put for each, in the order of their names, and then their count.
//! `README.md` of the folder `data` says how a case is written.
#![tactic(auto)]

mod judge;
mod listing;

use crate::judge::differences;
use crate::listing::case_files;
use smp_caseread::{CaseFault, Tally, Verdict, read_case};
use smp_frac::NoMemory;
use std::alloc::Global;
use std::rt::Files;
use std::{env, fs, io};

fn main(rt: HostRuntime) -> io::Result<()> {
    let alloc = rt.alloc();
    let words: Vec<String> = env::args(&rt)?.collect(alloc)?;
    let folder = match words.as_slice() {
        [_, folder] => folder.as_str(),
        _ => ".",
    };
    let mut tally = Tally::new();
    for name in case_files(&rt, alloc, folder)?.as_slice() {
        let name = name.as_str();
        let verdict = verdict_on(&rt, alloc, folder, name)?;
        let title = name.strip_suffix(".txt").unwrap_or(name);
        tally.count(&verdict);
        println!(rt; "{title}: {verdict}")?;
    }
    println!(rt; "{tally}")
}

// What comes of the case in this file of the folder.
fn verdict_on<R: Files + AllocGlobal>(
    rt: &R,
    alloc: Global,
    folder: &str,
    name: &str,
) -> io::Result<Verdict> {
    if !name.ends_with(".txt") {
        return Ok(Verdict::NotRead(CaseFault::Name));
    }
    let path = format!(in alloc; "{folder}/{name}")?;
    let text = fs::read(rt, path.as_str())?;
    match read_case(alloc, text.as_slice()) {
        Ok(case) => match differences(alloc, case) {
            Ok(found) => Ok(Verdict::from(found)),
            Err(NoMemory) => Err(io::Error::from(io::ErrorKind::OutOfMemory)),
        },
        Err(fault) => Ok(Verdict::NotRead(fault)),
    }
}
