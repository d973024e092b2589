//! Says of made-up units whether their numbers are narrow: what the library answers, which the clients' own reckoning is held against.
//!
//! A line of the input is a case, but for one that begins with `#`, a comment. The parts of a case have a `;` between: its name, the
//! requested denominator, and each unit, which is its size and then its balancing values, with a blank between two. A unit is drawn with
//! its size over the denominator as its probability. For each case a line is put: its name, and whether it is narrow, or no units are read.
#![tactic(auto)]

mod answers;
mod reading;

use crate::answers::answer;
use crate::reading::{name_of, read_case};
use smp_frac::NoMemory;
use std::alloc::Global;
use std::io;

fn main(rt: HostRuntime) -> io::Result<()> {
    for line in rt.lines(rt.alloc()) {
        let line = line?;
        if line.starts_with('#') {
            continue;
        }
        let name = name_of(line.as_str());
        match told(rt.alloc(), line.as_str()) {
            Ok(told) => println!(rt; "{name}: {told}")?,
            Err(NoMemory) => return Err(io::Error::from(io::ErrorKind::OutOfMemory)),
        }
    }
    Ok(())
}

// What is told of the case in a line.
fn told(alloc: Global, line: &str) -> Result<&'static str, NoMemory> {
    let Some(case) = read_case(alloc, line)? else {
        return Ok("no units");
    };
    let sizes = case.sizes.as_slice();
    Ok(
        match answer(alloc, sizes, case.values.as_slice(), case.denominator)? {
            Some(true) => "narrow",
            Some(false) => "not narrow",
            None => "no units",
        },
    )
}
