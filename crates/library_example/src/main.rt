//! A caller of the libraries, which draws two of four rows from its own code.
//!
//! `docs/library.md` goes through it.
#![tactic(auto)]

mod drawing;
mod fault;

use crate::drawing::draw;
use std::io;

fn main(rt: HostRuntime) -> io::Result<()> {
    for tape in [&[0, 3, 4], &[2, 0, 0], &[2, 3, 5]] {
        match draw(rt.alloc(), &[1, 2, 3, 4], 2, tape) {
            Ok(rows) => println!(rt; "{tape:?} selects the rows {rows:?}")?,
            Err(fault) => println!(rt; "{tape:?} selects nothing: {fault:?}")?,
        }
    }
    Ok(())
}
