//! Cases of the top call: a text that says what `sampler` is given and what has to come of it, and what is said of it once
//! the call was made.
//!
//! [`read_case`] reads the text, whose form `crates/cases/data/README.md` tells. [`WatchedStore`] keeps under which names a
//! call writes. [`Differences`] takes up what came otherwise, part by part, and [`Verdict`] is the line of a case.
#![tactic(auto)]

mod case;
mod differences;
mod escapes;
mod lines;
mod reader;
mod verdict;
mod watched;

pub use case::{Case, Wanted, has_name};
pub use differences::Differences;
pub use reader::{CaseFault, Wrong, read_case};
pub use verdict::{Tally, Verdict};
pub use watched::WatchedStore;
