//! Draws below a bound: from tapes, which are values that are drawn one after another, and from the words of a seed, those of ChaCha with
//! 20 rounds (Bernstein 2008).
//!
//! A draw from words is the first candidate below the bound. A candidate has as many bits as the greatest value that may be drawn, so each
//! value has the same number of blocks of words.
#![tactic(auto)]

mod chacha;
mod draws;
mod fault;
mod reading;
mod sieve;
mod tape;
mod words;

pub use chacha::ChaChaWords;
pub use draws::{DrawFault, Draws};
pub use fault::TapeFault;
pub use sieve::Sieve;
pub use tape::Tape;
pub use words::Words;
