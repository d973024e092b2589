//! Tests of the lowest crates, of what no case of `crates/cases` can show: numbers near 2^126 and 2^128, the published words of
//! keys and draws that are refused, the tree of points beside a search over all of them, a sample that is written at once, and what a
//! caller sees of a frame and the program never asks for.
//!
//! They call the crates as any other crate does. They stand here, since a crate with tests is proved a second time with them.
#![tactic(auto)]

#[cfg(test)]
mod frac;
#[cfg(test)]
mod frame;
#[cfg(test)]
mod near;
#[cfg(test)]
mod sieve;
#[cfg(test)]
mod weights;
