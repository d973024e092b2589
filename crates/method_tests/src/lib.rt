//! Tests of the parts of the cube, of coordinates that stand behind other values, of a selection by elimination that ends
//! early, and of draws that only quick searches end in time. What a draw shows of the methods is a case of `crates/cases`.
//!
//! They call the crates as any other crate does. They stand here, since a crate with tests is proved a second time with them. [`walks`] is
//! the one walker that they share: over a path whose steps are known beforehand.
#![tactic(auto)]

#[cfg(test)]
mod brewer;
#[cfg(test)]
mod elim;
#[cfg(test)]
mod flight;
#[cfg(test)]
mod kernel;
#[cfg(test)]
mod localpiv;
#[cfg(test)]
mod spread;
mod walking;

pub use walking::walks;
