//! Tests of the worked cases, of the demonstration's input, of the writing of logs of version 1 and of their cuts, and of replays
//! and a migration that no command makes.
//!
//! They call the crates as any other crate does. They stand here, since a crate with tests is proved a second time
//! with them. What a command reaches of strata, stages, whole selections and logs is shown by the cases of
//! `crates/cases`.
#![tactic(auto)]

#[cfg(test)]
mod cases;
#[cfg(test)]
mod log;
#[cfg(test)]
mod sections;
