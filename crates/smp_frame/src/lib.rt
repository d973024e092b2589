//! Frames: the units of a population that a sample is selected from, each with an id, a stratum, a first stage
//! unit, sizes and values.
//!
//! [`read_frame`] reads a frame from its bytes, by the [`Columns`] that are asked of it. `specs/Frames.antt` says
//! which bytes are a frame, and of which units.
#![tactic(auto)]

mod columns;
mod fault;
mod fields;
mod frame;
mod layout;
mod reading;
mod records;
mod units;

pub use columns::{Columns, Names};
pub use fault::FrameFault;
pub use frame::{Frame, Unit};
pub use reading::read_frame;
pub use smp_frac::Numbers;
