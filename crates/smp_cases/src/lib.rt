//! Worked cases of the selection methods that need no columns, and the input of the demonstration.
//!
//! [`run_case`] draws by a method from sizes alone, and answers the drawn units as a mask. [`CASES`] are cases that were worked
//! by hand. [`demo_frame`], [`demo_design`] and [`demo_key`] make the frame, the design and the key of the command `demo`.
#![tactic(auto)]

mod demo;
mod fault;
mod running;
mod table;

pub use demo::{demo_design, demo_frame, demo_key};
pub use fault::CaseFault;
pub use running::{needs_columns, run_case};
pub use table::{CASES, Case};
