//! How a call of the sampler ends: its status with the exit code, and the line that is put for a refusal.
//!
//! `specs/Codes.antt` has the table of the codes, `specs/FaultLines.antt` the lines.
#![tactic(auto)]

mod refusals;
mod status;

pub use refusals::report;
pub use status::Status;
