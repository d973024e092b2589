//! The plan of a design and a frame, which are read from files or stand with a command.
//!
//! [`plan_from`] reads the design, then the frame, and plans what the design asks of it. `specs/Inputs.antt` says what comes first.
#![tactic(auto)]

mod plan;
mod quick;
mod source;

pub use plan::{FramePlan, plan_from, read_input};
pub use source::{DesignSource, FrameSource};
