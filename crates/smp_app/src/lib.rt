//! The command line of the sampler as one call over a store and a sink.
//!
//! [`sampler`] does all that the program does. Data goes one way: words, job, design, frame, plan, tape, selection, texts, files.
#![tactic(auto)]

mod call;
mod job;
mod laws;
mod outputs;
mod selection;
mod texts;
mod work;

pub use call::sampler;
pub use laws::four_draw_law;
pub use outputs::{OutputFile, Outputs};
pub use smp_status::Status;
