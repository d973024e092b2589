//! Logs of selections: the text of a log, and its replay.
//!
//! A log names the design and the frame by their digests, and has a line for each step of a selection. From it anybody can
//! go through the selection again.
//!
//! In version 1 the steps follow one another. In version 2 there is a part for each section of the design, with its number,
//! its place on the tape and its steps, so that a section can be replayed without the others.
#![tactic(auto)]

mod fault;
mod head;
mod laws;
mod lines;
mod lone_section;
mod migrating;
mod parts;
mod replaying;
mod section_laws;
mod section_lines;
mod section_replaying;
mod section_writing;
mod steps;
mod versions;
mod writing;

pub use fault::{LogFault, ReplayFault};
pub use head::{Head, log_head};
pub use laws::{old_logs_are_unambiguous, old_runs_are_genuine};
pub use lone_section::{replay_section, replay_section_into};
pub use migrating::migrate;
pub use replaying::{old_replay, old_replay_into};
pub use section_laws::{
    logs_are_unambiguous, runs_are_genuine, section_answers_are_exact, sections_are_replayed_alone,
};
pub use section_lines::SectionLines;
pub use section_writing::log_bytes;
pub use versions::{replay, replay_into};
pub use writing::{old_log_bytes, step_lines};
