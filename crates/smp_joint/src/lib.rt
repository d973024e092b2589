//! Joint inclusion probabilities of systematic selection in the order of the frame (Madow 1949).
//!
//! [`Arcs`] lays the units' pieces round a circle of as many places as there are draws: two units are selected together by
//! the draws at the places that their arcs share. [`joint_bytes`] lists the joint probability of each two rows of a plan.
//! `specs/JointRows.antt` says what it is, and that by the draw tree of the plan both rows are selected with it.
#![tactic(auto)]

mod arcs;
mod joints;
mod pairs;
mod row;

pub use crate::arcs::Arcs;
pub use crate::joints::joint_bytes;
