//! The local cube: balanced samples that are spread over points. It is this project's own method.
//!
//! Each unit has balancing values and lies at a point. As by the cube (Deville and Tillé 2004), a flight moves the values of the units
//! so that all balancing totals stay, and a landing ends it. Here the neighbours of one unit fly together: a unit is chosen at random,
//! and the search for a direction goes through it and its nearest neighbours. The units that a move has changed and left fractional are
//! carried on by the next one.
#![tactic(auto)]

mod any;
mod design;
mod orders;
mod state;

pub use crate::any::{AnyLocalCube, AnyLocalCubeState};
pub use crate::design::LocalCube;
pub use crate::state::LocalCubeState;
