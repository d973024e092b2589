//! The cube over all strata together: balanced samples whose size is kept in each stratum.
//!
//! The rows of the balancing equations are the size of each stratum, and then the variables over all strata (Chauvet 2009). The units
//! stand stratum by stratum, and fly in one pass. Each value is kept in lowest terms for itself, so a move writes those alone that it
//! changes, and the common denominator that gates it is that of the few values which moves have changed. Where no direction is left,
//! the last row in force is dropped. Where a number would pass its gate, pivotal steps finish the selection, stratum by stratum.
#![tactic(auto)]

mod design;
mod directions;
mod ends;
mod fronts;
mod laws;
mod layers;
mod making;
mod pairs;
mod state;
mod steps;
mod units;
mod values;

pub use crate::design::StratCube;
pub use crate::layers::Layers;
pub use crate::state::StratCubeState;
