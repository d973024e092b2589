//! Values of units, from 0 to 1, as selection methods change them.
//!
//! A selection starts with the probabilities that are requested of its units. Step by step it settles their values at 0 or 1,
//! and the mean of each stays what it was. [`Values`] holds them as numerators over one denominator; [`PivotalSteps`] makes
//! sequential pivotal steps on them (Deville and Tillé 1998), of which [`pair`] is the arithmetic; and [`unit_order`] is the order
//! in which a method takes its units. [`OrderedDesign`] is the design of a method that is told by its steps on the values at
//! places ([`PlaceSteps`]), in either order. A design hands on to its states, which make the steps ([`SelectionState`]).
#![tactic(auto)]

mod ordered;
mod orders;
mod pairs;
mod places;
mod states;
mod steps;
mod values;

pub use ordered::{OrderedDesign, OrderedState};
pub use orders::unit_order;
pub use pairs::{TwoWeights, pair, pair_apply, pair_bound};
pub use places::PlaceSteps;
pub use states::SelectionState;
pub use steps::PivotalSteps;
pub use values::Values;
