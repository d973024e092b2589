//! The nearest of the points that are left.
//!
//! Spatially balanced selection (Grafström, Lundström and Schelin 2012) asks over and over which of the units that are not
//! yet settled lies nearest to a given one. [`Points`] answers exactly, by a search in a k-d tree.
#![tactic(auto)]

mod counts;
mod dimensions;
mod distance;
mod near;
mod orders;
mod points;
mod region;
mod regions;
mod searches;
mod tree;

pub use crate::dimensions::ByDimensions;
pub use crate::points::Points;
