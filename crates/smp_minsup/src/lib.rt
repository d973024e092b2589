//! Minimum support selection (Deville and Tillé 1998).
//!
//! Each unit has a value from 0 to 1, at first the probability that is requested of it, and the values add up to a whole
//! number r. By one draw, either the r units of the largest values are selected, or the values go on without what this took
//! of them. Each such step settles one more unit at least, and the mean of every value stays what it was. So where there is a
//! unit, there are at most as many leaves as units, and no more samples can come out.
#![tactic(auto)]

mod design;
mod ranked;
mod state;

pub use crate::design::MinimumSupport;
pub use crate::state::SupportState;
