//! Local pivotal selection: the local pivotal method 2 of Grafström, Lundström and Schelin (2012).
//!
//! Each unit lies at a point, and has a value from 0 to 1, at first the probability that is requested of it. As long as at
//! least two values are strictly in between, one of their units is chosen at random, and meets the nearest of the others in a
//! pivotal step (Deville and Tillé 1998). So a unit takes from its neighbours, and the selected units are spread over the
//! points. The mean of every value stays what it was.
//!
//! The source draws one at random of several units at the same distance. Here the first of them in the frame is taken.
//!
//! [`LocalPivotal`] is the design over points whose number of coordinates the type says, [`AnyLocalPivotal`] that over points with
//! one to four of them.
#![tactic(auto)]

mod any;
mod design;
mod dimensions;
mod state;

pub use crate::any::{AnyLocalPivotal, AnyLocalState};
pub use crate::design::LocalPivotal;
pub use crate::dimensions::points;
pub use crate::state::LocalState;
