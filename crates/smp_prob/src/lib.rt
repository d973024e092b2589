//! Requests: which units are taken for sure, and with which probabilities the others are.
#![tactic(auto)]

mod faults;
mod inclusions;
mod lists;
mod orders;
mod picked;
mod probabilities;
mod proportional;
mod requests;
mod shapes;

pub use faults::{GivenFault, ProbFault};
pub use inclusions::Inclusion;
pub use lists::{Places, Shapes};
pub use orders::Order;
pub use probabilities::{GivenRequest, given};
pub use proportional::requested;
pub use requests::Request;
