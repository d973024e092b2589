//! Places, numbered from 0 on: trees of places that lie in lists, sums of amounts at places, and places in the order of their
//! amounts.
//!
//! The places from `low` to `high` are a tree without pointers: its root is at their middle ([`middle_of`]), and its halves are
//! the places before and behind the root. [`Amounts`] keeps a sum at each root, so that a draw is led to its place along one
//! path.
#![tactic(auto)]

mod amounts;
mod middle;
mod numbers;
mod rising;
mod sums;

pub use crate::amounts::Amounts;
pub use crate::middle::middle_of;
pub use crate::numbers::numbers_below;
pub use crate::rising::rising_order;
