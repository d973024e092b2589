use crate::Items;

/// Whole numbers in a list, such as the balancing values of a unit.
pub type Numbers = Items<i32>;
