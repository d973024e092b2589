use smp_frac::Items;

/// Places of units, the first of which is 0.
pub type Places = Items<usize>;

/// Shapes of units: numbers that their probabilities are in proportion to.
pub type Shapes = Items<u32>;
