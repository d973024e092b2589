//! What a step of a flight is.

/// What a step of a flight is.
#[derive(Clone, Copy, Debug, PartialEq, Eq)]
pub enum Next<M> {
    /// A move to one of two ends.
    Move(M),
    /// The columns of the fractional units are independent in the rows in force.
    Independent,
    /// A number would pass its gate.
    Wide,
}
