//! One of four things, by how many coordinates points have.
#![tactic(auto)]

/// One of four things of the same kind, by how many coordinates the points have that it is about, from one to four.
#[derive(Drop)]
pub enum ByDimensions<A, B, C, D> {
    /// For points on a line.
    One(A),
    /// For points in a plane.
    Two(B),
    /// For points with three coordinates.
    Three(C),
    /// For points with four coordinates.
    Four(D),
}
