//! Where a selection stands.

/// Where a selection stands that flies and then lands.
#[derive(Clone, Copy)]
pub enum Phase {
    /// The flight goes on, before the landing or in it.
    Flying,
    /// Pivotal steps finish the selection.
    Pairing,
}
