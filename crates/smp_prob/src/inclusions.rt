/// Where a unit stands in a request.
#[derive(Clone, Copy, Debug, PartialEq, Eq)]
pub enum Inclusion {
    /// It is taken for sure.
    Certain,
    /// It is the free unit at this place.
    Free(usize),
    /// It is never selected.
    Never,
}
