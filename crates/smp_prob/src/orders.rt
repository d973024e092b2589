/// In which order the units of a request are taken.
#[derive(Clone, Copy, Debug, PartialEq, Eq)]
pub enum Order {
    /// As they stand in the frame.
    Frame,
    /// As it is drawn, before anything else.
    Random,
}
