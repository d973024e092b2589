//! Where units stand: stages, and the seats of rows in them.

/// A unit of a stage.
#[derive(Clone, Copy, Debug, PartialEq, Eq)]
pub struct Place {
    /// The number of the stage.
    pub stage: usize,
    /// The number of the unit in it.
    pub unit: usize,
}

/// A stage of a selection: a first stage, or a second stage within a unit of a first one.
#[derive(Drop)]
pub struct Stage<D> {
    /// The design by which the units of this stage are selected.
    pub design: D,
    /// The unit of a first stage within which this one selects, if it is a second stage.
    pub within: Option<Place>,
}

/// Where a row of the frame is selected.
#[derive(Clone, Copy, Debug, PartialEq, Eq)]
pub enum Seat {
    /// In no stage: the row is never selected.
    Nowhere,
    /// In a first stage, as this unit.
    First(Place),
    /// In the second stage within this unit of a first stage, as that unit.
    Second(Place, Place),
}
