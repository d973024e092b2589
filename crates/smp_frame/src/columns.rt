//! The columns that are asked of a frame.

use smp_frac::{Items, Text};

/// Names in a list, such as those of columns.
pub type Names = Items<Text>;

/// The columns that are asked of a frame, by their names in its header. One column may be asked for more than once.
#[derive(Drop)]
pub struct Columns {
    /// The column of the units' ids.
    pub id: Text,
    /// The column of the strata. Without it each unit's stratum is the empty text.
    pub stratum: Option<Text>,
    /// The column of the first stage units. Without it each unit's first stage unit is the empty text.
    pub psu: Option<Text>,
    /// The column of the sizes. Without it each unit has size 1.
    pub size: Option<Text>,
    /// The column of the sizes in the second stage. Without it each unit has second size 1.
    pub second_size: Option<Text>,
    /// The column of the probabilities. Without it each unit has probability 1/1.
    pub prob: Option<Text>,
    /// The columns of the balancing values.
    pub balance: Names,
    /// The columns of the coordinates.
    pub near: Names,
}
