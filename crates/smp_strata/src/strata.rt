//! The strata of a plan, and their first stage units.

use crate::{Group, SecondRequest};
use smp_frac::{Items, Numbers, Text};
use smp_prob::Request;

/// A first stage unit: a row of the frame, or all rows of a psu.
#[derive(Drop)]
pub struct FirstUnit {
    /// Its rows in frame order, the first of the frame being row 0.
    pub rows: Group,
    /// Its balancing values in the order of their columns: the sums over its rows.
    pub balance: Numbers,
    /// The coordinates of the point where it lies, in the order of their columns: those of its first row. Only where each
    /// row is a first stage unit there are any.
    pub point: Numbers,
    /// The request of its second stage, whose units are places in `rows`; `None` without a second stage.
    pub second: SecondRequest,
}

/// First stage units in a list.
pub type Units = Items<FirstUnit>;

/// A stratum, and what is asked of it.
#[derive(Drop)]
pub struct Stratum {
    /// Its name; the empty text where there is no column of strata.
    pub name: Text,
    /// Its first stage units, in order of first appearance.
    pub units: Units,
    /// The request over the places in `units`.
    pub request: Request,
}

/// Where a row of the frame stands in a plan. All numbers are counted from 0.
#[derive(Clone, Copy, Debug, PartialEq, Eq)]
pub struct Seat {
    /// The number of its stratum.
    pub stratum: usize,
    /// The number of its first stage unit in the stratum.
    pub unit: usize,
    /// Its place among the rows of the first stage unit.
    pub place: usize,
}
