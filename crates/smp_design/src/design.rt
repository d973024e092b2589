//! A design and its parts.

use crate::{Method, Procedure};
use smp_frac::{Items, Text};
use smp_frame::Columns;

/// The design of a sample.
#[derive(Drop)]
pub struct Design {
    /// The version, 1 or 2.
    pub version: u32,
    /// How the first stage units of each stratum are drawn.
    pub procedure: Procedure,
    /// The columns of the frame, with as many of balancing values and of coordinates as the procedure says.
    pub columns: Columns,
    /// How many first stage units are drawn from all strata together, from 1 to 200,000; `None` where it is said for
    /// each stratum, or where the columns name one of probabilities.
    pub n: Option<u32>,
    /// How many first stage units are drawn from each stratum, in byte order of the strata's names; none where there
    /// is `n` or a column of probabilities.
    pub sizes: Quotas,
    /// How units are drawn from each first stage unit that was drawn.
    pub second: Option<Second>,
}

/// The second stage of a design, which takes the units in frame order.
#[derive(Clone, Copy, Debug, PartialEq, Eq)]
pub struct Second {
    /// How units are drawn from a first stage unit.
    pub method: Method,
    /// How many units are drawn from a first stage unit, from 1 to 200,000.
    pub n: u32,
}

/// How many first stage units are drawn from a stratum.
#[derive(Debug, Drop)]
pub struct Quota {
    /// The stratum's name.
    pub stratum: Text,
    /// The number of units, from 1 to 200,000.
    pub n: u32,
}

/// Quotas in a list.
pub type Quotas = Items<Quota>;
