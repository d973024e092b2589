//! What is written down for a row, once for all its pairs.

ghost use Rattle.std.specs.Prelude.{◌<◌, ◌^◌};

use smp_frac::Frac;
use smp_prob::Inclusion;

// A row of the frame: the number of its stratum, where its first stage unit stands in the stratum's request, and the
// probability that the request gives that unit.
#[derive(Clone, Copy)]
pub(crate) struct Row {
    pub(crate) stratum: usize,
    pub(crate) inclusion: Inclusion,
    pub(crate) asked: Frac,
    pub(crate) ghost num: { asked.num < 2 ^ 49 },
    pub(crate) ghost den: { asked.den < 2 ^ 49 },
}
