//! Cases that were worked by hand.

use smp_design::Method;

/// A case: units of these sizes, of which `n` are drawn by a method with the values of a tape.
#[derive(Clone, Copy, Debug)]
pub struct Case {
    /// The method, one that needs no columns.
    pub method: Method,
    /// The sizes of the units, at most 64, each at most 2,147,483,647.
    pub sizes: &'static [u32],
    /// How many units are drawn, at least 1 and at most as many as have a size above 0.
    pub n: u32,
    /// The values of the tape, exactly as many as the draw takes.
    pub tape: &'static [u128],
    /// The places of the drawn units, from 0 on.
    pub drawn: &'static [u32],
}

// A row of the table.
macro_rules! case {
    ($method:ident, $n:literal of $sizes:tt by $tape:tt draws $drawn:tt) => {
        Case {
            method: Method::$method,
            sizes: &$sizes,
            n: $n,
            tape: &$tape,
            drawn: &$drawn,
        }
    };
}

// 63 units without a size, and one with a size.
const LAST_OF_64: [u32; 64] = [
    0, 0, 0, 0, 0, 0, 0, 0, 0, 0, 0, 0, 0, 0, 0, 0, 0, 0, 0, 0, 0, 0, 0, 0, 0, 0, 0, 0, 0, 0, 0, 0,
    0, 0, 0, 0, 0, 0, 0, 0, 0, 0, 0, 0, 0, 0, 0, 0, 0, 0, 0, 0, 0, 0, 0, 0, 0, 0, 0, 0, 0, 0, 0, 1,
];

/// Cases that were worked by hand from the definitions of the steps. An independent program of these definitions, with fractions
/// of any size, draws the same units. Above a case of several steps stand its steps: kind, bound and value.
pub const CASES: [Case; 35] = [
    // Pivotal steps with the probabilities 1/5, 2/5, 3/5, 4/5: the units 0 and 1 meet, the one that stays open meets unit 2.
    // pivot 3 0, pivot 4 3, pivot 5 4
    case!(Pivotal, 2 of [1, 2, 3, 4] by [0, 3, 4] draws [2, 3]),
    // pivot 3 0, pivot 4 0, pivot 5 4
    case!(Pivotal, 2 of [1, 2, 3, 4] by [0, 0, 4] draws [0, 3]),
    // pivot 3 2, pivot 4 0, pivot 5 0
    case!(Pivotal, 2 of [1, 2, 3, 4] by [2, 0, 0] draws [1, 2]),
    // The largest sizes, on both sides of the border between the two parts.
    case!(Pivotal, 1 of [2_147_483_647, 2_147_483_646] by [4_294_967_292] draws [1]),
    case!(Pivotal, 1 of [2_147_483_647, 2_147_483_646] by [2_147_483_647] draws [1]),
    case!(Pivotal, 1 of [2_147_483_647, 2_147_483_646] by [2_147_483_646] draws [0]),
    // Certain units, in the first case by equality, and units without a size.
    case!(Pivotal, 3 of [2, 2, 4, 8] by [1] draws [1, 2, 3]),
    case!(Pivotal, 2 of [1, 1, 8] by [0] draws [0, 2]),
    case!(Pivotal, 1 of [0, 1, 1] by [1] draws [2]),
    case!(Pivotal, 3 of [5, 0, 7, 3] by [] draws [0, 2, 3]),
    case!(Pivotal, 1 of LAST_OF_64 by [] draws [63]),
    // Equal sizes, each with the probability 1/2: a step decides between two units.
    // pivot 2 0, pivot 2 1, pivot 2 0
    case!(Pivotal, 3 of [1, 1, 1, 1, 1, 1] by [0, 1, 0] draws [0, 3, 4]),
    // pivot 2 1, pivot 2 1, pivot 2 1
    case!(Pivotal, 3 of [1, 1, 1, 1, 1, 1] by [1, 1, 1] draws [1, 3, 5]),
    // Systematic selection with the cumulated numerators 1, 3, 6, 10 over 5: all five draws.
    case!(Systematic, 2 of [1, 2, 3, 4] by [0] draws [0, 2]),
    case!(Systematic, 2 of [1, 2, 3, 4] by [1] draws [1, 3]),
    case!(Systematic, 2 of [1, 2, 3, 4] by [2] draws [1, 3]),
    case!(Systematic, 2 of [1, 2, 3, 4] by [3] draws [2, 3]),
    case!(Systematic, 2 of [1, 2, 3, 4] by [4] draws [2, 3]),
    // Equal sizes, over 7 and over 5; and two certain units beside the cumulated numerators 9, 10 over 10.
    case!(Systematic, 4 of [1, 1, 1, 1, 1, 1, 1] by [0] draws [0, 1, 3, 5]),
    case!(Systematic, 2 of [1, 1, 1, 1, 1] by [4] draws [2, 4]),
    case!(Systematic, 3 of [40, 9, 20, 1] by [9] draws [0, 2, 3]),
    // Minimum support: a draw below the part's weight takes the larger units; of equal units the later one is larger.
    case!(MinimumSupport, 2 of [1, 2, 3, 4] by [2] draws [2, 3]),
    // support 5 3, support 2 0
    case!(MinimumSupport, 2 of [1, 2, 3, 4] by [3, 0] draws [1, 3]),
    // support 5 4, support 2 1
    case!(MinimumSupport, 2 of [1, 2, 3, 4] by [4, 1] draws [0, 1]),
    case!(MinimumSupport, 2 of [1, 1, 1, 1] by [0] draws [2, 3]),
    case!(MinimumSupport, 2 of [1, 1, 1, 1] by [1] draws [0, 1]),
    case!(MinimumSupport, 2 of [1, 1, 8] by [0] draws [1, 2]),
    // Brewer's method: a unit is offered, and then taken or refused.
    // offer 10 0, take 48 20, offer 10 9, take 12 5, offer 6 3, take 9 0
    case!(Brewer, 2 of [1, 2, 3, 4] by [0, 20, 9, 5, 3, 0] draws [2, 3]),
    // offer 10 9, take 12 0, offer 6 0, take 15 0
    case!(Brewer, 2 of [1, 2, 3, 4] by [9, 0, 0, 0] draws [0, 3]),
    // offer 5 0, take 9 8, offer 5 4, take 3 0, offer 3 1, take 1 0
    case!(Brewer, 2 of [1, 2, 2] by [0, 8, 4, 0, 1] draws [1, 2]),
    // offer 2 1, take 1 0
    case!(Brewer, 1 of [1, 1] by [1] draws [1]),
    // offer 2 0, take 1 0
    case!(Brewer, 2 of [1, 1, 8] by [0] draws [0, 2]),
    // The elimination procedure: one unit after the other is taken out. Of four units the largest is certain to be among three.
    // eliminate 3 0, eliminate 10 5
    case!(Elimination, 2 of [1, 2, 3, 4] by [0, 5] draws [1, 3]),
    // eliminate 4 2
    case!(Elimination, 3 of [1, 1, 1, 1] by [2] draws [0, 1, 3]),
    // a unit that is certain among two is never taken out: eliminate 2 1
    case!(Elimination, 2 of [1, 1, 8] by [1] draws [0, 2]),
];
