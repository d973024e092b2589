//! The limits of numbers and of lists, as the code has them. Contracts have each by the same name (`specs/Limits.antt`), with its reason.

/// The most rows of a frame, and so the most units of a request and the most strata.
pub const MOST_ROWS: u32 = 200_000;

/// Each number of a frame is below this, and each sum of its numbers over a psu.
pub const NUMBER_LIMIT: u32 = 1 << 31;

/// Each number that a sum, a product or a difference of fractions needs is below this.
pub const WIDE_LIMIT: u128 = 1 << 126;
