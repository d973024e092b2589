//! The texts and the totals of a drawn sample: rows of CSV, the sample file with its design
//! weights, and the weighted total of a value.
#![tactic(auto)]

mod rows;
mod sample;
mod totals;
mod weights;

pub use rows::CsvRows;
pub use sample::{push_sample_row, sample_bytes, sample_rows};
pub use totals::estimate;
