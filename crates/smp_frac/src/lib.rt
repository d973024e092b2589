//! What most crates of the sampler stand on: fractions, texts, bytes, lists, numbers in decimal, and want of memory.
//!
//! Contracts speak of fractions of any size (`specs/Fractions.antt`). What is computed with is [`Frac`], kept in lowest terms by its type:
//! a sum, a product or a difference is exact, or is refused as [`Wide`] where it needs a number of 2^126 or more. Frames, tapes and
//! command words read their numbers and cut their lines here, and their contracts have the words for reading up to the first fault here
//! (`specs/Faults.antt`). The limits of numbers and lists have their names in `specs/Limits.antt`.
#![tactic(auto)]

mod bytes;
mod cuts;
mod decimals;
mod differences;
mod divisors;
mod fractions;
mod items;
mod limits;
mod memory;
mod numbers;
mod signed;
mod text;

pub use bytes::{Bytes, put};
pub use cuts::cut_before;
pub use decimals::{is_decimal, number};
pub use differences::difference;
pub use divisors::{content, gcd, lcm_within, quotient};
pub use fractions::{Frac, FractionText, Wide};
pub use items::Items;
pub use limits::{MOST_ROWS, NUMBER_LIMIT, WIDE_LIMIT};
pub use memory::NoMemory;
pub use numbers::Numbers;
pub use signed::Signed;
pub use text::Text;
