//! The whole numbers from 0 on.
#![tactic(auto)]

ghost use Rattle.std.specs.{Prelude.{◌≡◌, IfOk}, List.{range_with_len}};

use std::alloc::{AllocError, Global};

/// The whole numbers below a count, in order.
pub fn numbers_below(alloc: Global, count: usize) -> Result<Vec<usize>, AllocError>
    ensures { IfOk result (λ numbers. numbers.items ≡ range_with_len 0 count) }
{
    (0..count).collect(alloc)
}
