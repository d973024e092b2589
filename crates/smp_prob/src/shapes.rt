ghost use Rattle.std.specs.Prelude.{◌≡◌, ◌^◌, ◌<◌, ◌≤◌, length, slice_index, sum, EachIndex, IfOk};
ghost use Rattle.smp_frac.specs.Limits.{most_rows, number_limit};
ghost use Rattle.smp_prob.specs.Shapes as Shapes;

use smp_frac::{NoMemory, gcd};
use std::alloc::Global;

pub(crate) fn sum_of(sizes: &[u32]) -> u64
    requires few { length sizes.now ≤ most_rows }
    requires small { EachIndex sizes.now (λ i. slice_index sizes.now i < number_limit) }
    ensures { result ≡ sum sizes.now }
{
    sizes.iter().map(|&size| size as u64).sum()
}

// The greatest common divisor of all sizes; 0 where there are none.
pub(crate) fn size_divisor(sizes: &[u32]) -> u128
    ensures { result ≡ Shapes.size_divisor sizes.now }
{
    sizes
        .iter()
        .fold(0, |divisor, &size| gcd(divisor, size as u128))
}

// The sizes, each divided by their greatest common divisor.
pub(crate) fn shape_of(alloc: Global, sizes: &[u32]) -> Result<Vec<u32>, NoMemory>
    requires { EachIndex sizes.now (λ i. 1 ≤ slice_index sizes.now i) }
    ensures { IfOk result (λ list. list.items ≡ Shapes.shape_of sizes.now) }
{
    let divisor = size_divisor(sizes);
    let mut shape = Vec::with_capacity(alloc, sizes.len())?;
    for &size in sizes {
        shape.push((size as u128 / divisor) as u32)?;
    }
    Ok(shape)
}
