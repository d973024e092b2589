ghost use Rattle.std.specs.Prelude.{◌≡◌, ◌+◌, ◌-◌, ◌*◌, ◌^◌, ◌<◌, ◌≤◌, ℕ, Bool, List, Err, length, filter, not, nat_lt, ◌&&◌, slice_index};
ghost use Rattle.std.specs.Prelude.{sum, count_by, EachIndex, OnOk, IfOk};
ghost use Rattle.std.specs.{List.{range_with_len}, List.Sorted.{IsPermutation}, Result.{IsOkUnless}};
ghost use Rattle.smp_prob.specs.{declared.faults.ProbFault.{ProbFault}, Kept.Cuts.{IsFeasible, border}, Requests.{IsRequest}};
ghost use Rattle.smp_prob.specs.Kept.Cuts as Cuts;
ghost use Rattle.smp_prob.specs.Requested.{is_certain, is_free, positive_units, places, free_sizes, requested_of, requested_fraction};
ghost use Rattle.smp_prob.specs.Requested.{IsFalling, IsLeastCut, FirstAreCertain};
ghost use Rattle.smp_prob.specs.Inclusions.{AreApart, AreBelow, IsRising, count_taken, asked_fraction};
ghost use Rattle.smp_frac.specs.{Fractions.{Same}, Limits.{most_rows, number_limit}};

use crate::picked::{Picked, pick};
use crate::shapes::{shape_of, sum_of};
use crate::{Places, ProbFault, Request, Shapes};
use smp_frac::NoMemory;
use std::alloc::Global;

// How many sizes are above 0.
fn count_positive(sizes: &[u32]) -> u32
    requires { length sizes.now ≤ most_rows }
    ensures { result ≡ positive_units sizes.now }
{
    sizes.iter().filter(|&&size| size > 0).count() as u32
}

// The largest size; 0 where there is none.
fn largest_of(sizes: &[u32]) -> u32
    requires { EachIndex sizes.now (λ i. slice_index sizes.now i < number_limit) }
    ensures most { EachIndex sizes.now (λ i. slice_index sizes.now i ≤ result) }
    ensures small { result < number_limit }
{
    let mut largest: u32 = 0;
    for &size in sizes {
        largest = largest.max(size);
    }
    largest
}

// The sizes in falling order.
fn falling(alloc: Global, sizes: &[u32]) -> Result<Vec<u32>, NoMemory>
    ensures order { IfOk result (λ zs. IsFalling zs.items) }
    ensures same { IfOk result (λ zs. IsPermutation sizes.now zs.items) }
{
    let mut order = Vec::from_slice(alloc, sizes)?;
    order.sort()?;
    order.reverse();
    Ok(order)
}

// How many units are certain, of sizes in falling order.
fn least_cut(falling: &[u32], n: u32) -> usize
    requires few { length falling.now ≤ most_rows }
    requires small { EachIndex falling.now (λ i. slice_index falling.now i < number_limit) }
    requires enough { n ≤ length falling.now }
    ensures least { IsLeastCut n falling.now result }
    ensures within { result ≤ n }
{
    let mut rest = sum_of(falling);
    for cut in 0..n as usize {
        let size = falling[cut] as u64;
        if (n as u64 - cut as u64) * size < rest {
            return cut;
        }
        rest -= size;
    }
    n as usize
}

// The least size that is certain, of sizes in falling order; where none is, one more than the largest.
fn border_of(falling: &[u32], cut: usize) -> u32
    requires some { 1 ≤ length falling.now }
    requires cut { cut ≤ length falling.now }
    requires small { EachIndex falling.now (λ i. slice_index falling.now i < number_limit) }
    ensures { result ≡ border cut falling.now }
{
    if cut > 0 {
        falling[cut - 1]
    } else {
        falling[0] + 1
    }
}

// The units that are certain, and those that are free.
fn picked_units(alloc: Global, sizes: &[u32], n: u32) -> Result<Picked, NoMemory>
    requires few { length sizes.now ≤ most_rows }
    requires small { EachIndex sizes.now (λ i. slice_index sizes.now i < number_limit) }
    requires some { 1 ≤ n }
    requires enough { n ≤ positive_units sizes.now }
    ensures certain { IfOk result (λ picked.
        picked.certain.items ≡ places (is_certain n sizes.now) 0 sizes.now) }
    ensures free { IfOk result (λ picked.
        picked.free.items ≡ places (is_free n sizes.now) 0 sizes.now) }
    ensures free_sizes { IfOk result (λ picked.
        picked.free_sizes.items ≡ free_sizes n sizes.now) }
    ensures feasible { OnOk result (IsFeasible n sizes.now) }
{
    let largest = largest_of(sizes);
    if n as u64 * (largest as u64) < sum_of(sizes) {
        // No share is as much as one.
        return pick(alloc, sizes, largest + 1);
    }
    let order = falling(alloc, sizes)?;
    let cut = least_cut(&order, n);
    let border = border_of(&order, cut);
    pick(alloc, sizes, border)
}

fn request_of(alloc: Global, picked: Picked, n: u32) -> Result<Request, NoMemory>
    requires few { length picked.free_sizes.items ≤ most_rows }
    requires small { EachIndex picked.free_sizes.items (λ i.
        slice_index picked.free_sizes.items i < number_limit) }
    requires positive { EachIndex picked.free_sizes.items (λ i.
        1 ≤ slice_index picked.free_sizes.items i) }
    requires within { length picked.certain.items ≤ n }
    ensures { IfOk result (λ request.
        request
        ≡ Cuts.request_of picked.certain.items picked.free.items picked.free_sizes.items n) }
{
    let shape = shape_of(alloc, &picked.free_sizes)?;
    let total = sum_of(&shape);
    let r = n - picked.certain.len() as u32;
    Ok(Request {
        certain: Places::from_vec(picked.certain),
        free: Places::from_vec(picked.free),
        shape: Shapes::from_vec(shape),
        r,
        total,
    })
}

/// The request for `n` units with probabilities in proportion to size, where the units whose
/// share would be 1 or more are certain, and the others share the draws that are left.
///
/// With the sizes in falling order, let c be the least number with c = n or with n - c times
/// the next size below the sum of the sizes past the first c. The first c units are certain. A
/// unit of size 0 is neither certain nor free, and every other unit is free: its probability is
/// n - c times its size over that sum. Units of equal size are certain together or free
/// together. The shapes are the sizes of the free units, each divided by their greatest common
/// divisor.
///
/// `TooMany` comes exactly where `n` passes the number of sizes above 0. The time is linear where
/// no unit is certain, and else that of sorting the sizes.
pub fn requested(alloc: Global, sizes: &[u32], n: u32) -> Result<Request, ProbFault>
    requires few { length sizes.now ≤ most_rows }
    requires small { EachIndex sizes.now (λ i. slice_index sizes.now i < number_limit) }
    requires some { 1 ≤ n }
    ensures value { IfOk result (λ request. request ≡ requested_of sizes.now n) }
    ensures request { IfOk result IsRequest }
    ensures too_many { positive_units sizes.now < n
        → result ≡ Err (ProbFault.TooMany (positive_units sizes.now)) }
    ensures enough { n ≤ positive_units sizes.now → IsOkUnless result ProbFault.NoMemory }

    // each unit has the probability that is requested of its size
    ensures probabilities { IfOk result (λ request. EachIndex sizes.now (λ unit.
        Same (asked_fraction request unit)
        (requested_fraction n sizes.now (slice_index sizes.now unit)))) }
    // the rule of the falling order, whichever of the equal sizes comes first
    ensures first { OnOk result ((zs : List ℕ) → IsPermutation sizes.now zs → IsFalling zs
        → FirstAreCertain n sizes.now zs) }
    // where r of the free units are selected, n units are selected in all
    ensures drawn { IfOk result (λ request. (drawn : ℕ → Bool)
        → count_by drawn (range_with_len 0 (length request.free)) ≡ request.r
        → count_taken request drawn (length sizes.now) ≡ n) }
    ensures ordered { IfOk result IsRising }
    ensures apart { IfOk result AreApart }
    ensures below { IfOk result (AreBelow (length sizes.now)) }
    ensures none_free { IfOk result (λ request.
        length request.free ≡ 0 → (request.r ≡ 0) × (request.total ≡ 0)) }
{
    let positive = count_positive(sizes);
    if n > positive {
        return Err(ProbFault::TooMany { positive });
    }
    let picked = picked_units(alloc, sizes, n)?;
    Ok(request_of(alloc, picked, n)?)
}
