//! The ranges of coordinates in which some points lie.
#![tactic(auto)]

ghost use Rattle.std.specs.Prelude.{◌≡◌, ℕ, ◌<◌, ◌≤◌, ℤ, pos, ◌≤ℤ◌, List, length, slice_index_or};
ghost use Rattle.smp_near.specs.Kept.Regions.{IsIn, region_distance};

use crate::distance::region_distance;
use crate::near::Near;

/// The ranges of the coordinates of some points, and the least of their numbers.
#[derive(Clone, Copy)]
pub(crate) struct Region<const K: usize> {
    lowest: [i32; K],
    highest: [i32; K],
    first: usize,
}

// The less of each two coordinates.
fn least_of<const K: usize>(a: &[i32; K], b: &[i32; K]) -> [i32; K]
    ensures same { length result ≡ length a.now }
    ensures long { length result ≡ length b.now }
    ensures first { (axis : ℕ) → axis < length a.now →
        slice_index_or result axis (pos 0) ≤ℤ slice_index_or a.now axis (pos 0) }
    ensures second { (axis : ℕ) → axis < length a.now →
        slice_index_or result axis (pos 0) ≤ℤ slice_index_or b.now axis (pos 0) }
{
    let mut least = *a;
    for axis in 0..K {
        if b[axis] < least[axis] {
            least[axis] = b[axis];
        }
    }
    least
}

// The greater of each two coordinates.
fn greatest_of<const K: usize>(a: &[i32; K], b: &[i32; K]) -> [i32; K]
    ensures same { length result ≡ length a.now }
    ensures first { (axis : ℕ) → axis < length a.now →
        slice_index_or a.now axis (pos 0) ≤ℤ slice_index_or result axis (pos 0) }
    ensures second { (axis : ℕ) → axis < length a.now →
        slice_index_or b.now axis (pos 0) ≤ℤ slice_index_or result axis (pos 0) }
{
    let mut greatest = *a;
    for axis in 0..K {
        if greatest[axis] < b[axis] {
            greatest[axis] = b[axis];
        }
    }
    greatest
}

/// The region of one point.
pub(crate) fn region_at<const K: usize>(at: &[i32; K], unit: usize) -> Region<K>
    ensures { IsIn result at.now unit }
{
    Region {
        lowest: *at,
        highest: *at,
        first: unit,
    }
}

/// The region of one more point.
pub(crate) fn widened<const K: usize>(region: &Region<K>, at: &[i32; K], unit: usize) -> Region<K>
    ensures own { IsIn result at.now unit }
    ensures kept { (other : List ℤ) (number : ℕ) →
        IsIn region.now other number → IsIn result other number }
{
    Region {
        lowest: least_of(&region.lowest, at),
        highest: greatest_of(&region.highest, at),
        first: region.first.min(unit),
    }
}

/// The nearest that a point of a region may be.
pub(crate) fn bound_of<const K: usize>(region: &Region<K>, at: &[i32; K]) -> Near
    ensures distance { result.distance ≡
        region_distance region.now.lowest region.now.highest at.now }
    ensures first { result.unit ≡ region.now.first }
{
    Near {
        distance: region_distance(&region.lowest, &region.highest, at),
        unit: region.first,
    }
}
