//! The regions of the roots of a tree.
#![tactic(auto)]

ghost use Rattle.std.specs.Prelude.{◌≡◌, ℕ, ◌≤◌, ◌<◌, length, slice_index_or, IfOk};
ghost use Rattle.smp_near.specs.Kept.Trees.{AreUnits, IsEnclosed, LieIn};
ghost use Rattle.smp_places.specs.Trees.{EachRoot};

use crate::region::{Region, region_at, widened};
use smp_places::middle_of;
use std::alloc::{AllocError, Global};

// The region of the points from one place to another.
fn region_of<const K: usize>(
    coords: &[[i32; K]],
    order: &[usize],
    low: usize,
    high: usize,
) -> Region<K>
    requires units { AreUnits order.now (length coords.now) }
    requires some { low < high }
    requires within { high ≤ length order.now }
    ensures { LieIn result coords.now order.now low high }
{
    let mut region = region_at(&coords[order[low]], order[low]);
    for place in low..high {
        let unit = order[place];
        region = widened(&region, &coords[unit], unit);
    }
    region
}

// Sets the regions of the roots of a tree.
fn enclose<const K: usize>(
    coords: &[[i32; K]],
    order: &[usize],
    regions: &mut [Region<K>],
    low: usize,
    high: usize,
)
    requires units { AreUnits order.now (length coords.now) }
    requires paired { length regions.old ≡ length order.now }
    requires within { high ≤ length order.now }
    ensures enclosed { EachRoot (IsEnclosed coords.now order.now regions.new) low high }
    ensures before { (place : ℕ) (d : Region K) → place < low →
        slice_index_or regions.new place d ≡ slice_index_or regions.old place d }
    ensures behind { (place : ℕ) (d : Region K) → high ≤ place →
        slice_index_or regions.new place d ≡ slice_index_or regions.old place d }
{
    if low < high {
        let root = middle_of(low, high);
        enclose(coords, order, regions, low, root);
        enclose(coords, order, regions, root + 1, high);
        regions[root] = region_of(coords, order, low, high);
    }
}

/// The regions of the roots of a tree.
pub(crate) fn regions_of<const K: usize>(
    alloc: Global,
    coords: &[[i32; K]],
    order: &[usize],
) -> Result<Vec<Region<K>>, AllocError>
    requires units { AreUnits order.now (length coords.now) }
    ensures same { IfOk result (λ regions. length regions.items ≡ length order.now) }
    ensures enclosed { IfOk result (λ regions.
        EachRoot (IsEnclosed coords.now order.now regions.items) 0 (length order.now)) }
{
    let mut regions = Vec::with_capacity(alloc, order.len())?;
    for &unit in order {
        regions.push(region_at(&coords[unit], unit))?;
    }
    enclose(coords, order, regions.as_mut_slice(), 0, order.len());
    Ok(regions)
}
