//! A k-d tree of points, which lies in vectors and has no pointers.
//!
//! The places from `low` to `high` are a tree: its root is at their middle, and its halves are the places before and behind
//! the root. Each root has a region, in which the points of its tree lie, and the number of those that are living.
#![tactic(auto)]

ghost use Rattle.std.specs.Prelude.{◌≡◌, ℕ, ◌≤◌, ◌<◌, true, false, length, slice_index, slice_set, IfOk};
ghost use Rattle.smp_near.specs.Nearest.{all_living};
ghost use Rattle.smp_near.specs.Kept.Trees.{AreCounted, AreEnclosed, IsAlone, IsOrder, IsSized, lives_at, points_of};

use crate::counts::{counts_of, strike};
use crate::orders::order_of;
use crate::region::Region;
use crate::regions::regions_of;
use std::alloc::{AllocError, Global};

/// A tree of points, some of which are living.
#[derive(Drop)]
pub(crate) struct Tree<const K: usize> {
    pub(crate) coords: Vec<[i32; K]>,
    pub(crate) living: Vec<bool>,
    pub(crate) order: Vec<usize>,
    pub(crate) regions: Vec<Region<K>>,
    pub(crate) counts: Vec<usize>,
}

/// The tree of the points with these coordinates, all of them living.
pub(crate) fn tree_of<const K: usize>(
    alloc: Global,
    coords: &[[i32; K]],
) -> Result<Tree<K>, AllocError>
    requires few { (1 ≤ K) × (K ≤ 4) }
    ensures points { IfOk result (λ tree. points_of tree ≡ all_living coords.now) }
    ensures sized { IfOk result (λ tree. IsSized tree) }
    ensures order { IfOk result (λ tree. IsOrder (length coords.now) tree.order.items) }
    ensures enclosed { IfOk result (λ tree. AreEnclosed tree 0 (length coords.now)) }
    ensures counted { IfOk result (λ tree. AreCounted tree 0 (length coords.now)) }
{
    let order = order_of(alloc, coords)?;
    let living = vec![in alloc; true; coords.len()]?;
    let regions = regions_of(alloc, coords, order.as_slice())?;
    let counts = counts_of(alloc, living.as_slice(), order.as_slice())?;
    Ok(Tree {
        coords: Vec::from_slice(alloc, coords)?,
        living,
        order,
        regions,
        counts,
    })
}

/// Takes the point at a place out of a tree.
pub(crate) fn take_out<const K: usize>(tree: &mut Tree<K>, place: usize)
    requires sized { IsSized tree.old }
    requires place { place < length tree.old.coords.items }
    requires alive { lives_at tree.old.living.items tree.old.order.items place ≡ true }
    requires alone { IsAlone tree.old.order.items place }
    requires counted { AreCounted tree.old 0 (length tree.old.coords.items) }
    ensures living { tree.new.living.items ≡
        slice_set tree.old.living.items (slice_index tree.old.order.items place) false }
    ensures counted { AreCounted tree.new 0 (length tree.old.coords.items) }
    ensures counts { length tree.new.counts.items ≡ length tree.old.counts.items }
    ensures coords { tree.new.coords.items ≡ tree.old.coords.items }
    ensures order { tree.new.order.items ≡ tree.old.order.items }
    ensures regions { tree.new.regions.items ≡ tree.old.regions.items }
{
    let end = tree.coords.len();
    strike(
        tree.living.as_mut_slice(),
        tree.order.as_slice(),
        tree.counts.as_mut_slice(),
        0,
        end,
        place,
    );
}
