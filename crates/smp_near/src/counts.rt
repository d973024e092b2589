//! The numbers of living points at the roots of a tree.
#![tactic(auto)]

ghost use Rattle.std.specs.Prelude.{◌≡◌, ℕ, ◌+◌, ◌-◌, ◌≤◌, ◌<◌, true, false, length, slice_index, slice_set, IfOk};
ghost use Rattle.smp_near.specs.Kept.Trees.{AreUnits, IsAlone, IsCounted, lives_at, living_before};
ghost use Rattle.smp_places.specs.Trees.{EachRoot};

use smp_places::middle_of;
use std::alloc::{AllocError, Global};

// Sets the numbers of living points at the roots of a tree, and gives that of the whole tree.
fn tally(living: &[bool], order: &[usize], counts: &mut [usize], low: usize, high: usize) -> usize
    requires units { AreUnits order.now (length living.now) }
    requires paired { length counts.old ≡ length order.now }
    requires within { high ≤ length order.now }
    ensures number { low ≤ high →
        result + living_before living.now order.now low ≡ living_before living.now order.now high }
    ensures few { result ≤ high - low }
    ensures counted { EachRoot (IsCounted living.now order.now counts.new) low high }
    ensures before { (place : ℕ) → place < low →
        slice_index counts.new place ≡ slice_index counts.old place }
    ensures behind { (place : ℕ) → high ≤ place →
        slice_index counts.new place ≡ slice_index counts.old place }
{
    if low < high {
        let root = middle_of(low, high);
        let first = tally(living, order, counts, low, root);
        let second = tally(living, order, counts, root + 1, high);
        let own = if living[order[root]] { 1 } else { 0 };
        counts[root] = first + own + second;
        first + own + second
    } else {
        0
    }
}

/// The numbers of living points at the roots of a tree.
pub(crate) fn counts_of(
    alloc: Global,
    living: &[bool],
    order: &[usize],
) -> Result<Vec<usize>, AllocError>
    requires units { AreUnits order.now (length living.now) }
    ensures same { IfOk result (λ counts. length counts.items ≡ length order.now) }
    ensures counted { IfOk result (λ counts.
        EachRoot (IsCounted living.now order.now counts.items) 0 (length order.now)) }
{
    let mut counts = vec![in alloc; 0; order.len()]?;
    tally(living, order, counts.as_mut_slice(), 0, order.len());
    Ok(counts)
}

/// Takes the point at a place out of a tree that it belongs to.
pub(crate) fn strike(
    living: &mut [bool],
    order: &[usize],
    counts: &mut [usize],
    low: usize,
    high: usize,
    place: usize,
)
    requires units { AreUnits order.now (length living.old) }
    requires paired { length counts.old ≡ length order.now }
    requires within { high ≤ length order.now }
    requires from { low ≤ place }
    requires before { place < high }
    requires alive { lives_at living.old order.now place ≡ true }
    requires alone { IsAlone order.now place }
    requires counted { EachRoot (IsCounted living.old order.now counts.old) low high }
    ensures gone { living.new ≡ slice_set living.old (slice_index order.now place) false }
    ensures counted { EachRoot (IsCounted living.new order.now counts.new) low high }
    ensures before { (k : ℕ) → k < low →
        slice_index counts.new k ≡ slice_index counts.old k }
    ensures behind { (k : ℕ) → high ≤ k →
        slice_index counts.new k ≡ slice_index counts.old k }
{
    let root = middle_of(low, high);
    if place < root {
        strike(living, order, counts, low, root, place);
        counts[root] -= 1;
    } else if root < place {
        strike(living, order, counts, root + 1, high, place);
        counts[root] -= 1;
    } else {
        living[order[place]] = false;
        counts[root] -= 1;
    }
}
