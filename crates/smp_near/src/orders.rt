//! The order in which a tree has its points.
#![tactic(auto)]

ghost use Rattle.std.specs.{Prelude.{◌≡◌, ◌<◌, length, ◌∷◌, ◌++◌, IfOk}, List.Sorted.{IsPermutation}};
ghost use Rattle.smp_near.specs.Kept.Trees.{IsOrder};

use smp_places::numbers_below;
use std::alloc::{AllocError, Global};

// A coordinate of a point, or 0 where there is none.
fn coordinate<const K: usize>(coords: &[[i32; K]], unit: usize, axis: usize) -> i32 {
    match coords.get(unit) {
        Some(at) if axis < K => at[axis],
        _ => 0,
    }
}

// How far apart these points lie along an axis.
fn width_of<const K: usize>(coords: &[[i32; K]], order: &[usize], axis: usize) -> u32 {
    let mut lowest = i32::MAX;
    let mut highest = i32::MIN;
    for &unit in order {
        let here = coordinate(coords, unit, axis);
        lowest = lowest.min(here);
        highest = highest.max(here);
    }
    highest.abs_diff(lowest)
}

// The axis along which these points lie farthest apart.
fn widest_axis<const K: usize>(coords: &[[i32; K]], order: &[usize]) -> usize {
    let mut widest = 0;
    let mut width = 0;
    for axis in 0..K {
        let here = width_of(coords, order, axis);
        if width < here {
            widest = axis;
            width = here;
        }
    }
    widest
}

// The root of a tree of these points, with those before it along the widest axis and those behind it, in no order of their own.
fn parted<'a, const K: usize>(
    coords: &[[i32; K]],
    points: &'a mut [usize],
) -> (&'a mut [usize], usize, &'a mut [usize])
    requires some { 0 < length points.old }
    ensures permutation { IsPermutation points.old (result.0.now ++ result.1 ∷ result.2.now) }
    ensures before { length result.0.now < length points.old }
    ensures behind { length result.2.now < length points.old }
{
    let axis = widest_axis(coords, points);
    let middle = points.len() / 2;
    let (before, root, behind) = points.select_nth_unstable_by_key(
        middle,
        |&unit| (coordinate(coords, unit, axis), unit),
    );
    (before, *root, behind)
}

// Adds points in the order of a tree to those before: what lies before the root, the root, and what lies behind it.
fn arrange<const K: usize>(
    coords: &[[i32; K]],
    points: &mut [usize],
    order: &mut Vec<usize>,
) -> Result<(), AllocError>
    ensures { IfOk result (λ _. IsPermutation (order.old.items ++ points.old) order.new.items) }
{
    if !points.is_empty() {
        let (before, root, behind) = parted(coords, points);
        arrange(coords, before, order)?;
        order.push(root)?;
        arrange(coords, behind, order)?;
    }
    Ok(())
}

/// The numbers of the points, in the order of a tree.
pub(crate) fn order_of<const K: usize>(
    alloc: Global,
    coords: &[[i32; K]],
) -> Result<Vec<usize>, AllocError>
    ensures { IfOk result (λ order. IsOrder (length coords.now) order.items) }
{
    let mut points = numbers_below(alloc, coords.len())?;
    let mut order = Vec::with_capacity(alloc, coords.len())?;
    arrange(coords, points.as_mut_slice(), &mut order)?;
    Ok(order)
}
