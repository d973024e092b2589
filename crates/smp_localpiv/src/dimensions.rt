//! The points of units.

ghost use Rattle.std.specs.Prelude.{◌≡◌, ◌≤◌, IfOk};
ghost use Rattle.smp_localpiv.specs.Coordinates.{point_of, points_of};

use smp_frac::{NoMemory, Numbers};
use std::alloc::Global;

// The first values as coordinates, 0 where there are fewer.
fn point<const K: usize>(values: &[i32]) -> [i32; K]
    requires { K ≤ 4 }
    ensures { result ≡ point_of K values.now }
{
    let mut point = [0; K];
    for k in 0..K {
        point[k] = match values.get(k) {
            Some(value) => *value,
            None => 0,
        };
    }
    point
}

/// Where the units with these values lie: the coordinates of each, as many as `K`, from 1 to 4, are its values, and 0 where there
/// are fewer.
pub fn points<const K: usize>(alloc: Global, values: &[Numbers]) -> Result<Vec<[i32; K]>, NoMemory>
    requires { K ≤ 4 }
    ensures { IfOk result (λ points. points.items ≡ points_of K values.now) }
{
    let mut points = Vec::new(alloc);
    for unit in values {
        points.push(point(unit.as_slice()))?;
    }
    Ok(points)
}
