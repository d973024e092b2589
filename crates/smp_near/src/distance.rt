//! Squared distances.
#![tactic(auto)]

ghost use Rattle.std.specs.Prelude.{◌≡◌, ◌+◌, ◌*◌, ◌^◌, ◌<◌, ◌-ℤ◌, unsigned_abs};
ghost use Rattle.smp_near.specs.{Nearest.{squared_distance}, Kept.Regions.{region_distance, squared_gap}};

// The square of the difference of two coordinates.
fn squared_difference(a: i32, b: i32) -> u128
    ensures is { result ≡ unsigned_abs (a -ℤ b) * unsigned_abs (a -ℤ b) }
    ensures narrow { result < 2 ^ 64 }
{
    let difference = a.abs_diff(b) as u128;
    difference * difference
}

/// The sum of the squared differences of the coordinates.
///
/// Each of the squares is below 2^64, so the sum is exact in 128 bits.
pub(crate) fn squared_distance<const K: usize>(a: &[i32; K], b: &[i32; K]) -> u128
    ensures { result ≡ squared_distance a.now b.now }
{
    let mut sum = 0;
    for axis in 0..K {
        sum += squared_difference(a[axis], b[axis]);
    }
    sum
}

// The square of the distance of a coordinate from a range.
fn squared_gap(lowest: i32, highest: i32, a: i32) -> u128
    ensures is { result ≡ squared_gap lowest highest a }
    ensures narrow { result < 2 ^ 64 }
{
    if a < lowest {
        squared_difference(lowest, a)
    } else if highest < a {
        squared_difference(a, highest)
    } else {
        0
    }
}

/// The least squared distance that a point of a region may have.
pub(crate) fn region_distance<const K: usize>(
    lowest: &[i32; K],
    highest: &[i32; K],
    a: &[i32; K],
) -> u128
    ensures { result ≡ region_distance lowest.now highest.now a.now }
{
    let mut sum = 0;
    for axis in 0..K {
        sum += squared_gap(lowest[axis], highest[axis], a[axis]);
    }
    sum
}
