ghost use Rattle.std.specs.Prelude.{◌≤◌};

use smp_frac::{Bytes, Frac, Signed, Text, Wide};
use smp_weights::{estimate, sample_bytes};
use std::alloc::Global;
use std::test::Fail;

fn frac(num: u128, den: u128) -> Frac
    requires num { 1 ≤ num }
    requires den { 1 ≤ den }
    ensures { 1 ≤ result.num }
{
    Frac::new(num, den).unwrap()
}

// The sign and the numbers of a total.
fn numbers(total: Result<Signed, Wide>) -> Option<(bool, u128, u128)> {
    let total = total.ok()?;
    Some((total.minus, total.size.num, total.size.den))
}

/// 2^64.
const TOP: u128 = 1 << 64;

#[test]
fn totals(rt: HostRuntime) -> Result<(), Fail> {
    let least = estimate(&[i64::MIN], &[frac(1, 2)], &[true]);
    assert_eq!(rt; numbers(least), Some((true, TOP, 1)));

    // The first two terms have the sum 3, and the last two a denominator of 2^127 or more.
    let part = TOP - 1;
    let forward = [
        frac(part, TOP),
        frac(part, 2 * part - 1),
        frac(TOP - 3, TOP),
    ];
    let backward = [forward[2], forward[1], forward[0]];
    let total = estimate(&[1, 1, 1], &forward, &[true, true, true]);
    assert_eq!(rt; numbers(total), Some((false, 4 * TOP - 9, TOP - 3)));
    let wide = estimate(&[1, 1, 1], &backward, &[true, true, true]);
    assert_eq!(rt; numbers(wide), None);
    Ok(())
}

fn sample(alloc: Global) -> Result<Bytes, Fail> {
    let ids = [Text::from_str(alloc, "x,1")?, Text::from_str(alloc, "y")?];
    Ok(sample_bytes(alloc, &ids, &[frac(2, 3), frac(1, 3)], &[true, false])?)
}

#[test]
fn samples(rt: HostRuntime) -> Result<(), Fail> {
    let text = sample(rt.alloc())?;
    assert_eq!(rt; text.as_slice(), b"id,weight\n\"x,1\",3/2\n".as_slice());
    Ok(())
}
