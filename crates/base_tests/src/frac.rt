use smp_frac::{Frac, content, difference, gcd, lcm_within};
use std::cmp::Ordering;
use std::test::Fail;

#[test]
fn divisors(rt: HostRuntime) -> Result<(), Fail> {
    let divisors = [
        gcd(0, 0),
        gcd(u128::MAX, u128::MAX - 1),
        content(&[]),
        content(&[-12, 0, 18]),
        content(&[i128::MIN + 1]),
    ];
    assert_eq!(rt; divisors, [0, 1, 0, 6, u128::MAX >> 1]);
    let multiples = [
        lcm_within(u128::MAX, u128::MAX, u128::MAX),
        lcm_within(1 << 127, 3, u128::MAX),
    ];
    assert_eq!(rt; multiples, [Some(u128::MAX), None]);
    Ok(())
}

// A numerator and a denominator.
type Numbers = (u128, u128);

fn numbers(fraction: Frac) -> Numbers {
    (fraction.num(), fraction.den())
}

fn frac((num, den): Numbers) -> Option<Frac> {
    Frac::new(num, den)
}

fn order(left: Numbers, right: Numbers) -> Option<Ordering> {
    Some(frac(left)?.order(frac(right)?))
}

fn sum(left: Numbers, right: Numbers) -> Option<Numbers> {
    Some(numbers(frac(left)?.add(frac(right)?).ok()?))
}

fn product(left: Numbers, right: Numbers) -> Option<Numbers> {
    Some(numbers(frac(left)?.mul(frac(right)?).ok()?))
}

// Whether the difference is below 0, and its size.
fn distance(left: Numbers, right: Numbers) -> Option<(bool, Numbers)> {
    let found = difference(frac(left)?, frac(right)?).ok()?;
    Some((found.minus, numbers(found.size)))
}

/// 2^126.
const LIMIT: u128 = 1 << 126;
/// 2^63, whose neighbours have the product 2^126 - 1.
const ROOT: u128 = 1 << 63;

#[test]
fn orders(rt: HostRuntime) -> Result<(), Fail> {
    let top = (u128::MAX, u128::MAX - 1);
    let below = (u128::MAX - 1, u128::MAX - 2);
    assert_eq!(rt; order((0, 1), (1, u128::MAX)), Some(Ordering::Less));
    assert_eq!(rt; order((1 << 127, 1), (3, 2)), Some(Ordering::Greater));
    assert_eq!(rt; order(top, below), Some(Ordering::Less));
    assert_eq!(rt;
        order((top.1, top.0), (below.1, below.0)),
        Some(Ordering::Greater)
    );
    Ok(())
}

#[test]
fn sums(rt: HostRuntime) -> Result<(), Fail> {
    assert_eq!(rt; sum((LIMIT - 2, 1), (1, 1)), Some((LIMIT - 1, 1)));
    assert_eq!(rt; sum((LIMIT - 1, 1), (1, 1)), None);
    assert_eq!(rt; sum((LIMIT - 1, 2), (1, 2)), None);
    assert_eq!(rt;
        sum((1, ROOT - 1), (1, ROOT + 1)),
        Some((2 * ROOT, LIMIT - 1))
    );
    assert_eq!(rt; sum((1, LIMIT), (0, 1)), None);
    Ok(())
}

#[test]
fn products(rt: HostRuntime) -> Result<(), Fail> {
    assert_eq!(rt; product((LIMIT, 3), (1, 2)), Some((LIMIT / 2, 3)));
    assert_eq!(rt; product((ROOT - 1, 1), (ROOT + 1, 1)), Some((LIMIT - 1, 1)));
    assert_eq!(rt; product((ROOT, 1), (ROOT, 1)), None);
    assert_eq!(rt; product((1, ROOT - 1), (1, ROOT + 1)), Some((1, LIMIT - 1)));
    assert_eq!(rt; product((1, ROOT), (1, ROOT)), None);
    Ok(())
}

#[test]
fn differences(rt: HostRuntime) -> Result<(), Fail> {
    assert_eq!(rt; distance((2, 3), (2, 3)), Some((false, (0, 1))));
    assert_eq!(rt;
        distance((0, 1), (LIMIT - 1, 1)),
        Some((true, (LIMIT - 1, 1)))
    );
    assert_eq!(rt; distance((LIMIT, 1), (LIMIT, 1)), None);
    assert_eq!(rt;
        distance((1, ROOT - 1), (1, ROOT + 1)),
        Some((false, (2, LIMIT - 1)))
    );
    assert_eq!(rt; distance((1, ROOT), (1, ROOT + 1)), None);
    Ok(())
}
