ghost use Rattle.std.specs.{Prelude.{◌≡◌, ℕ, ◌≤◌, ◌<◌, ◌/◌, ◌%◌, IfSome, IfNone}, Int.{IsGcd}};
ghost use Rattle.smp_frac.specs.Divisors.{greatest_common_divisor, IsCommonMultiple, IsLeastMultiple, IsContent};

/// The greatest common divisor; that of 0 and 0 is 0.
///
/// Numbers of 64 bits are divided as such, which takes a fraction of the time.
pub fn gcd(a: u128, b: u128) -> u128
    ensures divides { IsGcd a b result }
    ensures greatest { result ≡ greatest_common_divisor a b }
{
    let mut x = a;
    let mut y = b;
    while y > u64::MAX as u128 {
        let rest = x % y;
        x = y;
        y = rest;
    }
    if y == 0 {
        return x;
    }
    small_gcd(y as u64, remainder(x, y as u64)) as u128
}

/// What is left of a division by a number of 64 bits.
fn remainder(a: u128, b: u64) -> u64
    requires { 1 ≤ b }
    ensures { result ≡ a % b }
{
    if a <= u64::MAX as u128 {
        a as u64 % b
    } else {
        (a % b as u128) as u64
    }
}

/// The quotient, rounded down. Numbers of 64 bits are divided as such, and nothing is divided by 1.
pub fn quotient(a: u128, b: u128) -> u128
    requires { 1 ≤ b }
    ensures { result ≡ a / b }
{
    if b == 1 {
        return a;
    }
    if a <= u64::MAX as u128 && b <= u64::MAX as u128 {
        (a as u64 / b as u64) as u128
    } else {
        a / b
    }
}

// The same of numbers of 64 bits.
fn small_gcd(a: u64, b: u64) -> u64
    ensures { IsGcd a b result }
{
    let mut left = a;
    let mut right = b;
    while right != 0 {
        let rest = left % right;
        left = right;
        right = rest;
    }
    left
}

/// The least common multiple, or `None` where it passes `cap`.
pub fn lcm_within(a: u128, b: u128, cap: u128) -> Option<u128>
    requires first { 1 ≤ a }
    requires second { 1 ≤ b }
    ensures least { IfSome result (IsLeastMultiple a b) }
    ensures within { IfSome result (λ m. m ≤ cap) }
    ensures passes { IfNone result ((m : ℕ) → IsCommonMultiple a b m → cap < m) }
{
    let multiple = quotient(a, gcd(a, b)).checked_mul(b)?;
    if multiple <= cap {
        Some(multiple)
    } else {
        None
    }
}

/// The greatest common divisor of the absolute values, 0 where all are 0.
pub fn content(row: &[i128]) -> u128
    ensures { IsContent row.now result }
{
    let mut divisor = 0;
    for entry in row {
        if divisor == 1 {
            return 1;
        }
        divisor = gcd(divisor, entry.unsigned_abs());
    }
    divisor
}
