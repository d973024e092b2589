//! The pivotal step on a pair of units.

ghost use Rattle.std.specs.Prelude.{◌≡◌, ℕ, ◌+◌, ◌<◌, ◌≤◌};
ghost use Rattle.smp_frac.specs.Limits.{most_denominator};
ghost use Rattle.smp_values.specs.Pairs.{pair_weights, pair_bound, pair_at};

/// The weights of the two parts of a step on a pair. They are not reduced.
#[derive(Clone, Copy, Debug, PartialEq, Eq)]
pub struct TwoWeights {
    /// Of the part in which the first unit takes what it can.
    pub first: u128,
    /// Of the part in which the second unit does.
    pub second: u128,
}

/// The weights of the step on two units whose values are `a` and `b` over `den`.
pub fn pair(a: u128, b: u128, den: u128) -> TwoWeights
    requires a_in { (1 ≤ a) × (a < den) }
    requires b_in { (1 ≤ b) × (b < den) }
    requires narrow { den ≤ most_denominator }
    ensures { result ≡ pair_weights a b den }
{
    if a + b <= den {
        TwoWeights {
            first: a,
            second: b,
        }
    } else {
        TwoWeights {
            first: den - b,
            second: den - a,
        }
    }
}

/// The bound of that step's draw, the sum of the two weights.
pub fn pair_bound(a: u128, b: u128, den: u128) -> u128
    requires a_in { (1 ≤ a) × (a < den) }
    requires b_in { (1 ≤ b) × (b < den) }
    requires narrow { den ≤ most_denominator }
    ensures { result ≡ pair_bound a b den }
{
    let weights = pair(a, b, den);
    weights.first + weights.second
}

/// The two values after that step, over the same `den`: a draw below the first weight leads to the first part.
pub fn pair_apply(a: u128, b: u128, den: u128, draw: u128) -> (u128, u128)
    requires a_in { (1 ≤ a) × (a < den) }
    requires b_in { (1 ≤ b) × (b < den) }
    requires narrow { den ≤ most_denominator }
    requires within { draw < pair_bound a b den }
    ensures { result ≡ pair_at a b den draw }
{
    let taken = (a + b).min(den);
    let left = a + b - taken;
    if draw < pair(a, b, den).first {
        (taken, left)
    } else {
        (left, taken)
    }
}
