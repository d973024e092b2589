//! Values in lowest terms.

ghost use Rattle.std.specs.Prelude.{◌≡◌, ◌*◌, ◌/◌, ◌<◌, ◌≤◌, length, true};
ghost use Rattle.smp_frac.specs.Limits.{most_denominator};
ghost use Rattle.smp_prob.specs.Given.{least_multiple};
ghost use Rattle.smp_values.specs.Values.{fractional};
ghost use Rattle.smp_moves.specs.Ends.{lowest};
ghost use Rattle.smp_stratcube.specs.{Values.{IsValue, value}, Kept.Gates.{IsSome, gated}};

use smp_frac::{gcd, lcm_within, quotient};
use smp_moves::{Ratio, lowest};

/// The greatest common denominator of values.
pub(crate) const GATE: u128 = 1 << 80;

/// A unit's value in lowest terms, and whether a move has changed it.
#[derive(Clone, Copy)]
pub(crate) struct Value {
    pub(crate) at: Ratio,
    pub(crate) touched: bool,
}

/// The value `a / b`, that a step leads to.
pub(crate) fn value_over(a: u128, b: u128) -> Value
    requires { 1 ≤ b }
    ensures { result ≡ record { at = lowest a b; touched = true } }
{
    Value {
        at: lowest(a, b),
        touched: true,
    }
}

impl Value {
    /// Whether it is strictly between 0 and 1.
    pub(crate) fn is_fractional(self) -> bool
        ensures { result ≡ fractional self.at.den self.at.num }
    {
        0 < self.at.num && self.at.num < self.at.den
    }

    /// Its numerator over a multiple of its denominator.
    #[tactic(auto, using(crate::proofs::Parts::over_within))]
    pub(crate) fn over(self, den: u128) -> u128
        requires { IsValue self }
        ensures is { result ≡ self.at.num * (den / self.at.den) }
        ensures most { result ≤ den }
    {
        self.at.num * (den / self.at.den)
    }
}

/// The value of a unit.
pub(crate) fn at(values: &[Value], unit: usize) -> Value
    requires { unit < length values.now }
    ensures { result ≡ value values.now unit }
{
    values[unit]
}

/// The least common multiple of a number and another, where both are there and it is at most the gate.
pub(crate) fn within_gate(multiple: Option<u128>, other: u128) -> Option<u128>
    requires some { IsSome multiple }
    requires other { 1 ≤ other }
    ensures is { result ≡ gated multiple other }
    ensures some { IsSome result }
{
    match multiple {
        None => None,
        Some(multiple) => lcm_within(multiple, other, GATE),
    }
}

/// The least common multiple of two numbers, which is at most the gate.
pub(crate) fn least_multiple(a: u128, b: u128) -> u128
    requires a { 1 ≤ a }
    requires b { 1 ≤ b }
    requires within { least_multiple a b ≤ most_denominator }
    ensures { result ≡ least_multiple a b }
{
    quotient(a, gcd(a, b)) * b
}
