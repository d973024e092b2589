ghost use Rattle.std.specs.Prelude.{◌≡◌, ◌≤◌, length, filter, IfOk};
ghost use Rattle.smp_frac.specs.{Fractions.{Same}, Exact.{signed_fraction}};
ghost use Rattle.smp_weights.specs.{Chosen.{ChosenArePositive, chosen_units}, Totals.{estimate_of, term_of, total_of}};
ghost use Rattle.smp_weights.specs.Totals as Totals;
ghost use Rattle.smp_weights.specs.Values.{weighted_total};

use crate::weights::weight_of;
use smp_frac::{Frac, Signed, Wide, difference};

// The size of a value, times the weight of its unit.
fn term(value: i64, asked: Frac) -> Result<Frac, Wide>
    requires { 1 ≤ asked.num }
    ensures { result ≡ term_of (record { value = value; asked = asked }) }
{
    let size = Frac::new(value.unsigned_abs() as u128, 1).unwrap();
    size.mul(weight_of(asked))
}

// The sum of a total and a term.
fn with_term(total: Frac, value: i64, asked: Frac) -> Result<Frac, Wide>
    requires { 1 ≤ asked.num }
    ensures { result ≡ Totals.with_term total (record { value = value; asked = asked }) }
{
    total.add(term(value, asked)?)
}

// Whether a value is below zero, or above it.
fn has_sign(minus: bool, value: i64) -> bool
    ensures { result ≡ Totals.has_sign minus value }
{
    if minus { value < 0 } else { value > 0 }
}

// The sum of the terms of the chosen units whose values have the sign, added in order.
fn total(minus: bool, values: &[i64], asked: &[Frac], chosen: &[bool]) -> Result<Frac, Wide>
    requires asked { length asked.now ≡ length values.now }
    requires chosen { length chosen.now ≡ length values.now }
    requires positive { ChosenArePositive asked.now chosen.now }
    ensures { result ≡ total_of (filter (λ u. Totals.has_sign minus u.value)
        (chosen_units values.now asked.now chosen.now)) }
{
    let mut total = Frac::new(0, 1).unwrap();
    for (place, &value) in values.iter().enumerate() {
        if chosen[place] && has_sign(minus, value) {
            total = with_term(total, value, asked[place])?;
        }
    }
    Ok(total)
}

/// The weighted total of a value over the chosen units (Horvitz and Thompson 1952): each value
/// divided by the inclusion probability asked for its unit.
///
/// The terms above zero are added in order from 0/1 on, and those below zero, without their
/// signs, in the same way; the second sum is taken from the first. `Wide` comes exactly where one
/// of these products, sums or the difference needs a number of 2^126 or more. A unit that isn't
/// chosen counts for nothing, whatever its probability. It takes no memory.
pub fn estimate(values: &[i64], asked: &[Frac], chosen: &[bool]) -> Result<Signed, Wide>
    requires asked { length asked.now ≡ length values.now }
    requires chosen { length chosen.now ≡ length values.now }
    requires positive { ChosenArePositive asked.now chosen.now }
    ensures answer { result ≡ estimate_of (chosen_units values.now asked.now chosen.now) }

    // its value, in exact fractions
    ensures value { IfOk result (λ total. Same (signed_fraction total)
        (weighted_total (chosen_units values.now asked.now chosen.now))) }
{
    let above = total(false, values, asked, chosen)?;
    let below = total(true, values, asked, chosen)?;
    difference(above, below)
}
