//! The direction of a circuit.

ghost use Rattle.std.specs.{Prelude.{◌≡◌, ◌≤◌, ◌<◌, ◌^◌, ◌-◌, ℕ, MatchOption, false, length, pos, take, unsigned_abs}, List.{All}};
ghost use Rattle.smp_frac.specs.Limits.{most_denominator, most_entry, number_limit};
ghost use Rattle.smp_kernel.specs.Vectors.{IsZero, Within, entry};
ghost use Rattle.smp_stratcube.specs.{Units.{IsUnits, columns_of, share}, Kept.Gates.{held}};
ghost use Rattle.smp_moves.specs.{Steps.{product, signed, scale_of, scaled}, Kept.Computed.{IsLineOf, direction_fits}};
ghost use Rattle.smp_stratcube.specs.Kept.Lines.{AreInside, AreParts, IsPart, over, part};

use crate::fronts::Front;
use crate::units::Units;
use crate::values::within_gate;
use smp_kernel::Factors;
use smp_moves::{Line, Ratio, line_through, lowest};

/// The columns of the first units.
pub(crate) fn columns_of(units: &Units, front: &Front) -> [[i32; 16]; 17]
    requires are { IsUnits units.now }
    requires inside { AreInside (length units.now.members) front.now }
    ensures are { take front.now.number result
        ≡ columns_of units.now (take front.now.number front.now.units) }
    ensures within { All (Within (number_limit - 1)) (take front.now.number result) }
{
    let mut columns = [[0; 16]; 17];
    for place in 0..front.number {
        columns[place] = units.column(front.units[place]);
    }
    columns
}

/// The probability of a unit times its factor, without its sign.
fn product(share: Ratio, factor: i64) -> Ratio
    requires below { share.num < share.den }
    requires share { share.den ≤ 2 ^ 49 }
    requires factor { unsigned_abs factor ≤ most_entry }
    ensures is { result ≡ product share factor }
    ensures some { 1 ≤ result.den }
{
    lowest(share.num * factor.unsigned_abs() as u128, share.den)
}

/// The products of the units of a circuit, and their least common denominator.
fn parts_of(units: &Units, front: &Front, factors: &Factors) -> ([Ratio; 17], Option<u128>)
    requires are { IsUnits units.now }
    requires inside { AreInside (length units.now.members) front.now }
    requires fewer { factors.now.number ≤ front.now.number }
    requires small { (j : ℕ) → unsigned_abs (entry factors.now.w j) ≤ most_entry }
    ensures are { AreParts units.now front.now.units factors.now.w factors.now.number result.0 }
    ensures each { (j : ℕ) → j < factors.now.number → IsPart (part result.0 j) }
    ensures scale { let number = factors.now.number in
        let prefix = take number front.now.units in let w = take number factors.now.w in
        result.1 ≡ held (scale_of (share units.now) prefix w) }
{
    let mut parts = [Ratio { num: 0, den: 1 }; 17];
    let mut scale = Some(1);
    for place in 0..factors.number {
        let part = product(units.share(front.units[place]), factors.w[place]);
        parts[place] = part;
        scale = within_gate(scale, part.den);
    }
    (parts, scale)
}

/// A number with the sign of a factor.
fn signed(size: u128, factor: i64) -> i128
    requires size { size ≤ 2 ^ 124 }
    ensures is { result ≡ signed factor size }
    ensures bound { unsigned_abs result ≤ 2 ^ 124 }
{
    let number = size as i128;
    if factor < 0 { -number } else { number }
}

/// The products over the scale, with the signs of the factors, and 0 in the places past them.
fn products(parts: &[Ratio; 17], factors: &Factors, scale: u128) -> [i128; 17]
    requires short { factors.now.number ≤ 17 }
    requires each { (j : ℕ) → j < factors.now.number → IsPart (part parts.now j) }
    requires scale { scale ≤ most_denominator }
    ensures are { (j : ℕ) → j < factors.now.number → entry result j
        ≡ signed (entry factors.now.w j) (over (part parts.now j) scale) }
    ensures past { (j : ℕ) → factors.now.number ≤ j → entry result j ≡ pos 0 }
    ensures within { Within (2 ^ 124) result }
{
    let mut products = [0; 17];
    for place in 0..factors.number {
        let part = parts[place];
        products[place] = signed(part.num * (scale / part.den), factors.w[place]);
    }
    products
}

/// The direction of a circuit, where its numbers fit.
pub(crate) fn direction(units: &Units, front: &Front, factors: &Factors) -> Option<Line>
    requires are { IsUnits units.now }
    requires inside { AreInside (length units.now.members) front.now }
    requires fewer { factors.now.number ≤ front.now.number }
    requires small { (j : ℕ) → unsigned_abs (entry factors.now.w j) ≤ most_entry }
    requires some { let number = factors.now.number in
        let prefix = take number front.now.units in let w = take number factors.now.w in
        ¬ (IsZero (scaled (share units.now) (scale_of (share units.now) prefix w) prefix w)) }
    ensures { let number = factors.now.number in
        let prefix = take number front.now.units in let w = take number factors.now.w in
        MatchOption result
        (direction_fits (share units.now) prefix w ≡ false)
        (IsLineOf (share units.now) prefix w) }
{
    let (parts, scale) = parts_of(units, front, factors);
    match scale {
        None => None,
        Some(scale) => {
            let products = products(&parts, factors, scale);
            line_through(&front.units, factors.number, &products)
        }
    }
}
