//! The ends of a line.

ghost use Rattle.std.specs.Prelude.{◌≡◌, ◌≤◌, ◌<◌, ◌*◌, ◌/◌, ℕ, List, length, nat_le, slice_index, take};
ghost use Prim.Native.Nat.{◌∣◌};
ghost use Rattle.smp_frac.specs.Limits.{most_denominator, most_entry};
ghost use Rattle.smp_moves.specs.{Moves.{IsLine, entry_of}, Ends.{reach}, Answers.{IsPadded, line_of}};
ghost use Rattle.smp_moves.specs.Kept.Ends.{CanMove, HasSmallEntries};
ghost use Rattle.smp_stratcube.specs.{Units.{IsUnits, first}, Values.{IsValue, AreValues, common_of, over_common, value}};
ghost use Rattle.smp_stratcube.specs.{Kept.Fronts.{IsFront}, Kept.Gates.{IsSome, held, with_unit}, Kept.Lines.{AreInside}};
ghost use Rattle.smp_stratcube.specs.{Kept.Moves.{AreMoved, IsAlong, end_gathered, joined}, Kept.Computed.{moved_value}};

use crate::fronts::Front;
use crate::units::Units;
use crate::values::{Value, at, value_over, within_gate};
use smp_frac::{gcd, quotient};
use smp_moves::{Line, Reach, advanced, nearer, reach_of};

/// The common denominator with what a unit of this value adds to it where it is touched and fractional: the common denominator of its
/// stratum, and its own.
fn with_value(units: &Units, common: Option<u128>, unit: usize, value: Value) -> Option<u128>
    requires are { IsUnits units.now }
    requires unit { unit < length units.now.members }
    requires den { 1 ≤ value.at.den }
    requires some { IsSome common }
    ensures is { result ≡ with_unit (first units.now unit) value common }
    ensures some { IsSome result }
{
    if value.touched && value.is_fractional() {
        within_gate(within_gate(common, units.first(unit)), value.at.den)
    } else {
        common
    }
}

/// The common denominator of a state and of the strata of a line, where it fits.
pub(crate) fn denominator(
    units: &Units,
    values: &[Value],
    front: &Front,
    line: &Line,
) -> Option<u128>
    requires are { IsUnits units.now }
    requires values { AreValues (length units.now.members) values.now }
    requires front { IsFront values.now front.now }
    requires padded { IsPadded line.now }
    requires line { (j : ℕ) → j < line.now.number
        → slice_index line.now.units j < length units.now.members }
    ensures { result ≡ held (common_of units.now values.now (line_of line.now).units) }
{
    let mut common = Some(1);
    for place in 0..front.number {
        let unit = front.units[place];
        common = with_value(units, common, unit, at(values, unit));
    }
    for entry in 0..line.number {
        common = within_gate(common, units.first(line.units[entry]));
    }
    common
}

/// The reach of the unit of a line that meets its end first.
pub(crate) fn reach_along(values: &[Value], den: u128, line: &Line) -> Reach
    requires values { (k : ℕ) → IsValue (value values.now k) }
    requires den { den ≤ most_denominator }
    requires padded { IsPadded line.now }
    requires small { HasSmallEntries line.now }
    requires line { (j : ℕ) → j < line.now.number
        → slice_index line.now.units j < length values.now }
    ensures is { result ≡ reach (over_common den values.now) (line_of line.now) }
    ensures bounds { (result.left ≤ most_denominator) × (result.size ≤ most_entry) }
{
    let mut least = Reach { left: 1, size: 0 };
    for place in 0..line.number {
        let a = at(values, line.units[place]).over(den);
        least = nearer(least, reach_of(a, den, line.entries[place]));
    }
    least
}

/// The value there of a unit of this entry.
pub(crate) fn moved(value: Value, den: u128, reach: Reach, entry: i64) -> Value
    requires value { IsValue value }
    requires den { (1 ≤ den) × (den ≤ most_denominator) }
    requires size { 1 ≤ reach.size }
    requires can { CanMove (value.at.num * (den / value.at.den)) reach entry }
    ensures { result ≡ moved_value value den reach entry }
{
    if entry == 0 {
        return value;
    }
    value_over(advanced(value.over(den), reach, entry), den * reach.size)
}

/// The common denominator at an end of a line, as far as its units were looked at. Those that the line moves stand over one denominator
/// there.
#[derive(Clone, Copy)]
struct Gathered {
    /// That of the strata of the units, and of the values of those that the line doesn't move.
    common: Option<u128>,
    /// What the denominator of the others has in common with all their numerators: over the rest of it they are in lowest terms together.
    shared: u128,
}

/// The same with a unit of this value, and of this entry on the line.
fn with_end(
    units: &Units,
    gathered: Gathered,
    unit: usize,
    value: Value,
    den: u128,
    reach: Reach,
    entry: i64,
) -> Gathered
    requires are { IsUnits units.now }
    requires unit { unit < length units.now.members }
    requires value { IsValue value }
    requires den { (1 ≤ den) × (den ≤ most_denominator) }
    requires size { 1 ≤ reach.size }
    requires can { CanMove (value.at.num * (den / value.at.den)) reach entry }
    requires some { IsSome gathered.common }
    requires shared { gathered.shared ∣ den * reach.size }
    ensures is { joined (den * reach.size) result
        ≡ with_unit (first units.now unit)
        (moved_value value den reach entry)
        (joined (den * reach.size) gathered) }
    ensures some { IsSome result.common }
    ensures shared { result.shared ∣ den * reach.size }
{
    if entry == 0 {
        return Gathered {
            common: with_value(units, gathered.common, unit, value),
            shared: gathered.shared,
        };
    }
    let full = den * reach.size;
    let number = advanced(value.over(den), reach, entry);
    if number == 0 || full <= number {
        return gathered;
    }
    Gathered {
        common: within_gate(gathered.common, units.first(unit)),
        shared: gcd(number, gathered.shared),
    }
}

/// Whether the common denominator fits at an end of a line.
pub(crate) fn end_fits(
    units: &Units,
    values: &[Value],
    front: &Front,
    line: &Line,
    den: u128,
    reach: Reach,
) -> bool
    requires are { IsUnits units.now }
    requires along { IsAlong (length units.now.members) values.now line.now den reach }
    requires inside { AreInside (length values.now) front.now }
    requires size { (1 ≤ reach.size) × (reach.size ≤ most_entry) }
    ensures { result ≡ end_gathered units.now values.now front.now (line_of line.now) den reach }
{
    let full = den * reach.size;
    let mut gathered = Gathered {
        common: Some(1),
        shared: full,
    };
    for place in 0..front.number {
        let unit = front.units[place];
        let entry = line.entry(unit);
        gathered = with_end(units, gathered, unit, at(values, unit), den, reach, entry);
    }
    within_gate(gathered.common, quotient(full, gathered.shared)).is_some()
}

/// Goes to the end of a line: each of its units is written, one whose entry is 0 with the value that it has.
pub(crate) fn go(values: &mut Vec<Value>, line: &Line, den: u128, reach: Reach)
    requires along { IsAlong (length values.old.items) values.old.items line.now den reach }
    requires inside { (j : ℕ) → j < line.now.number
        → slice_index line.now.units j < length values.old.items }
    requires size { 1 ≤ reach.size }
    ensures { AreMoved values.old.items values.new.items (line_of line.now) den reach }
{
    for place in 0..line.number {
        let unit = line.units[place];
        let value = values[unit];
        values[unit] = moved(value, den, reach, line.entries[place]);
    }
}
