//! Pivotal steps, stratum by stratum.

ghost use Rattle.std.specs.Prelude.{◌≡◌, ◌<◌, ◌≤◌, Some, false, length, slice_index};
ghost use Rattle.smp_frac.specs.Limits.{most_denominator};
ghost use Rattle.smp_split.specs.Trees.{picked, weight_sum};
ghost use Rattle.smp_values.specs.Steps.{kind_on};
ghost use Rattle.smp_stratcube.specs.{Units.{IsUnits}, Values.{fractional_units, is_settled, stratum_common}};
ghost use Rattle.smp_stratcube.specs.{Pairs.{first_pair, paired_parts, step_units}, States.{IsPairing}, Kept.Fronts.{IsFront}};
ghost use Rattle.smp_stratcube.specs.Kept.Pairs.{AreMet, HasStratum, IsMeeting, settled_at};

use crate::fronts::Front;
use crate::units::Units;
use crate::values::{Value, at, least_multiple, value_over};
use smp_split::Kind;
use smp_values::{pair_apply, pair_bound};

/// The first two fractional units of the first stratum that has two: neighbours in the front, as units stand stratum by stratum.
fn first_pair(units: &Units, values: &[Value], front: &Front) -> Option<(usize, usize)>
    requires are { IsUnits units.now }
    requires count { length values.now ≡ length units.now.members }
    requires front { IsFront values.now front.now }
    ensures { result ≡ first_pair units.now (fractional_units values.now) }
{
    for place in 1..front.number {
        let before = front.units[place - 1];
        let unit = front.units[place];
        if units.stratum(before) == units.stratum(unit) {
            return Some((before, unit));
        }
    }
    None
}

/// The least common denominator of the fractional values of a stratum that has a unit in the front.
fn stratum_common(units: &Units, values: &[Value], front: &Front, stratum: usize) -> u128
    requires pairing { IsPairing units.now values.now }
    requires front { IsFront values.now front.now }
    requires within { HasStratum units.now front.now stratum }
    ensures { result ≡ stratum_common units.now values.now stratum }
{
    let mut common = 1;
    for place in 0..front.number {
        let unit = front.units[place];
        if units.stratum(unit) == stratum {
            common = least_multiple(common, at(values, unit).at.den);
        }
    }
    if front.place < units.len() && units.stratum(front.place) == stratum {
        least_multiple(common, units.behind(front.place))
    } else {
        common
    }
}

/// The kind of the next step.
pub(crate) fn kind(units: &Units, values: &[Value], front: &Front) -> Kind
    requires pairing { IsPairing units.now values.now }
    requires front { IsFront values.now front.now }
    ensures { result ≡ kind_on (step_units units.now values.now) }
{
    match first_pair(units, values, front) {
        Some(_) => Kind::Pivot,
        None => Kind::Lone,
    }
}

/// The values of two units that meet, over the common denominator of their stratum.
#[derive(Clone, Copy)]
struct TwoValues {
    first: u128,
    second: u128,
    den: u128,
}

/// How the first two units of a stratum meet.
fn meeting(units: &Units, values: &[Value], front: &Front, pair: (usize, usize)) -> TwoValues
    requires pairing { IsPairing units.now values.now }
    requires front { IsFront values.now front.now }
    requires pair { first_pair units.now (fractional_units values.now) ≡ Some pair }
    ensures is { IsMeeting units.now values.now pair result }
    ensures first { (1 ≤ result.first) × (result.first < result.den) }
    ensures second { (1 ≤ result.second) × (result.second < result.den) }
    ensures narrow { result.den ≤ most_denominator }
{
    let den = stratum_common(units, values, front, units.stratum(pair.0));
    TwoValues {
        first: at(values, pair.0).over(den),
        second: at(values, pair.1).over(den),
        den,
    }
}

/// The bound of the next step's draw.
pub(crate) fn bound(units: &Units, values: &[Value], front: &Front) -> u128
    requires pairing { IsPairing units.now values.now }
    requires front { IsFront values.now front.now }
    requires going { is_settled values.now ≡ false }
    ensures { result ≡ weight_sum (paired_parts units.now values.now) }
{
    match first_pair(units, values, front) {
        Some(pair) => {
            let two = meeting(units, values, front, pair);
            pair_bound(two.first, two.second, two.den)
        }
        None => stratum_common(units, values, front, units.stratum(front.units[0])),
    }
}

/// The values of two units after they met.
fn met(
    units: &Units,
    values: &[Value],
    front: &Front,
    pair: (usize, usize),
    draw: u128,
) -> (Value, Value)
    requires pairing { IsPairing units.now values.now }
    requires front { IsFront values.now front.now }
    requires pair { first_pair units.now (fractional_units values.now) ≡ Some pair }
    requires within { draw < weight_sum (paired_parts units.now values.now) }
    ensures { AreMet units.now values.now pair draw result }
{
    let two = meeting(units, values, front, pair);
    let (taken, left) = pair_apply(two.first, two.second, two.den, draw);
    (value_over(taken, two.den), value_over(left, two.den))
}

/// The value of the first fractional unit after it was settled by itself.
fn settled(units: &Units, values: &[Value], front: &Front, draw: u128) -> Value
    requires pairing { IsPairing units.now values.now }
    requires front { IsFront values.now front.now }
    requires going { is_settled values.now ≡ false }
    ensures { result ≡ settled_at units.now values.now (slice_index front.now.units 0) draw }
{
    let unit = front.units[0];
    let den = stratum_common(units, values, front, units.stratum(unit));
    if draw < at(values, unit).over(den) {
        value_over(den, den)
    } else {
        value_over(0, den)
    }
}

/// Makes the step that a draw leads to.
pub(crate) fn advance(units: &Units, values: &mut Vec<Value>, front: &Front, draw: u128)
    requires pairing { IsPairing units.now values.old.items }
    requires front { IsFront values.old.items front.now }
    requires going { is_settled values.old.items ≡ false }
    requires within { draw < weight_sum (paired_parts units.now values.old.items) }
    ensures { values.new.items
        ≡ picked values.old.items (paired_parts units.now values.old.items) draw }
{
    match first_pair(units, values.as_slice(), front) {
        Some((first, second)) => {
            let (a, b) = met(units, values.as_slice(), front, (first, second), draw);
            values[first] = a;
            values[second] = b;
        }
        None => {
            let value = settled(units, values.as_slice(), front, draw);
            values[front.units[0]] = value;
        }
    }
}
