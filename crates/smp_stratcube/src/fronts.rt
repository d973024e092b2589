//! The first fractional units.

ghost use Rattle.std.specs.Prelude.{◌≡◌, ℕ, ◌<◌, ◌≤◌, length, slice_index};
ghost use Rattle.smp_stratcube.specs.Kept.Fronts.{IsAhead, IsFilled, IsFront, IsStanding};

use crate::values::{Value, at};

/// The first fractional units, in the first places of an array. Each unit from the place on is fractional, and no step has changed it.
#[derive(Clone, Copy)]
pub(crate) struct Front {
    pub(crate) units: [usize; 17],
    pub(crate) number: usize,
    pub(crate) place: usize,
}

/// Where no unit has been looked at.
pub(crate) const EMPTY: Front = Front {
    units: [0; 17],
    number: 0,
    place: 0,
};

/// Those of the units of a front that are fractional.
fn standing(front: &Front, values: &[Value]) -> Front
    requires short { front.now.number ≤ 17 }
    requires within { (j : ℕ) → j < front.now.number
        → slice_index front.now.units j < length values.now }
    ensures { IsStanding values.now front.now result }
{
    let mut still = Front {
        units: [0; 17],
        number: 0,
        place: front.place,
    };
    for place in 0..front.number {
        let unit = front.units[place];
        if at(values, unit).is_fractional() {
            still.units[still.number] = unit;
            still.number += 1;
        }
    }
    still
}

/// A front filled up with the units from its place on.
fn filled(front: &Front, units: usize) -> Front
    requires short { front.now.number ≤ 17 }
    requires place { front.now.place ≤ units }
    ensures { IsFilled units front.now result }
{
    let mut array = front.units;
    let mut number = front.number;
    for unit in front.place..units {
        if number == 17 {
            return Front {
                units: array,
                number,
                place: unit,
            };
        }
        array[number] = unit;
        number += 1;
    }
    Front {
        units: array,
        number,
        place: units,
    }
}

/// The front of these values, where no unit is fractional but those of another front and those from its place on.
pub(crate) fn front_of(front: &Front, values: &[Value]) -> Front
    requires { IsAhead values.now front.now }
    ensures { IsFront values.now result }
{
    filled(&standing(front, values), values.len())
}
