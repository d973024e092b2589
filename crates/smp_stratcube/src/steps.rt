//! One step of the flight.

ghost use Rattle.std.specs.Prelude.{take};
ghost use Rattle.smp_kernel.specs.{RowReduction.{cut}, Searches.{IsSearch}, Searched.{answer, ArePadded}};
ghost use Rattle.smp_stratcube.specs.{Units.{columns_of}, States.{IsFlying}, Kept.Fronts.{IsFront}, Kept.Moves.{IsStep}};
ghost use Rattle.smp_stratcube.specs.{Kept.Computed.{flight_of}, Kept.Lines.{HasDirection}};

use crate::directions::{columns_of, direction};
use crate::ends::{denominator, end_fits, reach_along};
use crate::fronts::Front;
use crate::units::Units;
use crate::values::Value;
use smp_kernel::{Searched, Tables};
use smp_moves::{Line, Next, Reach, lowest};

/// A move along a line: the common denominator of the values of its units, how far the line is followed and how far its opposite, and
/// both weights.
#[derive(Clone, Copy)]
pub(crate) struct Move {
    pub(crate) line: Line,
    pub(crate) den: u128,
    pub(crate) up: Reach,
    pub(crate) down: Reach,
    pub(crate) plus_weight: u128,
    pub(crate) minus_weight: u128,
}

/// The step along a direction.
fn step_along(units: &Units, values: &[Value], rows: usize, front: &Front, line: Line) -> Next<Move>
    requires flying { IsFlying units.now (flight_of units.now values.now rows) }
    requires front { IsFront values.now front.now }
    requires line { HasDirection units.now (flight_of units.now values.now rows) line }
    ensures { IsStep units.now (flight_of units.now values.now rows) result }
{
    match denominator(units, values, front, &line) {
        None => Next::Wide,
        Some(den) => {
            let back = line.turned();
            let up = reach_along(values, den, &line);
            let down = reach_along(values, den, &back);
            if !end_fits(units, values, front, &line, den, up) {
                return Next::Wide;
            }
            if !end_fits(units, values, front, &back, den, down) {
                return Next::Wide;
            }
            let weights = lowest(down.left * up.size, up.left * down.size);
            Next::Move(Move {
                line,
                den,
                up,
                down,
                plus_weight: weights.num,
                minus_weight: weights.den,
            })
        }
    }
}

/// The step of these values with so many rows in force, of which these are the first fractional units, searched for by the tables of the
/// search before.
pub(crate) fn step(
    units: &Units,
    values: &[Value],
    rows: usize,
    front: &Front,
    tables: &mut Tables,
) -> Next<Move>
    requires flying { IsFlying units.now (flight_of units.now values.now rows) }
    requires front { IsFront values.now front.now }
    ensures { IsStep units.now (flight_of units.now values.now rows) result }
{
    let columns = columns_of(units, front);
    let searched = tables.search(&columns[..front.number], rows);
    step_found(units, values, rows, front, searched)
}

/// The step of these values, whose search finds this.
fn step_found(
    units: &Units,
    values: &[Value],
    rows: usize,
    front: &Front,
    searched: Searched,
) -> Next<Move>
    requires flying { IsFlying units.now (flight_of units.now values.now rows) }
    requires front { IsFront values.now front.now }
    requires is { let columns = columns_of units.now (take front.now.number front.now.units) in
        IsSearch rows (cut rows columns) (answer searched) }
    requires padded { ArePadded rows searched }
    ensures { IsStep units.now (flight_of units.now values.now rows) result }
{
    match searched {
        Searched::Independent => Next::Independent,
        Searched::TooWide => Next::Wide,
        Searched::Found(factors) => match direction(units, front, &factors) {
            None => Next::Wide,
            Some(line) => step_along(units, values, rows, front, line),
        },
    }
}
