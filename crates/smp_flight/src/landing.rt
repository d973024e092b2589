//! Flight and landing, as each selection has them that flies and then lands.

ghost use Rattle.std.specs.Prelude.{◌≡◌, ◌+◌, ◌≤◌, ◌<◌, IfOk, length};
ghost use Rattle.smp_frac.specs.Limits.{most_rows};
ghost use Rattle.smp_kernel.specs.RowReduction.{AreIndependent, cut};
ghost use Rattle.smp_values.specs.Values.{fractional_count, fractional_units, is_one, is_settled};
ghost use Rattle.smp_moves.specs.{Cubes.{landed, values_in}, Kept.Computed.{dropped}};
ghost use Rattle.smp_moves.specs.declared.phases.Phase.TheVariants.{Flying, Pairing};
ghost use Rattle.smp_flight.specs.{States.{AreFirst, IsFlight, columns_of, tracked_start}, Steps.{chosen}};
ghost use Rattle.smp_flight.specs.{Answers.{IsMoveOf, IsNextWindow, move_of}, Landings.{HasRoom, balancing_in}};

use crate::shapes::Shape;
use crate::states::{FlightState, start};
use crate::steps::{Move, apply};
use smp_frac::NoMemory;
use smp_kernel::Steps;
use smp_moves::Phase;
use smp_values::{PivotalSteps, Values};
use std::alloc::Global;
use std::sync::ledger::{Blank, Ledger};

/// Where a selection stands that flies and then lands.
///
/// The room for the values of the pivotal steps is there from the start: no step fails for want of it.
#[derive(Drop)]
pub struct Landing {
    pub flight: FlightState,
    pub phase: Phase,
    /// How many units were fractional where the landing began, and 0 as long as it hasn't begun.
    pub left: u32,
    pub room: Values,
    /// The pivotal steps, once they have begun.
    pub steps: PivotalSteps,
}

impl Landing {
    /// The state before the first step.
    pub fn start(alloc: Global, shape: &Shape) -> Result<Landing, NoMemory>
        ensures is { IfOk result (λ landing. landing.flight ≡ tracked_start shape.now) }
        ensures flying { IfOk result (λ landing. (landing.phase ≡ Flying) × (landing.left ≡ 0)) }
        ensures room { IfOk result (λ landing.
            HasRoom (length landing.flight.flight.values.numer) landing.room) }
        ensures flight { IfOk result (λ landing. IsFlight shape.now landing.flight.flight) }
        ensures first { IfOk result (λ landing.
            AreFirst landing.flight.flight landing.flight.window) }
    {
        let flight = start(alloc, shape)?;
        let units = flight.units();
        Ok(Landing {
            flight,
            phase: Phase::Flying,
            left: 0,
            room: Values::with_room(alloc, units)?,
            steps: PivotalSteps::from_values(Values::with_room(alloc, 0)?),
        })
    }

    /// Whether no unit is fractional.
    pub fn is_done(&self) -> bool
        ensures { result ≡ is_settled (values_in (balancing_in self.now)) }
    {
        match self.phase {
            Phase::Flying => self.flight.fractional() == 0,
            Phase::Pairing => self.steps.is_done(),
        }
    }

    /// Whether the value of a unit is 1.
    pub fn is_one(&self, unit: usize) -> bool
        requires { unit < length (values_in (balancing_in self.now)).numer }
        ensures { result ≡ is_one (values_in (balancing_in self.now)) unit }
    {
        match self.phase {
            Phase::Flying => self.flight.numer(unit) == self.flight.denom(),
            Phase::Pairing => self.steps.is_one(unit),
        }
    }

    /// Takes the last row in force away, where no direction is left: the landing begins, unless it began before.
    pub fn drop_row(&mut self, shape: &Shape)
        requires flight { IsFlight shape.now self.old.flight.flight }
        requires room { HasRoom (length self.old.flight.flight.values.numer) self.old.room }
        requires some { 1 ≤ self.old.flight.flight.rows }
        requires independent { let f = self.old.flight.flight in
            AreIndependent
            f.rows
            (cut f.rows (columns_of shape.now (fractional_units f.values))) }
        ensures is { self.new ≡ record self.old {
          flight = record self.old.flight { flight = dropped self.old.flight.flight };
          left = landed (fractional_count self.old.flight.flight.values) self.old.left;
        } }
        ensures flight { IsFlight shape.now self.new.flight.flight }
        ensures first { AreFirst self.new.flight.flight self.new.flight.window }
    {
        self.left = landed(&self.flight, self.left);
        self.flight.drop_row(shape);
    }

    /// Goes over to pivotal steps on the values as they are.
    pub fn settle(&mut self, _shape: &Shape)
        requires flight { IsFlight _shape.now self.old.flight.flight }
        requires room { HasRoom (length self.old.flight.flight.values.numer) self.old.room }
        ensures { self.new ≡ record {
          flight = self.old.flight;
          phase = Pairing;
          left = landed (fractional_count self.old.flight.flight.values) self.old.left;
          room = self.old.steps;
          steps = self.old.flight.flight.values;
        } }
    {
        self.left = landed(&self.flight, self.left);
        fill(&self.flight, &mut self.room);
        self.steps.set(&mut self.room);
        self.phase = Phase::Pairing;
    }
}

/// Sets the values to those of a flight, where they are as many.
fn fill(flight: &FlightState, values: &mut Values)
    requires { length values.old.numer ≡ length flight.now.flight.values.numer }
    ensures { values.new ≡ flight.now.flight.values }
{
    for unit in 0..values.len() {
        values.set(unit, flight.numer(unit));
    }
    values.set_denominator(flight.denom());
}

/// How many units were fractional where the landing began: here, unless `left` says that it began before.
fn landed(flight: &FlightState, left: u32) -> u32
    requires { length flight.now.flight.values.numer ≤ most_rows }
    ensures { result ≡ landed (fractional_count flight.now.flight.values) left }
{
    if left == 0 {
        flight.fractional() as u32
    } else {
        left
    }
}

/// Goes to an end of a move of the flight as [`apply`] does, counted on a ledger that nothing was written into. Numerators are written at
/// most one time more than there are rows in force.
pub fn fly<L: Ledger>(shape: &Shape, flight: &mut FlightState, mv: &Move, plus: bool, blank: Blank)
    requires flight { IsFlight shape.now flight.old.flight }
    requires mv { IsMoveOf shape.now flight.old mv.now }
    requires name { blank.name ≡ L.name }
    requires parts { blank.parts ≡ L.parts }
    requires some { 1 ≤ blank.parts }
    ensures is { flight.new.flight ≡ chosen shape.now flight.old.flight (move_of mv.now) plus }
    ensures flight { IsFlight shape.now flight.new.flight }
    ensures units { length flight.new.flight.values.numer
        ≡ length flight.old.flight.values.numer }
    ensures first { AreFirst flight.old.flight flight.old.window
        → AreFirst flight.old.flight (move_of mv.now).direction.units
        → AreFirst flight.new.flight flight.new.window }
    ensures window { IsNextWindow flight.old (move_of mv.now).direction flight.new }
    ensures rises { flight.old.writes ≤ flight.new.writes }
    ensures few { flight.new.writes ≤ flight.old.writes + (flight.old.flight.rows + 1) }
{
    let mut steps = Steps::<L>::new(blank);
    apply(shape, flight, mv, plus, &mut steps);
}
