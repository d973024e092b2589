//! The cube over all strata as a design.

ghost use Rattle.std.specs.Prelude.{◌≡◌, ◌≤◌, IfOk, length};
ghost use Rattle.smp_moves.specs.Cubes.{left_in, values_in};
ghost use Rattle.smp_stratcube.specs.{Layers.{AreLayers}, Units.{IsUnits, Units, units_of}, Requests.{AreRequested}};
ghost use Rattle.smp_stratcube.specs.{States.{started}, Balances.{IsBalanced}, Counts.{HasCounts}, Method.{method_of}};
ghost use Rattle.smp_split.specs.Methods.{HasMeans};

use crate::fronts::{EMPTY, front_of};
use crate::layers::Layers;
use crate::making::units_of;
use crate::state::{StratCourse, StratCubeState, fractional};
use crate::steps::step;
use crate::units::Units;
use crate::values::{Value, at};
use smp_frac::NoMemory;
use smp_kernel::Tables;
use smp_moves::{Course, Phase};
use smp_split::{Kind, Splitting};
use std::alloc::Global;
use std::marker::Model;
use std::snapshot::Snapshot;

/// A design that selects by the cube over all strata.
///
/// It is seen as its units, stratum by stratum: their columns, and the probabilities that are requested of them.
#[derive(Drop)]
pub struct StratCube {
    units: Units,
}

impl Model for StratCube {
    ghost Value = { Units };

    ghost view = { λ a. a.units };

    ghost invariant = { λ a. IsUnits a.units };
}

/// The values that are requested of the units.
fn requested(alloc: Global, units: &Units) -> Result<Vec<Value>, NoMemory>
    ensures { IfOk result (λ values. values.items ≡ values_in (started units.now)) }
{
    let mut values = Vec::with_capacity(alloc, units.len())?;
    for unit in 0..units.len() {
        values.push(units.requested(unit))?;
    }
    Ok(values)
}

impl StratCube {
    /// The design of some strata, at least one: their units, stratum by stratum, of which each has the value that is requested of it.
    pub fn new(alloc: Global, layers: &Layers) -> Result<StratCube, NoMemory>
        requires { AreLayers layers.now }
        ensures design { IfOk result (λ design. design ≡ units_of layers.now) }
        ensures requested { IfOk result (λ design. AreRequested layers.now (started design)) }
    {
        Ok(StratCube {
            units: units_of(alloc, layers)?,
        })
    }

    /// The state before the first step. Over all draws, each unit is selected with the probability that is its value. Where the values
    /// of a stratum add up to a whole number, that many of its units are. The flight keeps the sum of the values of each stratum and
    /// the total of each variable over all strata, and the units that are fractional where the landing begins bound the error of each
    /// estimate.
    pub fn start(&self, alloc: Global) -> Result<StratCubeState, NoMemory>
        ensures state { IfOk result (λ state. state ≡ started self.now) }
        ensures means { IfOk result (HasMeans (method_of self.now)) }
        ensures counts { IfOk result (HasCounts self.now) }
        ensures balanced { IfOk result (IsBalanced self.now) }
    {
        let values = requested(alloc, &self.units)?;
        let all = self.units.rows();
        let slice = values.as_slice();
        let front = front_of(&EMPTY, slice);
        let mut tables = Tables::new(alloc, all);
        let next = step(&self.units, slice, all, &front, &mut tables);
        let course = StratCourse {
            values,
            rows: all,
            front,
            phase: Phase::Flying,
            left: 0,
            tables,
            found: Box::new(alloc, next)?,
            of: Snapshot::of(&self.units),
        };
        Ok(StratCubeState { course })
    }

    /// How many units were fractional where the landing began, and 0 as long as it hasn't begun.
    pub fn left(&self, state: &StratCubeState) -> u32
        ensures { result ≡ left_in state.now }
    {
        state.course.left
    }
}

impl Splitting for StratCube {
    type State = StratCubeState;

    ghost method = { λ design. method_of design };

    fn units(&self) -> usize {
        self.units.len()
    }

    #[tactic(auto, using(crate::proofs::Keeping::values_of))]
    fn done(&self, state: &StratCubeState) -> bool {
        fractional(state.course.values.as_slice(), &state.course.front) == 0
    }

    fn kind(&self, state: &StratCubeState) -> Kind {
        state.course.kind(&self.units)
    }

    fn bound(&self, state: &StratCubeState) -> u128 {
        state.course.bound(&self.units)
    }

    fn advance(&self, state: &mut StratCubeState, draw: u128) {
        state.course.advance(&self.units, draw);
    }

    #[tactic(auto, using(crate::proofs::Keeping::values_of))]
    fn selected(&self, state: &StratCubeState, unit: usize) -> bool {
        let value = at(state.course.values.as_slice(), unit);
        value.at.num == value.at.den
    }
}
