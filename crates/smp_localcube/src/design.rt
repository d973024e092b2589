//! The local cube as a design.

ghost use Rattle.std.specs.Prelude.{◌≡◌, ◌↔◌, ◌≤◌, IfOk, length, true};
ghost use Rattle.smp_prob.specs.Requests.{IsRequest};
ghost use Rattle.smp_split.specs.Methods.{Starts};
ghost use Rattle.smp_values.specs.Starts.{IsRequested};
ghost use Rattle.smp_moves.specs.Cubes.{left_in};
ghost use Rattle.smp_flight.specs.{Landings.{IsBalanced}, Narrow.{IsNarrow}, Requests.{AreValues, units_of}};
ghost use Rattle.smp_localcube.specs.{Kept.States.{IsPlaced}, Local.{local_of}, Method.{LocalUnits, method_of, started}};

use crate::state::{LocalCourse, LocalCubeState, Looked};
use smp_flight::{Landing, Shape, is_narrow};
use smp_frac::{NoMemory, Numbers};
use smp_kernel::Tables;
use smp_moves::Course;
use smp_near::Points;
use smp_places::Amounts;
use smp_prob::Request;
use smp_split::{Kind, Splitting};
use std::alloc::Global;
use std::marker::Model;

/// A design that selects by the local cube, over units that lie at points with `K` whole coordinates, `K` from 1 to 4.
///
/// It is seen as its units, their sizes, their columns and the probabilities that are requested of them, and as their points.
#[derive(Drop)]
pub struct LocalCube<const K: usize> {
    pub(crate) shape: Shape,
    coords: Vec<[i32; K]>,
    units: usize,
}

impl<const K: usize> Model for LocalCube<K> {
    ghost Value = { LocalUnits };

    ghost view = { λ a. record { units = a.shape; coords = a.coords.items } };

    ghost invariant = { λ a. IsPlaced K a.shape a.coords.items a.units };
}

impl<const K: usize> LocalCube<K> {
    /// The design of a request: its units are the request's free units, with a list of balancing values and a point for each of them,
    /// and each has the value that is requested of it.
    pub fn new(
        alloc: Global,
        request: &Request,
        xs: &[Numbers],
        coords: &[[i32; K]],
    ) -> Result<LocalCube<K>, NoMemory>
        requires request { IsRequest request.now }
        requires dimensions { (1 ≤ K) × (K ≤ 4) }
        requires one_each { length xs.now ≡ length request.now.free }
        requires placed { length coords.now ≡ length request.now.free }
        requires values { AreValues xs.now }
        ensures design { IfOk result (λ design. design
            ≡ record { units = units_of request.now xs.now; coords = coords.now }) }
        ensures requested { IfOk result (λ design.
            IsRequested (method_of design).tree request.now (started design)) }
    {
        Ok(LocalCube {
            shape: Shape::new(alloc, request, xs)?,
            coords: Vec::from_slice(alloc, coords)?,
            units: request.shape.as_slice().len(),
        })
    }

    /// The state before the first step. Over all draws, each unit is selected with the probability that is its value, and where the
    /// values add up to a whole number, that many units are. The flight keeps each balancing total, and the units that are fractional
    /// where the landing begins bound the error of each estimate.
    pub fn start(&self, alloc: Global) -> Result<LocalCubeState<K>, NoMemory>
        ensures state { IfOk result (λ state. state ≡ started self.now) }
        ensures starts { IfOk result (Starts (method_of self.now)) }
        ensures balanced { IfOk result (IsBalanced (local_of self.now.units)) }
    {
        let rows = self.shape.rows();
        let course = LocalCourse {
            landing: Landing::start(alloc, &self.shape)?,
            points: Points::new(alloc, self.coords.as_slice())?,
            weights: Amounts::ones(alloc, self.units)?,
            chosen: None,
            looked: Looked {
                found: Box::new(alloc, None)?,
                tables: Tables::new(alloc, rows),
            },
        };
        Ok(LocalCubeState { course })
    }

    /// Whether the numbers of the units are so small that no step of a selection is wide, whatever is drawn: exactly where some bounds of
    /// the rows, and some common multiple of denominator and sizes, are within the gates. Then no more units are left where a landing
    /// begins than there are rows, by the clause `balanced` of [`LocalCube::start`].
    pub fn is_narrow(&self) -> bool
        ensures { result ≡ true ↔ IsNarrow self.now.units }
    {
        is_narrow(&self.shape)
    }

    /// How many units were fractional where the landing began, and 0 as long as it hasn't begun.
    pub fn left(&self, state: &LocalCubeState<K>) -> u32
        ensures { result ≡ left_in state.now.at }
    {
        state.course.landing.left
    }
}

impl<const K: usize> Splitting for LocalCube<K> {
    type State = LocalCubeState<K>;

    ghost method = { λ design. method_of design };

    fn units(&self) -> usize {
        self.units
    }

    fn done(&self, state: &LocalCubeState<K>) -> bool {
        state.course.landing.is_done()
    }

    fn kind(&self, state: &LocalCubeState<K>) -> Kind {
        state.course.kind(&self.shape)
    }

    fn bound(&self, state: &LocalCubeState<K>) -> u128 {
        state.course.bound(&self.shape)
    }

    fn advance(&self, state: &mut LocalCubeState<K>, draw: u128) {
        state.course.advance(&self.shape, draw);
    }

    fn selected(&self, state: &LocalCubeState<K>, unit: usize) -> bool {
        state.course.landing.is_one(unit)
    }
}
