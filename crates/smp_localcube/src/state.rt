//! The states of a selection by the local cube.

ghost use Rattle.std.specs.{Prelude.{◌≡◌, ◌≢◌, ℕ, ◌<◌, [], length, slice_index}, List.{AllPairs}};
ghost use Rattle.smp_moves.specs.Answers.{IsPadded, line_of};
ghost use Rattle.smp_localcube.specs.Kept.States.{AreTouched, Finds, IsKept, IsSearchable, IsSearched, state_of, weights_of};
ghost use Rattle.smp_localcube.specs.Local.{IsLocal, Local, local_tree};

use crate::orders::rising;
use smp_flight::{FlightState, Landing, Line, Move, Next, Shape, fly, step_on};
use smp_kernel::Tables;
use smp_moves::{Course, Phase};
use smp_near::Points;
use smp_places::Amounts;
use smp_split::Kind;
use std::marker::{Brand, Model};
use std::sync::ledger::Blank;

/// A state of a selection by the local cube.
#[derive(Drop)]
pub struct LocalCubeState<const K: usize> {
    pub(crate) course: LocalCourse<K>,
}

impl<const K: usize> Model for LocalCubeState<K> {
    ghost Value = { Local };

    ghost view = { λ a. state_of a.course.landing a.course.points a.course.chosen };

    ghost invariant = { λ a. IsKept a.course.landing a.course.points a.course.weights a.course.chosen a.course.looked.found.value };
}

/// What such a state keeps.
///
/// Its window has the units that moves have changed and left fractional. The points of the units that no move has changed are living,
/// and these have the weight 1: so a unit is chosen, and a changed one taken out, along one path of a tree. The tables of a search take
/// memory where there is some: no step fails for want of it.
#[derive(Drop)]
pub(crate) struct LocalCourse<const K: usize> {
    pub(crate) landing: Landing,
    pub(crate) points: Points<K>,
    pub(crate) weights: Amounts,
    pub(crate) chosen: Option<usize>,
    pub(crate) looked: Looked,
}

/// The next step of a flight, as it was looked for last.
#[derive(Drop)]
pub(crate) struct Looked {
    /// None where a unit is to be chosen first: in a box, since it takes more bytes than all else here.
    pub(crate) found: Box<Option<Next<Move>>>,
    /// The tables of that search, for the next one.
    pub(crate) tables: Tables,
}

impl Looked {
    /// Looks for the next step of a flight. Where there is a head, the search goes through one unit more than there are rows in force, or
    /// all.
    fn look<const K: usize>(
        &mut self,
        shape: &Shape,
        flight: &FlightState,
        points: &Points<K>,
        chosen: Option<usize>,
    )
        requires { IsSearchable shape.now flight.now points.now chosen }
        ensures { let f = flight.now in
            IsSearched f.flight.fixed f points.now.coords chosen self.new.found.value }
    {
        let touched = rising(flight.window(), flight.units());
        match touched.head(chosen) {
            None => *self.found = None,
            Some(head) => {
                let most = flight.rows() + 1;
                let first = touched.front(head);
                let order = first.with_more(points, head, most - first.number);
                let tables = &mut self.tables;
                *self.found = Some(step_on(shape, flight, &order.units, order.number, tables));
            }
        }
    }
}

/// Takes the units that a line changes out of those that no move has changed.
fn touch<const K: usize>(points: &mut Points<K>, weights: &mut Amounts, line: &Line)
    requires padded { IsPadded line.now }
    requires distinct { AllPairs (λ k m. k ≢ m) (line_of line.now).units }
    requires within { (place : ℕ) → place < line.now.number
        → slice_index line.now.units place < length points.old.living }
    requires weighed { weights.old ≡ weights_of points.old.living }
    ensures touched { AreTouched
        points.old
        (line_of line.now)
        (record { units = []; entries = [] })
        points.new }
    ensures weighed { weights.new ≡ weights_of points.new.living }
{
    for place in 0..line.number {
        let unit = line.units[place];
        if line.entries[place] != 0 && weights.as_slice()[unit] != 0 {
            points.remove(unit);
            weights.take_out(unit);
        }
    }
}

impl<const K: usize> Course for LocalCourse<K> {
    type Units = Shape;

    type State = LocalCubeState<K>;

    type Move = Move;

    ghost tree = { local_tree };

    ghost seen = { λ a. state_of a.landing a.points a.chosen };

    ghost belongs = { IsLocal };

    ghost is_kept = { λ a. IsKept a.landing a.points a.weights a.chosen a.looked.found.value };

    ghost finds = { λ shape a. Finds shape a.landing a.points a.weights a.chosen };

    fn found(&self, _shape: &Shape) -> Option<Next<Move>> {
        match self.landing.phase {
            Phase::Flying => *self.looked.found,
            Phase::Pairing => None,
        }
    }

    fn weights(&self, _shape: &Shape, mv: &Move) -> (u128, u128) {
        (mv.plus_weight, mv.minus_weight)
    }

    fn go_to_end(&mut self, shape: &Shape, mv: &Move, plus: bool) {
        touch(&mut self.points, &mut self.weights, &mv.direction);
        fly::<Brand>(shape, &mut self.landing.flight, mv, plus, Blank::new(1));
        self.chosen = None;
        self.looked
            .look(shape, &self.landing.flight, &self.points, None);
    }

    fn go_without_row(&mut self, shape: &Shape) {
        self.landing.drop_row(shape);
        self.looked
            .look(shape, &self.landing.flight, &self.points, self.chosen);
    }

    fn go_to_pivots(&mut self, shape: &Shape) {
        self.landing.settle(shape);
    }

    fn kind_apart(&self, _shape: &Shape) -> Kind {
        match self.landing.phase {
            Phase::Flying => Kind::Choose,
            Phase::Pairing => self.landing.steps.kind(),
        }
    }

    fn bound_apart(&self, _shape: &Shape) -> u128 {
        match self.landing.phase {
            Phase::Flying => self.weights.total() as u128,
            Phase::Pairing => self.landing.steps.bound(),
        }
    }

    fn go_apart(&mut self, shape: &Shape, draw: u128) {
        match self.landing.phase {
            Phase::Flying => {
                let unit = self.weights.find(draw);
                self.chosen = Some(unit);
                self.looked
                    .look(shape, &self.landing.flight, &self.points, Some(unit));
            }
            Phase::Pairing => self.landing.steps.advance(draw),
        }
    }
}
