//! The states of a selection.

ghost use Rattle.std.specs.Prelude.{◌≡◌, ◌+◌, ◌*◌, ◌≤◌, length};
ghost use Rattle.smp_frac.specs.Limits.{most_rows};
ghost use Rattle.smp_moves.specs.Cubes.{landed};
ghost use Rattle.smp_stratcube.specs.{States.{Balancing, IsBalancing, IsFlying}, Values.{fractional_count}};
ghost use Rattle.smp_stratcube.specs.{Kept.Trees.{strat_tree}, Kept.Fronts.{IsFront}, Kept.Moves.{HasGone, IsMoveOf}};
ghost use Rattle.smp_stratcube.specs.{Kept.Computed.{flight_of}, Kept.States.{Finds, IsKept, seen}};

use crate::ends::go;
use crate::fronts::{Front, front_of};
use crate::pairs::{advance, bound, kind};
use crate::steps::{Move, step};
use crate::units::Units;
use crate::values::Value;
use smp_kernel::Tables;
use smp_moves::{Course, Next, Phase};
use smp_split::Kind;
use std::marker::Model;
use std::snapshot::Snapshot;

/// A state of a selection by the cube over all strata.
#[derive(Drop)]
pub struct StratCubeState {
    pub(crate) course: StratCourse,
}

impl Model for StratCubeState {
    ghost Value = { Balancing };

    ghost view = { λ a. seen a.course };

    ghost invariant = { λ a. IsKept a.course };
}

/// What such a state keeps.
#[derive(Drop)]
pub(crate) struct StratCourse {
    pub(crate) values: Vec<Value>,
    pub(crate) rows: usize,
    pub(crate) front: Front,
    pub(crate) phase: Phase,
    pub(crate) left: u32,
    /// The tables of the search before, for the next one.
    pub(crate) tables: Tables,
    /// The next step of the flight, as long as it goes on: in a box, since it takes more bytes than all else here.
    pub(crate) found: Box<Next<Move>>,
    /// The units that it is a state of, for contracts alone: it takes no bytes.
    pub(crate) of: Snapshot<Units>,
}

/// How many units are fractional.
#[tactic(auto, using(crate::proofs::Ahead::front_count))]
pub(crate) fn fractional(values: &[Value], front: &Front) -> usize
    requires { IsFront values.now front.now }
    ensures is { result ≡ fractional_count values.now }
    ensures few { result ≤ 17 + length values.now }
{
    front.number + (values.len() - front.place)
}

/// How many units were fractional where the landing began: here, unless it began before.
fn landed(values: &[Value], front: &Front, left: u32) -> u32
    requires few { length values.now ≤ 15 * most_rows }
    requires front { IsFront values.now front.now }
    ensures { result ≡ landed (fractional_count values.now) left }
{
    if left == 0 {
        fractional(values, front) as u32
    } else {
        left
    }
}

/// Keeps a step in place of the one before.
fn keep(found: &mut Box<Next<Move>>, step: Next<Move>)
    ensures { found.new.value ≡ step }
{
    **found = step;
}

/// Goes to an end of a move.
fn fly(units: &Units, values: &mut Vec<Value>, rows: usize, mv: &Move, plus: bool)
    requires flying { IsFlying units.now (flight_of units.now values.old.items rows) }
    requires mv { IsMoveOf units.now (flight_of units.now values.old.items rows) mv.now }
    ensures { HasGone units.now (flight_of units.now values.old.items rows)
        mv.now plus values.new.items }
{
    if plus {
        go(values, &mv.line, mv.den, mv.up);
    } else {
        go(values, &mv.line.turned(), mv.den, mv.down);
    }
}

impl Course for StratCourse {
    type Units = Units;

    type State = StratCubeState;

    type Move = Move;

    ghost tree = { strat_tree };

    ghost seen = { seen };

    ghost belongs = { IsBalancing };

    ghost is_kept = { IsKept };

    ghost finds = { Finds };

    fn found(&self, _units: &Units) -> Option<Next<Move>> {
        match self.phase {
            Phase::Flying => Some(*self.found),
            Phase::Pairing => None,
        }
    }

    fn weights(&self, _units: &Units, mv: &Move) -> (u128, u128) {
        (mv.plus_weight, mv.minus_weight)
    }

    fn go_to_end(&mut self, units: &Units, mv: &Move, plus: bool) {
        fly(units, &mut self.values, self.rows, mv, plus);
        let values = self.values.as_slice();
        self.front = front_of(&self.front, values);
        let next = step(units, values, self.rows, &self.front, &mut self.tables);
        keep(&mut self.found, next);
    }

    fn go_without_row(&mut self, units: &Units) {
        let values = self.values.as_slice();
        self.left = landed(values, &self.front, self.left);
        self.rows -= 1;
        let next = step(units, values, self.rows, &self.front, &mut self.tables);
        keep(&mut self.found, next);
    }

    fn go_to_pivots(&mut self, _units: &Units) {
        self.left = landed(self.values.as_slice(), &self.front, self.left);
        self.phase = Phase::Pairing;
    }

    fn kind_apart(&self, units: &Units) -> Kind {
        kind(units, self.values.as_slice(), &self.front)
    }

    fn bound_apart(&self, units: &Units) -> u128 {
        bound(units, self.values.as_slice(), &self.front)
    }

    fn go_apart(&mut self, units: &Units, draw: u128) {
        advance(units, &mut self.values, &self.front, draw);
        self.front = front_of(&self.front, self.values.as_slice());
    }
}
