//! The local cube in any number of dimensions, from one to four.

ghost use Rattle.std.specs.Prelude.{◌≡◌, IfOk};
ghost use Rattle.smp_split.specs.Methods.{Starts};
ghost use Rattle.smp_moves.specs.Cubes.{left_in};
ghost use Rattle.smp_flight.specs.Landings.{IsBalanced};
ghost use Rattle.smp_localcube.specs.{Local.{local_of}, Method.{method_of, started}};

use crate::design::LocalCube;
use crate::state::LocalCubeState;
use smp_flight::Shape;
use smp_frac::NoMemory;
use smp_moves::Course;
use smp_near::ByDimensions;
use smp_split::{Kind, Splitting};
use std::alloc::Global;
use std::marker::Model;

/// A design that selects by the local cube, over units that lie at points with one to four coordinates.
///
/// Its draw tree is that of [`LocalCube`], which doesn't depend on the number of coordinates.
#[derive(Drop)]
pub struct AnyLocalCube {
    /// The design over points with that number of coordinates.
    pub design: ByDimensions<LocalCube<1>, LocalCube<2>, LocalCube<3>, LocalCube<4>>,
}

impl Model for AnyLocalCube {
    ghost use Rattle.smp_localcube.specs.Method.{LocalUnits};
    ghost use Rattle.smp_near.specs.Dimensions.{in_any};

    ghost Value = { LocalUnits };

    ghost view = { λ a. in_any a.design };
}

/// A state of a selection by the local cube over points with one to four coordinates.
#[derive(Drop)]
pub struct AnyLocalCubeState {
    state: ByDimensions<LocalCubeState<1>, LocalCubeState<2>, LocalCubeState<3>, LocalCubeState<4>>,
}

impl Model for AnyLocalCubeState {
    ghost use Rattle.smp_localcube.specs.Local.{Local};
    ghost use Rattle.smp_near.specs.Dimensions.{in_any};

    ghost Value = { Local };

    ghost view = { λ a. in_any a.state };
}

// Whatever the number of coordinates: the state that a design makes, or what is said of either.
macro_rules! in_each {
    (of [$($count:ident),*] state $of:expr, $design:ident => $made:expr) => {
        match $of {
            $(ByDimensions::$count($design) => Ok(AnyLocalCubeState { state: ByDimensions::$count($made) }),)*
        }
    };
    (of [$($count:ident),*] $of:expr, $inner:ident => $answer:expr) => {
        match $of {
            $(ByDimensions::$count($inner) => $answer,)*
        }
    };
    ($($said:tt)*) => {
        in_each!(of [One, Two, Three, Four] $($said)*)
    };
}

impl AnyLocalCube {
    /// The state before the first step. Over all draws, each unit is selected with the probability that is its value, and where the
    /// values add up to a whole number, that many units are. The flight keeps each balancing total, and the units that are fractional
    /// where the landing begins bound the error of each estimate.
    pub fn start(&self, alloc: Global) -> Result<AnyLocalCubeState, NoMemory>
        ensures state { IfOk result (λ state. state ≡ started self.now) }
        ensures starts { IfOk result (Starts (method_of self.now)) }
        ensures balanced { IfOk result (IsBalanced (local_of self.now.units)) }
    {
        in_each!(state &self.design, design => design.start(alloc)?)
    }

    /// How many units were fractional where the landing began, and 0 as long as it hasn't begun.
    pub fn left(&self, state: &AnyLocalCubeState) -> u32
        ensures { result ≡ left_in state.now.at }
    {
        in_each!(&state.state, inner => inner.course.landing.left)
    }

    // The units, their sizes, columns and probabilities.
    fn shape(&self) -> &Shape
        ensures { result.now ≡ self.now.units }
    {
        in_each!(&self.design, design => &design.shape)
    }
}

impl Splitting for AnyLocalCube {
    type State = AnyLocalCubeState;

    ghost method = { λ design. method_of design };

    fn units(&self) -> usize {
        in_each!(&self.design, design => design.units())
    }

    fn done(&self, state: &AnyLocalCubeState) -> bool {
        in_each!(&state.state, inner => inner.course.landing.is_done())
    }

    fn kind(&self, state: &AnyLocalCubeState) -> Kind {
        in_each!(&state.state, inner => inner.course.kind(self.shape()))
    }

    fn bound(&self, state: &AnyLocalCubeState) -> u128 {
        in_each!(&state.state, inner => inner.course.bound(self.shape()))
    }

    fn advance(&self, state: &mut AnyLocalCubeState, draw: u128) {
        in_each!(&mut state.state, inner => inner.course.advance(self.shape(), draw))
    }

    fn selected(&self, state: &AnyLocalCubeState, unit: usize) -> bool {
        in_each!(&state.state, inner => inner.course.landing.is_one(unit))
    }
}
