//! Local pivotal selection in any number of dimensions, from one to four.

ghost use Rattle.std.specs.Prelude.{◌≡◌, ◌≤◌, length, IfOk};
ghost use Rattle.smp_prob.specs.Requests.{IsRequest};
ghost use Rattle.smp_split.specs.{Counts.{LeavesSelectAround}, Methods.{Starts}};
ghost use Rattle.smp_values.specs.Starts.{IsRequested};
ghost use Rattle.smp_localpiv.specs.{Coordinates.{points_of}, Local.{IsLocal, local_tree}, Method.{method_of, started}};

use crate::design::LocalPivotal;
use crate::dimensions::points;
use crate::state::LocalState;
use smp_frac::{NoMemory, Numbers};
use smp_near::ByDimensions;
use smp_prob::Request;
use smp_split::{Kind, Splitting};
use smp_values::SelectionState;
use std::alloc::Global;
use std::marker::Model;

/// A design that selects by local pivotal steps, over units that lie at points with one to four coordinates.
///
/// It is seen as the state before the first step. Its draw tree is that of [`LocalPivotal`], which doesn't depend on the
/// number of coordinates.
#[derive(Drop)]
pub struct AnyLocalPivotal {
    design: ByDimensions<LocalPivotal<1>, LocalPivotal<2>, LocalPivotal<3>, LocalPivotal<4>>,
}

impl Model for AnyLocalPivotal {
    ghost use Rattle.smp_localpiv.specs.Local.{Local};
    ghost use Rattle.smp_near.specs.Dimensions.{in_any};

    ghost Value = { Local };

    ghost view = { λ a. in_any a.design };
}

/// A state of a local pivotal selection over points with one to four coordinates.
#[derive(Drop)]
pub struct AnyLocalState {
    state: ByDimensions<LocalState<1>, LocalState<2>, LocalState<3>, LocalState<4>>,
}

impl Model for AnyLocalState {
    ghost use Rattle.smp_localpiv.specs.Local.{Local};
    ghost use Rattle.smp_near.specs.Dimensions.{in_any};

    ghost Value = { Local };

    ghost view = { λ a. in_any a.state };
}

// Whatever the number of coordinates: the state that a design makes, or what is said of either.
macro_rules! in_each {
    (of [$($count:ident),*] state $of:expr, $design:ident => $made:expr) => {
        match $of {
            $(ByDimensions::$count($design) => Ok(AnyLocalState { state: ByDimensions::$count($made) }),)*
        }
    };
    (of [$($count:ident),*] $of:expr, $inner:ident => $answer:expr) => {
        match $of {
            $(ByDimensions::$count($inner) => $answer,)*
        }
    };
    ($($said:tt)*) => {
        in_each!(of [One, Two, Three, Four] $($said)*)
    };
}

impl AnyLocalPivotal {
    /// The design of a request: its units are the request's free units, and each has the value that is requested of it.
    ///
    /// `values` has a list for each of the units, in their order, with its coordinates: so many of them, from 1 to 4, and 0 where
    /// the list is shorter.
    pub fn new(
        alloc: Global,
        request: &Request,
        coordinates: usize,
        values: &[Numbers],
    ) -> Result<AnyLocalPivotal, NoMemory>
        requires request { IsRequest request.now }
        requires coordinates { (1 ≤ coordinates) × (coordinates ≤ 4) }
        requires paired { length values.now ≡ length request.now.free }
        ensures design { IfOk result (λ design.
            design ≡ started request.now (points_of coordinates values.now)) }
        ensures requested { IfOk result (λ design.
            IsRequested (method_of design).tree request.now design) }
    {
        match coordinates {
            1 => Ok(AnyLocalPivotal {
                design: ByDimensions::One(located(alloc, request, values)?),
            }),
            2 => Ok(AnyLocalPivotal {
                design: ByDimensions::Two(located(alloc, request, values)?),
            }),
            3 => Ok(AnyLocalPivotal {
                design: ByDimensions::Three(located(alloc, request, values)?),
            }),
            _ => Ok(AnyLocalPivotal {
                design: ByDimensions::Four(located(alloc, request, values)?),
            }),
        }
    }

    /// The state before the first step. Over all draws, each unit is selected with the probability that is its value.
    /// Whatever is drawn, as many units are selected as the values add up to, or, where their sum isn't whole, one of the two
    /// whole numbers around it.
    pub fn start(&self, alloc: Global) -> Result<AnyLocalState, NoMemory>
        ensures state { IfOk result (λ state. state ≡ self.now) }
        ensures starts { IfOk result (Starts (method_of self.now)) }
        ensures around { IfOk result (LeavesSelectAround (method_of self.now).tree) }
    {
        in_each!(state &self.design, design => design.start(alloc)?)
    }
}

// The design of a request over points with `K` coordinates.
fn located<const K: usize>(
    alloc: Global,
    request: &Request,
    values: &[Numbers],
) -> Result<LocalPivotal<K>, NoMemory>
    requires request { IsRequest request.now }
    requires dimensions { (1 ≤ K) × (K ≤ 4) }
    requires paired { length values.now ≡ length request.now.free }
    ensures design { IfOk result (λ design. design ≡
        started request.now (points_of K values.now)) }
    ensures requested { IfOk result (λ design.
        IsRequested (method_of design).tree request.now design) }
{
    let coords = points::<K>(alloc, values)?;
    LocalPivotal::new(alloc, request, coords.as_slice())
}

impl SelectionState for AnyLocalState {
    ghost tree = { λ s. local_tree (length s.state.numer) };

    ghost belongs = { λ s. IsLocal (length s.state.numer) s };

    fn is_done(&self) -> bool {
        in_each!(&self.state, inner => inner.is_done())
    }

    fn kind(&self) -> Kind {
        in_each!(&self.state, inner => inner.kind())
    }

    fn bound(&self) -> u128 {
        in_each!(&self.state, inner => inner.bound())
    }

    fn advance(&mut self, draw: u128) {
        in_each!(&mut self.state, inner => inner.advance(draw))
    }

    fn is_selected(&self, unit: usize) -> bool {
        in_each!(&self.state, inner => inner.is_selected(unit))
    }
}

impl Splitting for AnyLocalPivotal {
    type State = AnyLocalState;

    ghost method = { λ design. method_of design };

    fn units(&self) -> usize {
        in_each!(&self.design, design => design.units())
    }

    fn done(&self, state: &AnyLocalState) -> bool {
        state.is_done()
    }

    fn kind(&self, state: &AnyLocalState) -> Kind {
        state.kind()
    }

    fn bound(&self, state: &AnyLocalState) -> u128 {
        state.bound()
    }

    fn advance(&self, state: &mut AnyLocalState, draw: u128) {
        state.advance(draw);
    }

    fn selected(&self, state: &AnyLocalState, unit: usize) -> bool {
        state.is_selected(unit)
    }
}
