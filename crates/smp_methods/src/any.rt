//! The design of a request by any of the methods, and its states.

ghost use Rattle.std.specs.Prelude.{◌≡◌, ◌<◌, false, IfOk};
ghost use Rattle.smp_prob.specs.Requests.{IsRequest};
ghost use Rattle.smp_split.specs.Trees.{weight_sum};
ghost use Rattle.smp_stratcube.specs.States as stratified;
ghost use Rattle.smp_stratcube.specs.{Layers.{AreLayers}, Requests.{AreRequested}, Units.{units_of}};
ghost use Rattle.smp_methods.specs.{Designs.{design_of, design_of_strata, first_state, left_at, variant_of}, Methods.{method_of}};
ghost use Rattle.smp_methods.specs.Kept.Alone.{AroundAlone, CountAlone, RequestedAlone, StepsAlone, StrataAlone};
ghost use Rattle.smp_methods.specs.Procedures.{NeedsWhole, TakesValues};

use crate::Boxed;
use crate::local::local_cube;
use crate::stratified::stratified_cube;
use smp_design::{Method, Procedure, each_method};
use smp_frac::{NoMemory, Numbers};
use smp_prob::Request;
use smp_split::{Kind, Splitting};
use smp_stratcube::{Layers, StratCube};
use std::alloc::Global;

/// The design of a request by a procedure, in the variant of its method. Its units are the
/// request's free units.
#[derive(Drop)]
pub enum AnyDesign {
    Pivotal(smp_pivotal::Pivotal),
    Systematic(smp_pivotal::Systematic),
    MinimumSupport(smp_minsup::MinimumSupport),
    Brewer(smp_brewer::Brewer),
    LocalPivotal(smp_localpiv::AnyLocalPivotal),
    Cube(smp_flight::Cube),
    Elimination(smp_elim::Elimination),
    LocalCube(smp_localcube::AnyLocalCube),
    StratifiedCube(smp_stratcube::StratCube),
}

/// A state of a design, in the variant of its method, each in a box of its own.
#[derive(Drop)]
pub enum AnyState {
    Pivotal(Boxed<smp_pivotal::PivotalState>),
    Systematic(Boxed<smp_pivotal::SystematicState>),
    MinimumSupport(Boxed<smp_minsup::SupportState>),
    Brewer(Boxed<smp_brewer::BrewerState>),
    LocalPivotal(Boxed<smp_localpiv::AnyLocalState>),
    Cube(Boxed<smp_flight::CubeState>),
    Elimination(Boxed<smp_elim::EliminationState>),
    LocalCube(Boxed<smp_localcube::AnyLocalCubeState>),
    StratifiedCube(Boxed<smp_stratcube::StratCubeState>),
}

// What the design of a method says, whichever method it is: of itself; a state that it makes; or of
// a state, with the last word for a state of another method.
macro_rules! by_method {
    (of [$($method:ident $row:tt),*] $any:expr, $design:ident => $answer:expr) => {
        match $any {
            $(AnyDesign::$method($design) => $answer,)*
        }
    };
    (of [$($method:ident $row:tt),*] $any:expr, $design:ident => state $answer:expr) => {
        match $any {
            $(AnyDesign::$method($design) => Ok(AnyState::$method($answer)),)*
        }
    };
    (
        of [$($method:ident $row:tt),*]
        $any:expr, $state:expr, ($design:ident, $inner:ident) => $answer:expr, $other:expr
    ) => {
        match ($any, $state) {
            $((AnyDesign::$method($design), AnyState::$method($inner)) => $answer,)*
            _ => $other,
        }
    };
    ($($said:tt)*) => {
        each_method!(by_method: $($said)*)
    };
}

impl AnyDesign {
    /// The design of a request by a procedure. Each free unit has the value that is requested.
    #[tactic(auto, unfolding(smp_design::specs::Words::row))]
    pub(crate) fn new(
        alloc: Global,
        procedure: Procedure,
        request: &Request,
        values: &[Numbers],
        points: &[Numbers],
    ) -> Result<AnyDesign, NoMemory>
        requires request { IsRequest request.now }
        requires whole { NeedsWhole procedure request.now }
        requires values { TakesValues procedure request.now values.now points.now }
        ensures design { IfOk result (λ design.
            design ≡ design_of procedure request.now values.now points.now) }
        ensures requested { IfOk result (λ design.
            RequestedAlone request.now (variant_of design)) }
    {
        let Procedure { order, near, .. } = procedure;
        Ok(match procedure.method {
            Method::Pivotal => {
                AnyDesign::Pivotal(smp_pivotal::Pivotal::new(alloc, request, order)?)
            }
            Method::Systematic => {
                AnyDesign::Systematic(smp_pivotal::Systematic::new(alloc, request, order)?)
            }
            Method::MinimumSupport => {
                AnyDesign::MinimumSupport(smp_minsup::MinimumSupport::new(alloc, request)?)
            }
            Method::Brewer => AnyDesign::Brewer(smp_brewer::Brewer::new(alloc, request)?),
            Method::LocalPivotal => AnyDesign::LocalPivotal(smp_localpiv::AnyLocalPivotal::new(
                alloc, request, near, points,
            )?),
            Method::Cube => AnyDesign::Cube(smp_flight::Cube::new(alloc, request, values)?),
            Method::Elimination => {
                AnyDesign::Elimination(smp_elim::Elimination::new(alloc, request)?)
            }
            Method::LocalCube => {
                AnyDesign::LocalCube(local_cube(alloc, request, values, near, points)?)
            }
            Method::StratifiedCube => {
                AnyDesign::StratifiedCube(stratified_cube(alloc, request, values)?)
            }
        })
    }

    /// The design of all these strata together.
    pub(crate) fn of_strata(alloc: Global, layers: &Layers) -> Result<AnyDesign, NoMemory>
        requires { AreLayers layers.now }
        ensures design { IfOk result (λ design. design ≡ design_of_strata layers.now) }
        ensures requested { IfOk result (λ design.
            AreRequested layers.now (stratified.started (units_of layers.now))) }
    {
        Ok(AnyDesign::StratifiedCube(StratCube::new(alloc, layers)?))
    }

    /// The state before the first step.
    #[tactic(auto, unfolding(smp_design::specs::Words::row))]
    pub(crate) fn start(&self, alloc: Global) -> Result<AnyState, NoMemory>
        ensures state { IfOk result (λ state. state ≡ first_state self.now) }
        ensures member { IfOk result (method_of self.now).belongs }
        ensures count { IfOk result (CountAlone (variant_of self.now)) }
        ensures strata { IfOk result (StrataAlone self.now) }
        ensures around { IfOk result (AroundAlone (variant_of self.now)) }
    {
        by_method!(self, design => state Boxed::new(alloc, design.start(alloc)?)?)
    }

    /// How many units were undecided where the landing of the cube, of the local cube or of the cube over
    /// all strata began: 0 as long as it hasn't begun, and by any other method.
    pub fn left(&self, state: &AnyState) -> u32
        ensures { result ≡ left_at self.now state.now }
    {
        match (self, state) {
            (AnyDesign::Cube(design), AnyState::Cube(inner)) => design.left(inner.get()),
            (AnyDesign::LocalCube(design), AnyState::LocalCube(inner)) => design.left(inner.get()),
            (AnyDesign::StratifiedCube(design), AnyState::StratifiedCube(inner)) => {
                design.left(inner.get())
            }
            _ => 0,
        }
    }

    // Makes the step that a draw leads to, by the method itself.
    #[tactic(auto, using(crate::proofs::Moved::bound_moved))]
    fn step(&self, state: &mut AnyState, draw: u128)
        requires state { (method_of self.now).belongs state.old }
        requires going { (method_of self.now).tree.done state.old ≡ false }
        requires within { draw < weight_sum ((method_of self.now).tree.parts state.old) }
        ensures { StepsAlone (variant_of self.now) state.old state.new draw }
    {
        by_method!(
            self, state, (design, inner) => return design.advance(&mut inner.state, draw), unreachable!()
        )
    }
}

impl Splitting for AnyDesign {
    type State = AnyState;

    ghost method = { λ design. method_of design };

    fn units(&self) -> usize {
        by_method!(self, design => design.units())
    }

    fn done(&self, state: &AnyState) -> bool {
        by_method!(self, state, (design, inner) => design.done(inner.get()), true)
    }

    fn kind(&self, state: &AnyState) -> Kind {
        by_method!(self, state, (design, inner) => design.kind(inner.get()), Kind::Pivot)
    }

    #[tactic(auto, using(crate::proofs::Moved::bound_moved))]
    fn bound(&self, state: &AnyState) -> u128 {
        by_method!(self, state, (design, inner) => design.bound(inner.get()), 1)
    }

    #[tactic(auto, using(crate::proofs::Moved::steps_among))]
    fn advance(&self, state: &mut AnyState, draw: u128) {
        self.step(state, draw);
    }

    fn selected(&self, state: &AnyState, unit: usize) -> bool {
        by_method!(self, state, (design, inner) => design.selected(inner.get(), unit), false)
    }
}
