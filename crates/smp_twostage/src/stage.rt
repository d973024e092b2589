//! How the units of one stage are drawn.

ghost use Rattle.std.specs.Prelude.{◌≡◌};
ghost use Rattle.smp_methods.specs.{Designs.{left_at}, Methods.{method_of}};
ghost use Rattle.smp_split.specs.Laws.Rows.{rows_method};
ghost use Rattle.smp_twostage.specs.{Kept.Stages.{asked_view}, Selections.{belongs_to, tree_of}};

use smp_methods::{AnyDesign, AnyState};
use smp_prob::{Inclusion, Request};
use smp_split::{Kind, Splitting};
use std::marker::Model;

// Where the units of a stage stand: by the request of a stratum, or of a second stage; or by one over all strata, which the stage holds.
#[derive(Drop)]
enum Asked<'a> {
    Stratum(&'a Request),
    Strata(Request),
}

impl<'a> Asked<'a> {
    fn get(&self) -> &Request
        ensures { result.now ≡ asked_view self.now }
    {
        match self {
            Asked::Stratum(request) => request,
            Asked::Strata(request) => request,
        }
    }
}

/// The design of one stage over all of its units: the free ones are drawn by a method, the certain ones are always selected, and those of
/// probability 0 never.
#[derive(Drop)]
pub struct StageDesign<'a> {
    units: usize,
    asked: Asked<'a>,
    design: AnyDesign,
}

impl<'a> Model for StageDesign<'a> {
    ghost use Rattle.smp_twostage.specs.{Kept.Stages.{asked_view}, Selections.{Selecting}};

    ghost Value = { Selecting };

    ghost view = { λ s. record {
      units = s.units;
      request = asked_view s.asked;
      design = s.design;
    } };
}

impl<'a> StageDesign<'a> {
    /// The design of a request over so many units.
    pub(crate) fn new(units: usize, request: &'a Request, design: AnyDesign) -> StageDesign<'a>
        ensures { result ≡ record { units = units; request = request.now; design = design } }
    {
        StageDesign {
            units,
            asked: Asked::Stratum(request),
            design,
        }
    }

    /// The design of all strata over so many units, which stand as this request says.
    pub(crate) fn of_strata(units: usize, request: Request, design: AnyDesign) -> StageDesign<'a>
        ensures { result ≡ record { units = units; request = request; design = design } }
    {
        StageDesign {
            units,
            asked: Asked::Strata(request),
            design,
        }
    }

    /// How many units were undecided where the cube's landing began: 0 as long as it hasn't begun, and by any other method.
    pub(crate) fn left(&self, state: &AnyState) -> u32
        ensures { result ≡ left_at self.now.design state.now }
    {
        self.design.left(state)
    }
}

impl<'a> Splitting for StageDesign<'a> {
    type State = AnyState;

    ghost method = { λ s. rows_method s.units s.request (method_of s.design) };

    fn units(&self) -> usize {
        self.units
    }

    fn done(&self, state: &AnyState) -> bool {
        self.design.done(state)
    }

    fn kind(&self, state: &AnyState) -> Kind {
        self.design.kind(state)
    }

    fn bound(&self, state: &AnyState) -> u128 {
        self.design.bound(state)
    }

    fn advance(&self, state: &mut AnyState, draw: u128) {
        self.design.advance(state, draw);
    }

    fn selected(&self, state: &AnyState, unit: usize) -> bool {
        match self.asked.get().inclusion(unit) {
            Inclusion::Certain => true,
            Inclusion::Free(unit) => self.design.selected(state, unit),
            Inclusion::Never => false,
        }
    }
}
