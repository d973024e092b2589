ghost use Rattle.std.specs.Prelude.{ℕ, ◌<◌, All};
ghost use Rattle.smp_split.specs.{Counts.{AddsUp, LeavesSelect, LeavesSelectAround}, Means.{inclusion_probability}};
ghost use Rattle.smp_frac.specs.Fractions.{Same};
ghost use Rattle.smp_split.specs.{Rows.{rows_tree, BelongsToRows, SelectsAsRequested, AddsUpTo}, Laws.Rows.{rows_method}};
ghost use Rattle.smp_prob.specs.Inclusions.{AreApart, asked_fraction};

use crate::{Kind, Splitting};
use smp_prob::{Inclusion, Request};

/// A design over the free units of a request, as one over all rows of the frame.
#[derive(Drop)]
pub struct Rows<'a, D: Splitting> {
    /// The design, whose units are the request's free units.
    pub design: D,
    /// Which rows are certain, free, or neither.
    pub request: &'a Request,
    /// How many rows there are.
    pub rows: usize,
}

impl<'a, D: Splitting> Rows<'a, D> {
    /// Where the design serves its request from a state on, each row is selected with the probability that the request
    /// gives it; and where the free units' values add up to the draws that they share, each leaf selects the rows that
    /// the request fills. Where each leaf of the design selects one of the two whole numbers of units around the sum of
    /// their values, it selects one of those around the sum over all rows. It runs nothing: its contract is the theorem.
    pub fn select_as_asked(&self, state: &D::State)
        requires belongs { BelongsToRows self.now.request.now (D.method self.now.design).tree
            (D.method self.now.design).belongs state.now }
        requires serves { SelectsAsRequested self.now.request.now
            (D.method self.now.design).tree state.now }
        ensures probability { (row : ℕ) → row < self.now.rows → Same
            (inclusion_probability (rows_tree self.now.rows self.now.request.now
            (D.method self.now.design).tree) state.now row)
            (asked_fraction self.now.request.now row) }
        ensures count { (n : ℕ) → AddsUp (D.method self.now.design).tree self.now.request.now.r
            state.now →
            AddsUpTo self.now.request.now self.now.rows n →
            LeavesSelect (rows_tree self.now.rows self.now.request.now
            (D.method self.now.design).tree) n state.now }
        ensures around { AreApart self.now.request.now →
            All (λ unit. unit < self.now.rows) self.now.request.now.free →
            LeavesSelectAround (D.method self.now.design).tree state.now →
            LeavesSelectAround (rows_tree self.now.rows self.now.request.now
            (D.method self.now.design).tree) state.now }
    {}
}

impl<'a, D: Splitting> Splitting for Rows<'a, D> {
    type State = D::State;

    ghost method = { λ r. rows_method r.rows r.request.now (D.method r.design) };

    fn units(&self) -> usize {
        self.rows
    }

    fn done(&self, state: &D::State) -> bool {
        self.design.done(state)
    }

    fn kind(&self, state: &D::State) -> Kind {
        self.design.kind(state)
    }

    fn bound(&self, state: &D::State) -> u128 {
        self.design.bound(state)
    }

    fn advance(&self, state: &mut D::State, draw: u128) {
        self.design.advance(state, draw);
    }

    fn selected(&self, state: &D::State, unit: usize) -> bool {
        match self.request.inclusion(unit) {
            Inclusion::Certain => true,
            Inclusion::Free(unit) => self.design.selected(state, unit),
            Inclusion::Never => false,
        }
    }
}
