//! Which steps of a walk a log has in one piece.

ghost use Rattle.std.specs.Prelude.{◌≡◌, ◌==◌, ◌<◌, Bool, true, false, not};

use smp_split::{Sections, Splitting};

// Steps that a log has one behind the other, with no other line in between. They end at a leaf at the latest.
pub(crate) trait Part<S: Splitting> {
    // Whether the step of a state is one of them.
    ghost has: { Self → S → S.State → Bool };

    // Whether the design has such a part.
    ghost fits: { Self → S → Type 0 };

    // Whether the step that comes next is one of them.
    fn goes_on(&self, design: &S, state: &S::State) -> bool
        requires state { (S.method design.now).belongs state.now }
        requires part { fits self.now design.now }
        ensures answer { result ≡ has self.now design.now state.now }
        ensures going { result ≡ true → (S.method design.now).tree.done state.now ≡ false };
}

// All steps, up to a leaf.
#[derive(Drop)]
pub(crate) struct AllSteps;

impl<S: Splitting> Part<S> for AllSteps {
    ghost has = { λ _ design state. not ((S.method design).tree.done state) };

    ghost fits = { λ _ _. Unit {0} };

    fn goes_on(&self, design: &S, state: &S::State) -> bool {
        !design.done(state)
    }
}

// The steps of a section, counted from 0.
#[derive(Drop)]
pub(crate) struct SectionSteps {
    pub(crate) section: usize,
}

impl<S: Sections> Part<S> for SectionSteps {
    ghost has = { λ part design state. (S.sectioning design).of state == part.section };

    ghost fits = { λ part design. part.section < (S.sectioning design).count };

    fn goes_on(&self, design: &S, state: &S::State) -> bool {
        design.section(state) == self.section
    }
}
