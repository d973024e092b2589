//! A state of a minimum support selection.

ghost use Rattle.std.specs.Prelude.{◌≡◌, false, length};
ghost use Rattle.smp_prob.specs.Shares.{Shares};
ghost use Rattle.smp_minsup.specs.{Support.{IsSupport, support_tree}, Kept.Ranked.{IsCut, shares_over, shares_kept}};

use crate::ranked::Ranked;
use smp_split::Kind;
use smp_values::SelectionState;
use std::marker::Model;

/// A state of a minimum support selection: the value of each unit, over one denominator.
///
/// It keeps the r largest units and the others apart. A step lowers the values of the r largest by one number that all of
/// them share, and exchanges the units whose order this turns; the part that ends the design touches none.
#[derive(Drop)]
pub struct SupportState {
    ranked: Ranked,
    den: u128,
    settled: bool,
}

impl Model for SupportState {
    ghost Value = { Shares };

    ghost view = { λ a. shares_kept a.settled a.den a.ranked };

    ghost invariant = { λ a. a.settled ≡ false → IsCut a.den a.ranked };
}

impl SupportState {
    /// The state with these numerators over `den`, of which the large ones are the largest.
    pub(crate) fn new(ranked: Ranked, den: u128) -> SupportState
        requires { IsCut den ranked }
        ensures { result ≡ shares_over den ranked }
    {
        SupportState {
            ranked,
            den,
            settled: false,
        }
    }
}

impl SelectionState for SupportState {
    ghost tree = { λ s. support_tree (length s.numer) };

    ghost belongs = { λ s. IsSupport (length s.numer) s };

    fn is_done(&self) -> bool {
        self.settled || self.ranked.is_settled(self.den)
    }

    fn kind(&self) -> Kind {
        Kind::Support
    }

    fn bound(&self) -> u128 {
        self.den
    }

    fn advance(&mut self, draw: u128) {
        let lambda = self.ranked.lambda(self.den);
        if draw < lambda {
            self.settled = true;
        } else {
            self.ranked.lower(lambda);
            self.ranked.part();
            self.den -= lambda;
        }
    }

    fn is_selected(&self, unit: usize) -> bool {
        if self.settled {
            self.ranked.is_large(unit)
        } else {
            self.ranked.numer(unit) == self.den
        }
    }
}
