//! Steps on the values at places.

ghost use Rattle.std.specs.Prelude.{◌≡◌, ℕ, ◌<◌, false, length};
ghost use Rattle.smp_split.specs.Trees.{weight_sum, picked};
ghost use Rattle.smp_prob.specs.Shares.{Shares};
ghost use Rattle.smp_values.specs.{InOrder.{StepRule, LawfulRule}, Values.{IsValues, exchanged_values, is_one, is_settled}};

use crate::Values;
use smp_split::Kind;

/// Values at places, and the steps of a method on them. What stands at a place is settled without regard to the order of the
/// units.
pub trait PlaceSteps {
    /// The values at the places.
    ghost shares: { Self → Shares };

    /// What the steps are.
    ghost rule: { StepRule };

    /// What they owe.
    ghost law: { LawfulRule rule };

    /// The steps on these values.
    fn from_values(values: Values) -> Self
        requires { IsValues (length values.numer) rule.most values }
        ensures { shares result ≡ values };

    /// Whether no step is left, as each value is 0 or 1.
    fn is_done(&self) -> bool
        ensures { result ≡ is_settled (shares self.now) };

    /// The kind of the next step.
    fn kind(&self) -> Kind
        ensures { result ≡ rule.kind (shares self.now) };

    /// The bound of the next step's draw.
    fn bound(&self) -> u128
        requires { is_settled (shares self.now) ≡ false }
        ensures { result ≡ weight_sum (rule.parts (shares self.now)) };

    /// Makes the step that this draw leads to.
    fn advance(&mut self, draw: u128)
        requires values { IsValues (length (shares self.old).numer) rule.most (shares self.old) }
        requires going { is_settled (shares self.old) ≡ false }
        requires within { draw < weight_sum (rule.parts (shares self.old)) }
        ensures { shares self.new ≡ picked (shares self.old) (rule.parts (shares self.old)) draw };

    /// Exchanges the values at two places.
    fn exchange(&mut self, place: usize, other: usize)
        requires place { place < length (shares self.old).numer }
        requires other { other < length (shares self.old).numer }
        ensures { shares self.new ≡ exchanged_values place other (shares self.old) };

    /// Whether the value at a place is 1.
    fn is_one(&self, place: usize) -> bool
        requires { place < length (shares self.now).numer }
        ensures { result ≡ is_one (shares self.now) place };
}
