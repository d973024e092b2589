//! States that make the steps of a selection.

ghost use Rattle.std.specs.Prelude.{◌≡◌, ◌<◌, false};
ghost use Rattle.smp_split.specs.Trees.{Tree, weight_sum, picked};

use smp_split::Kind;

/// A state of a selection that makes its steps by itself. A design whose states are such hands on to them.
pub trait SelectionState {
    /// The draw tree over as many units as the state has.
    ghost tree: { Self → Tree Self };

    /// The state is one of a selection.
    ghost belongs: { Self → Type 0 };

    /// Whether no step is left.
    fn is_done(&self) -> bool
        requires { belongs self.now }
        ensures { result ≡ (tree self.now).done self.now };

    /// The kind of the next step.
    fn kind(&self) -> Kind
        requires state { belongs self.now }
        requires going { (tree self.now).done self.now ≡ false }
        ensures { result ≡ (tree self.now).kind self.now };

    /// The bound of the next step's draw.
    fn bound(&self) -> u128
        requires state { belongs self.now }
        requires going { (tree self.now).done self.now ≡ false }
        ensures { result ≡ weight_sum ((tree self.now).parts self.now) };

    /// Makes the step that this draw leads to.
    fn advance(&mut self, draw: u128)
        requires state { belongs self.old }
        requires going { (tree self.old).done self.old ≡ false }
        requires within { draw < weight_sum ((tree self.old).parts self.old) }
        ensures { self.new ≡ picked self.old ((tree self.old).parts self.old) draw };

    /// Whether a unit is selected, once no step is left.
    fn is_selected(&self, unit: usize) -> bool
        requires state { belongs self.now }
        requires unit { unit < (tree self.now).units }
        ensures { result ≡ (tree self.now).selected self.now unit };
}
