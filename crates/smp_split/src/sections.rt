ghost use Rattle.std.specs.Prelude.{◌≡◌};
ghost use Rattle.smp_split.specs.Sectioning.{Sectioning, IsSectioned};

use crate::Splitting;

/// A design that goes through sections, one after the other, as the strata of a sample are.
pub trait Sections: Splitting {
    /// How many sections there are, and the section of each state.
    ghost sectioning: { Self → Sectioning Self.State };

    /// How many sections there are.
    fn sections(&self) -> usize
        ensures { result ≡ (sectioning self.now).count };

    /// The section whose step comes next, counted from 0. In a done state it is the number of sections.
    fn section(&self, state: &Self::State) -> usize
        requires { (Self.method self.now).belongs state.now }
        ensures { result ≡ (sectioning self.now).of state.now };

    /// A section is below their number exactly in a state that isn't done, and no step leads to an earlier one.
    ghost sectioned: { (design : Self)
        → IsSectioned (Self.method design).tree (Self.method design).belongs (sectioning design) };
}
