ghost use Rattle.std.specs.Prelude.{◌≤◌};
ghost use Rattle.smp_frac.specs.{Exact.{fraction}, Fractions.{Same}};
ghost use Rattle.smp_weights.specs.Chosen.{weight};

use smp_frac::Frac;

/// The design weight of a unit: the inverse of the inclusion probability that was asked for it.
pub(crate) fn weight_of(asked: Frac) -> Frac
    requires { 1 ≤ asked.num }
    ensures { Same (fraction result) (weight asked) }
{
    asked.inverse().unwrap()
}
