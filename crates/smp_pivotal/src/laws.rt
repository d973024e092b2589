//! The draw that is worked by hand.

ghost use Rattle.smp_pivotal.specs.Four.{AreFourFractions, AreFourValues, IsFourTree};

/// The law that the definitions have the values that are worked by hand, of two of four units of the sizes 1, 2, 3 and 4.
/// It runs nothing: its contract is the theorem.
pub fn four_steps_law()
    ensures tree { IsFourTree }
    ensures values { AreFourValues }
    ensures fractions { AreFourFractions }
{}
