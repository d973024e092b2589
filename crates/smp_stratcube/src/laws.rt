//! The laws of the design.

ghost use Rattle.smp_stratcube.specs.Statements.{EachBalanced, EachCounted, EachLawful, EachNext, EachPair, OneNext};

/// The law that each split is lawful, that the flight keeps what it is to keep, and that a stratum with a whole sum keeps its number.
/// The step of a state has the properties of a step, and no other has; the pair of
/// a pivotal step is the first two fractional units of the first stratum that has two.
pub fn strat_law()
    ensures lawful { EachLawful }
    ensures balanced { EachBalanced }
    ensures counted { EachCounted }
    ensures next { EachNext }
    ensures one { OneNext }
    ensures pair { EachPair }
{}
