//! What holds of every selection from a stratum, or from all strata together.

ghost use Rattle.smp_twostage.specs.{Totals.{EachFrameIsBalanced, EachIsBalanced}, Reports.{EachLineTells, EachRowTells}};

/// The law that every selection from a stratum by the cube, or by the local cube, is balanced: its flight keeps each total in force
/// exactly, its landing begins only where no direction is left or the next step doesn't fit, and the units that are undecided there
/// bound the error of each estimate. It runs nothing: its contract is the theorem.
pub fn balance_law()
    ensures { EachIsBalanced }
{}

/// The law that the lines of the report on a stratum tell the totals of this statement in exact fractions: the estimate of a column,
/// unless it is wide, and what is known of it.
pub fn report_law()
    ensures { EachLineTells }
{}

/// The same law of strata that are drawn together, where each unit of each of them is a row that is told.
pub fn row_report_law()
    ensures { EachRowTells }
{}

/// The law that every selection by the cube over all strata is balanced, as `balance_law` says it of a stratum, over all units of all
/// strata: the size of each stratum, and the variables over all of them. It holds of 15 strata at most, with 16 rows at most.
pub fn frame_law()
    ensures { EachFrameIsBalanced }
{}
