//! The whole selection by a plan: all strata, in one stage or in two.
//!
//! [`Whole`] is one lawful design, whose units are the rows of the frame. Strata are drawn in order of first appearance; in each its first
//! stage units are drawn, and then, where there is a second stage, rows within each of those that were drawn. `specs/Selections.antt` says
//! which stages these are, and `specs/Starts.antt` what holds of a selection from its start: each row's probability of selection is exactly
//! the one that the plan gives it, and the estimator of Horvitz and Thompson has no bias.
//!
//! A method that draws all strata together has one stage for them, whose units are the first stage units of all strata, and one section.
//!
//! Else each stratum is a section of it. One stratum can be drawn alone: `specs/Covered.antt` says that this selection is a part of the
//! whole one.
//!
//! [`balance_lines`] is what the report tells of the strata where they are drawn by the cube or the local cube, as `specs/Lines.antt` says.
//!
//! Where the method balances, what it keeps and what its landing gives up among the free units of a request is said here of the totals over
//! all units of a stratum (Deville and Tillé 2004), with those that are certain, which are selected at every leaf. Where the cube draws all
//! strata together (Chauvet 2009), so it is said of the size of each stratum and of the totals over all strata. [`drawn_lines`] is
//! what the report tells of it.
#![tactic(auto)]

mod balance_laws;
mod drawn;
mod lines;
mod made;
mod stage;
mod whole;

pub use balance_laws::{balance_law, frame_law, report_law, row_report_law};
pub use drawn::{DrawnUnits, drawn_lines};
pub use lines::balance_lines;
pub use stage::StageDesign;
pub use whole::{StartedWhole, Whole, section_count};
