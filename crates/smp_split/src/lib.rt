//! Selection designs as trees of weighted parts (Deville and Tillé 1998), the walk down such a tree by draws, and the
//! theorem that carries every design: over draws that are uniform below each asked bound and independent of those before, the
//! mean of a list over the selected units is the sum of the list times the values. An order of the units may be drawn before a
//! design's own steps.
//!
//! Two designs are made of others. A method draws among the free units of a request alone: [`Rows`] adds the rows that are certain and
//! those that are never selected, so that the units of the design are the rows of a frame. [`Stages`] draws in stages (Särndal, Swensson
//! and Wretman 1992), each by a design of its own, one stage after another. A first stage is always drawn. A second stage selects within a
//! unit of a first stage, and is drawn where that unit was selected: where it wasn't, the stage takes no step. So strata are first stages
//! side by side, and a stratum in two stages is a first stage with a second one within each of its units. Each row has a [`Seat`]: its unit
//! in a first stage, and its unit in the second stage within that one, where there is one. Its value is the product of theirs. A whole path
//! is made of the stages' own paths. Stages in a row that select within one another alone, as those of a stratum do, are a selection too,
//! and a part of the whole.
#![tactic(auto)]

mod kind;
mod order;
mod places;
mod rows;
mod sections;
mod splitting;
mod stage_laws;
mod stages;
mod stages_state;
mod trace;
mod walking;

pub use kind::Kind;
pub use order::UnitOrder;
pub use places::{Place, Seat, Stage};
pub use rows::Rows;
pub use sections::Sections;
pub use splitting::{Splitting, draws_are_weights, mean_is_value, selected_units};
pub use stage_laws::{own_stages_are_a_part, stages_go_by_sections};
pub use stages::Stages;
pub use stages_state::StagesState;
pub use trace::{Lines, NoTrace, Trace};
pub use walking::{WalkFault, walk};
