//! Plans: which strata and first stage units a frame has, how many of each are drawn, and with which probabilities.
//!
//! [`accept`] makes the [`Plan`] of a frame and a design, or says why the frame doesn't serve the design.
//! `specs/Plans.antt` says what the plan is, `specs/Misfits.antt` when there is none, `specs/Asked.antt` which inclusion
//! probability is asked for each row, and `specs/Draws.antt` how many units are drawn.
#![tactic(auto)]

mod acceptance;
mod allocation;
mod begun;
mod building;
mod checks;
mod groups;
mod layout;
mod misfit;
mod names;
mod plan;
mod requests;
mod second;
mod sizes;
mod strata;
mod sums;

pub use acceptance::accept;
pub use groups::Group;
pub use misfit::Misfit;
pub use plan::{Plan, asked, first_asked};
pub use second::SecondRequest;
pub use strata::{FirstUnit, Seat, Stratum, Units};
