//! Designs of samples: the method, the columns of the frame, and how many units are drawn.
//!
//! [`read_design`] reads a design from its bytes. `specs/Designs.antt` says which bytes are a design, and which
//! fault comes first where they aren't.
#![tactic(auto)]

mod check;
mod design;
mod entries;
mod fault;
mod keys;
mod method;
mod procedure;
mod reading;
mod values;

pub use design::{Design, Quota, Quotas, Second};
pub use fault::DesignFault;
pub use method::Method;
pub use procedure::Procedure;
pub use reading::read_design;
pub use smp_prob::Order;
