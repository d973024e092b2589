//! The selection methods as one design.
//!
//! A `Procedure` of a design says how units are drawn. [`AnyDesign`] is the design of a request by a procedure:
//! the free units of the request are its units, and its draw tree is that of the procedure's method.
//! What a further method adds is a variant in each of the two enums, the arm that makes its design, two lines of
//! `specs/Designs.antt` and one of `specs/Methods.antt`; no proof goes method by method, but for those of what points and columns
//! the local methods and the cubes take.
#![tactic(auto)]

mod any;
mod boxed;
mod local;
mod start;
mod stratified;

pub use any::{AnyDesign, AnyState};
pub use boxed::Boxed;
pub use start::Started;
