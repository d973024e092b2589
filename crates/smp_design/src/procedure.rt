//! How units are drawn.

ghost use Rattle.std.specs.Prelude.{◌≡◌};
ghost use Rattle.smp_design.specs.Procedures;

use crate::Method;
use smp_prob::Order;

/// How the units of a stage are drawn: by a method, in an order, and with how many columns of values of each kind.
///
/// A design that was read has the columns that its method needs and no others, and an order other than that of the frame only
/// where the method takes one.
#[derive(Clone, Copy, Debug, PartialEq, Eq)]
pub struct Procedure {
    /// The method.
    pub method: Method,
    /// In which order the method takes the units.
    pub order: Order,
    /// On how many columns of values the method balances, from 0 to 15.
    pub balance: usize,
    /// How many columns of values are the coordinates of its points, from 0 to 4.
    pub near: usize,
}

impl Procedure {
    /// A method over units without values, in the order of the frame.
    pub fn without_values(method: Method) -> Procedure
        ensures { result ≡ Procedures.without_values method }
    {
        Procedure {
            method,
            order: Order::Frame,
            balance: 0,
            near: 0,
        }
    }
}
