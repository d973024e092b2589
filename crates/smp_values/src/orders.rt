//! The order in which the units are taken.

ghost use Rattle.std.specs.Prelude.{◌≡◌, IfOk};
ghost use Rattle.smp_values.specs.Starts.{first_order};

use smp_frac::NoMemory;
use smp_prob::Order;
use smp_split::UnitOrder;
use std::alloc::Global;

/// So many units in the order of the frame, or in an order that is still to be drawn.
pub fn unit_order(alloc: Global, order: Order, units: usize) -> Result<UnitOrder, NoMemory>
    ensures { IfOk result (λ placed. placed ≡ first_order order units) }
{
    match order {
        Order::Frame => Ok(UnitOrder::in_frame(alloc, units)),
        Order::Random => UnitOrder::undrawn(alloc, units),
    }
}
