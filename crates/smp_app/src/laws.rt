//! The draw that is worked by hand.

ghost use Rattle.smp_app.specs.Four.{IsFourDrawn};

/// The law that the definitions have the values that are worked by hand, of a plan of two of four units of the sizes 1, 2, 3 and 4,
/// and that its sample is these 22 bytes. It runs nothing: its contract is the theorem.
pub fn four_draw_law()
    ensures { IsFourDrawn }
{}
