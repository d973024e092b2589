ghost use Rattle.std.specs.Prelude.{◌≡◌, ◌≤◌, true};

use crate::Frac;

/// A fraction with a sign.
#[derive(Clone, Copy, Debug, PartialEq, Eq)]
pub struct Signed {
    /// Whether the value is below zero.
    pub minus: bool,
    /// The absolute value.
    pub size: Frac,
    pub ghost sign: { minus ≡ true → 1 ≤ size.num },
}
