//! One systematic draw.

ghost use Rattle.std.specs.Prelude.{◌≡◌, ◌-◌, ◌<◌, length};
ghost use Rattle.smp_frac.specs.Limits.{wide_limit};
ghost use Rattle.smp_values.specs.Values.{IsValues};
ghost use Rattle.smp_pivotal.specs.Systematic.{sampled};

use smp_values::Values;

/// Sets the values to those after a draw: 1 for what it takes, and 0 for the rest.
///
/// It goes over the values once, and keeps how far the next point lies from where the present piece starts.
pub(crate) fn take_sample(values: &mut Values, draw: u128)
    requires values { IsValues (length values.old.numer) (wide_limit - 1) values.old }
    requires within { draw < values.old.den }
    ensures { values.new ≡ sampled values.old draw }
{
    let den = values.denominator();
    let mut gap = draw;
    for place in 0..values.len() {
        let size = values.numerator(place);
        if gap < size {
            gap += den - size;
            values.set(place, den);
        } else {
            gap -= size;
            values.set(place, 0);
        }
    }
}
