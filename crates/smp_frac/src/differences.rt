ghost use Rattle.std.specs.Prelude.{◌<◌, ◌≤◌, IfOk, OnOk, OnErr};
ghost use Rattle.smp_frac.specs.{Exact.{fraction, signed_fraction, difference_size}, Limits.{wide_limit}, Fractions.{Same, minus}};

use crate::fractions::narrow_product;
use crate::{Frac, Signed, Wide, gcd};

/// `left` less `right`, or `Wide` where that needs a number of 2^126 or more: each numerator over
/// the least common denominator, or the denominator in lowest terms.
pub fn difference(left: Frac, right: Frac) -> Result<Signed, Wide>
    ensures value { IfOk result (λ d.
        Same (signed_fraction d) (minus (fraction left) (fraction right))) }
    ensures fits { OnOk result (difference_size left right < wide_limit) }
    ensures wide { OnErr result (wide_limit ≤ difference_size left right) }
{
    let common = gcd(left.den, right.den);
    let first = narrow_product(left.num, right.den / common)?;
    let second = narrow_product(right.num, left.den / common)?;
    let apart = first.abs_diff(second);
    let size = Frac::reduced(apart, left.den / common, right.den, common)?;
    Ok(Signed {
        minus: first < second,
        size,
    })
}
