ghost use Rattle.std.specs.Prelude.{◌≡◌, ◌≢◌, ◌*◌, ◌/◌, ◌<◌, ◌≤◌, ◌↔◌, IsNone, IfSome, IfOk, OnOk, OnErr, OkIff, ◌+◌, ◌++◌, codes, length};
ghost use Rattle.std.specs.Prelude.{take};
ghost use Rattle.std.specs.{Fmt.{decimal}, Int.{IsGcd}};
ghost use Prim.Native.Nat.{◌∣◌};
ghost use Rattle.smp_frac.specs.{Divisors.{greatest_common_divisor}, Limits.{wide_limit}};
ghost use Rattle.smp_frac.specs.Fractions.{Same, AtMost, over, plus, times, inverse};

use crate::{Bytes, NoMemory, WIDE_LIMIT, gcd, put};
use itoa::Buffer;
use std::cmp::Ordering;
use std::marker::Model;

/// A result needs a number of 2^126 or more.
#[derive(Clone, Copy, Debug, PartialEq, Eq)]
pub struct Wide;

/// A fraction in lowest terms; zero is 0/1. No other numbers fit in its fields, so each value has
/// one fraction.
#[derive(Clone, Copy, Debug, PartialEq, Eq)]
pub struct Frac {
    /// The numerator.
    pub num: u128,
    /// The denominator.
    pub den: u128,
    pub ghost positive: { 1 ≤ den },
    pub ghost lowest: { greatest_common_divisor num den ≡ 1 },
}

/// The text of a fraction, of at most 81 bytes.
///
/// It is seen as its bytes.
#[derive(Debug, Drop)]
pub struct FractionText {
    // The text stands at the front.
    text: [u8; 81],
    length: usize,
}

impl Model for FractionText {
    ghost use Rattle.std.specs.Prelude.{◌≤◌, ℕ, List, take};

    ghost Value = { List ℕ };

    ghost view = { λ t. take t.length t.text };

    ghost invariant = { λ t. t.length ≤ 81 };
}

impl FractionText {
    /// Its bytes.
    pub fn as_slice(&self) -> &[u8]
        ensures { result.now ≡ self.now }
    {
        &self.text[..self.length]
    }
}

// Puts a numerator, a slash and a denominator at the front of a text, and says how many bytes they take.
fn put_terms(text: &mut [u8; 81], num: u128, den: u128) -> usize
    ensures within { result ≤ 81 }
    ensures terms { take result text.new ≡ decimal num ++ codes "/" ++ decimal den }
{
    let (mut above, mut below) = (Buffer::new(), Buffer::new());
    let num = above.format(num).as_bytes();
    let den = below.format(den).as_bytes();
    put(text, 0, num);
    put(text, num.len(), b"/");
    put(text, num.len() + 1, den);
    num.len() + 1 + den.len()
}

impl Frac {
    ghost use Rattle.smp_frac.specs.{Exact.{fraction, fraction_text, sum_size, product_size}, LowestTerms.{lowest_terms}};

    /// The fraction `num/den` in lowest terms, or `None` where `den` is 0.
    pub fn new(num: u128, den: u128) -> Option<Frac>
        ensures none { IsNone result ↔ (den ≡ 0) }
        ensures value { IfSome result (λ f. Same (fraction f) (over num den)) }
    {
        if den == 0 {
            return None;
        }
        Some(Frac::over(num, den))
    }

    /// The fraction `num/den` in lowest terms.
    pub fn over(num: u128, den: u128) -> Frac
        requires { 1 ≤ den }
        ensures lowest { result ≡ lowest_terms (over num den) }
        ensures value { Same (fraction result) (over num den) }
    {
        let divisor = gcd(num, den);
        Frac {
            num: num / divisor,
            den: den / divisor,
        }
    }

    /// The numerator.
    pub fn num(self) -> u128
        ensures { result ≡ self.num }
    {
        self.num
    }

    /// The denominator.
    pub fn den(self) -> u128
        ensures { result ≡ self.den }
    {
        self.den
    }

    /// One divided by the fraction, or `None` for zero.
    pub fn inverse(self) -> Option<Frac>
        ensures none { IsNone result ↔ (self.num ≡ 0) }
        ensures value { IfSome result (λ f. Same (fraction f) (inverse (fraction self))) }
    {
        if self.num == 0 {
            return None;
        }
        Some(Frac {
            num: self.den,
            den: self.num,
        })
    }

    /// How the two values compare, whatever their size: by repeated division, with no products.
    pub fn order(self, other: Frac) -> Ordering
        ensures at_most { (result ≢ Ordering.Greater) ↔ AtMost (fraction self) (fraction other) }
        ensures at_least { (result ≢ Ordering.Less) ↔ AtMost (fraction other) (fraction self) }
        ensures same { (result ≡ Ordering.Equal) ↔ (self ≡ other) }
    {
        let (mut a, mut b) = (self.num, self.den);
        let (mut c, mut d) = (other.num, other.den);
        // What is left above equal whole parts compares as the inverses do, the other way round.
        while a / b == c / d && a % b != 0 && c % d != 0 {
            (a, b, c, d) = (d, c % d, b, a % b);
        }
        (a / b).cmp(&(c / d)).then((a % b).cmp(&(c % d)))
    }

    /// The sum, or `Wide` where it needs a number of 2^126 or more: the numerator over the least
    /// common denominator, or the denominator in lowest terms. Only the divisors of the common
    /// divisor of both denominators can be left to take out (Knuth 1997).
    pub fn add(self, other: Frac) -> Result<Frac, Wide>
        ensures value { IfOk result (λ sum.
            Same (fraction sum) (plus (fraction self) (fraction other))) }
        ensures fits { OnOk result (sum_size self other < wide_limit) }
        ensures wide { OnErr result (wide_limit ≤ sum_size self other) }
    {
        let common = gcd(self.den, other.den);
        let first = narrow_product(self.num, other.den / common)?;
        let second = narrow_product(other.num, self.den / common)?;
        if first + second >= WIDE_LIMIT {
            return Err(Wide);
        }
        Frac::reduced(first + second, self.den / common, other.den, common)
    }

    /// The product, or `Wide` where its numerator or denominator in lowest terms is 2^126 or more.
    pub fn mul(self, other: Frac) -> Result<Frac, Wide>
        ensures value { IfOk result (λ product.
            Same (fraction product) (times (fraction self) (fraction other))) }
        ensures fits { OnOk result (product_size self other < wide_limit) }
        ensures wide { OnErr result (wide_limit ≤ product_size self other) }
    {
        let falling = gcd(self.num, other.den);
        let rising = gcd(other.num, self.den);
        let num = narrow_product(self.num / falling, other.num / rising)?;
        let den = narrow_product(self.den / rising, other.den / falling)?;
        Ok(Frac { num, den })
    }

    /// The numerator, a slash and the denominator in decimal. It takes no memory.
    pub fn text(self) -> FractionText
        ensures { result ≡ fraction_text (fraction self) }
    {
        let mut text = [0; 81];
        let length = put_terms(&mut text, self.num, self.den);
        FractionText { text, length }
    }

    /// Appends the numerator, a slash and the denominator in decimal, or nothing where memory
    /// runs out.
    pub fn write(self, into: &mut Bytes) -> Result<(), NoMemory>
        ensures ok { OnOk result (into.new ≡ into.old ++ fraction_text (fraction self)) }
        ensures err { OnErr result (into.new ≡ into.old) }
    {
        into.push_all(self.text().as_slice())
    }

    /// The fraction `num / (part * den)` in lowest terms, where `num` has no divisor in common
    /// with `part`, nor with what `den` has beside its divisor `common`.
    pub(crate) fn reduced(num: u128, part: u128, den: u128, common: u128) -> Result<Frac, Wide>
        requires some_part { 1 ≤ part }
        requires some_den { 1 ≤ den }
        requires divides { common ∣ den }
        requires apart { IsGcd num part 1 }
        requires rest_apart { IsGcd num (den / common) 1 }
        ensures value { IfOk result (λ f. Same (fraction f) (over num (part * den))) }
        ensures fits { OnOk result
            (part * (den / greatest_common_divisor num common) < wide_limit) }
        ensures wide { OnErr result
            (wide_limit ≤ part * (den / greatest_common_divisor num common)) }
    {
        let divisor = gcd(num, common);
        let den = narrow_product(part, den / divisor)?;
        Ok(Frac {
            num: num / divisor,
            den,
        })
    }
}

/// The product of two numbers, where it is below the limit.
pub(crate) fn narrow_product(a: u128, b: u128) -> Result<u128, Wide>
    ensures { OkIff result (a * b < wide_limit) (a * b) }
{
    match a.checked_mul(b) {
        Some(product) if product < WIDE_LIMIT => Ok(product),
        _ => Err(Wide),
    }
}
