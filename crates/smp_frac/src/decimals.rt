ghost use Rattle.std.specs.{Prelude.{◌≡◌, ◌^◌, ◌≤◌, length, true}, List.{list_all}, Char.{is_ascii_digit}, Str.Parse.{digits_value}};
ghost use Rattle.smp_frac.specs.Decimals;
ghost use Rattle.smp_frac.specs.Decimals.{number_below};

/// So many digits write a number below 2^64, whatever they are.
const SHORT: usize = 19;

/// Whether a text is one or more ASCII digits.
pub fn is_decimal(text: &[u8]) -> bool
    ensures { result ≡ Decimals.is_decimal text.now }
{
    !text.is_empty() && are_digits(text)
}

fn are_digits(text: &[u8]) -> bool
    ensures { result ≡ list_all is_ascii_digit text.now }
{
    for byte in text {
        if !byte.is_ascii_digit() {
            return false;
        }
    }
    true
}

/// The number that decimal digits write, where it is below 2^128. Leading zeros are allowed; a sign, a
/// space or no digit at all is not.
pub fn number(text: &[u8]) -> Option<u128>
    ensures { result ≡ number_below (2 ^ 128) text.now }
{
    if !is_decimal(text) {
        return None;
    }
    if text.len() <= SHORT {
        return Some(short_number(text) as u128);
    }
    match str::from_utf8(text) {
        Ok(text) => parsed(text),
        Err(_) => unreachable!(),
    }
}

// The number that digits write which are few enough for 64 bits.
fn short_number(text: &[u8]) -> u64
    requires decimal { Decimals.is_decimal text.now ≡ true }
    requires short { length text.now ≤ 19 }
    ensures { result ≡ digits_value 10 text.now }
{
    let mut value = 0;
    for &byte in text {
        value = value * 10 + (byte - b'0') as u64;
    }
    value
}

fn parsed(text: &str) -> Option<u128>
    requires { Decimals.is_decimal text.now ≡ true }
    ensures { result ≡ number_below (2 ^ 128) text.now }
{
    match text.parse::<u128>() {
        Ok(number) => Some(number),
        Err(_) => None,
    }
}
