//! Bytes as printable text.

ghost use Rattle.std.specs.{Prelude.{◌≡◌, ◌<◌, ◌↔◌, length, IsTrue, IfOk, IfSome, IsNone, option_map}, List.{All}};
ghost use Rattle.smp_caseread.specs.Escapes;
ghost use Rattle.smp_caseread.specs.Escapes.{IsPrintable, StandsFor, StandsForNothing};

use std::alloc::{AllocError, Global};
use std::fmt;

// The most bytes that are shown of a text.
const MOST_SHOWN: usize = 60;

/// The text of a line of ASCII characters that can be printed, a blank among them. `None` where it has another byte.
#[tactic(auto, using(crate::proofs::Printable::printable_is_text))]
pub fn printable(line: &[u8]) -> Option<&str>
    ensures some { IfSome result (λ text. (text.now ≡ line.now) × All IsPrintable line.now) }
    ensures none { IsNone result → All IsPrintable line.now → ⊥ }
{
    if !are_printable(line) {
        return None;
    }
    match str::from_utf8(line) {
        Ok(text) => Some(text),
        Err(_) => None,
    }
}

fn are_printable(line: &[u8]) -> bool
    ensures { IsTrue result ↔ All IsPrintable line.now }
{
    line.iter().all(|byte| (b' '..=b'~').contains(byte))
}

/// The bytes that a text stands for, `None` where it has an escape that isn't one. `\n` is a line feed, `\r` a carriage
/// return, `\\` a backslash, and `\x` with two hexadecimal digits the byte of that number.
#[tactic(auto, using(crate::proofs::Standing::at_start, crate::proofs::Standing::one_further, crate::proofs::Standing::at_end, crate::proofs::Standing::at_fault))]
pub fn unescaped(alloc: Global, text: &str) -> Result<Option<Vec<u8>>, AllocError>
    ensures bytes { IfOk result (λ o. IfSome o (λ bytes. StandsFor text.now bytes.items)) }
    ensures none { IfOk result (λ o. IsNone o → StandsForNothing text.now) }
{
    let mut bytes = Vec::new(alloc);
    let mut rest = text.as_bytes();
    while let Some((byte, others)) = first_byte(rest) {
        bytes.push(byte)?;
        rest = others;
    }
    Ok(rest.is_empty().then_some(bytes))
}

// The first byte that a text stands for, and the text after it. `None` where the text is empty or begins with an escape
// that isn't one.
fn first_byte(text: &[u8]) -> Option<(u8, &[u8])>
    ensures parts { option_map (λ p. (p.0, p.1.now)) result ≡ Escapes.first_byte text.now }
    ensures shorter { IfSome result (λ p. length p.1.now < length text.now) }
{
    match text {
        [] => None,
        [b'\\', rest @ ..] => from_escape(rest),
        [byte, rest @ ..] => Some((*byte, rest)),
    }
}

// The same for what stands behind a backslash.
fn from_escape(text: &[u8]) -> Option<(u8, &[u8])>
    ensures parts { option_map (λ p. (p.0, p.1.now)) result ≡ Escapes.from_escape text.now }
    ensures shorter { IfSome result (λ p. length p.1.now < length text.now) }
{
    match text {
        [] => None,
        [b'x', rest @ ..] => from_digits(rest),
        [letter, rest @ ..] => Some((byte_of_letter(*letter)?, rest)),
    }
}

// The same for what stands behind a backslash and an `x`.
fn from_digits(text: &[u8]) -> Option<(u8, &[u8])>
    ensures parts { option_map (λ p. (p.0, p.1.now)) result ≡ Escapes.from_digits text.now }
    ensures shorter { IfSome result (λ p. length p.1.now < length text.now) }
{
    match text {
        [high, low, rest @ ..] => Some((byte_of_digits(*high, *low)?, rest)),
        _ => None,
    }
}

fn byte_of_letter(letter: u8) -> Option<u8>
    ensures { result ≡ Escapes.byte_of_letter letter }
{
    match letter {
        b'n' => Some(b'\n'),
        b'r' => Some(b'\r'),
        b'\\' => Some(b'\\'),
        _ => None,
    }
}

fn byte_of_digits(high: u8, low: u8) -> Option<u8>
    ensures { result ≡ Escapes.byte_of_digits high low }
{
    let high = (high as char).to_digit(16)?;
    let low = (low as char).to_digit(16)?;
    Some((high * 16 + low) as u8)
}

/// Bytes as they are shown: in quotes, with escapes, and no more than the first 60.
#[derive(Clone, Copy)]
pub struct Shown<'a>(pub &'a [u8]);

impl<'a> fmt::Display for Shown<'a> {
    fn fmt<W: fmt::Write>(&self, f: &mut fmt::Formatter<W>) -> fmt::Result {
        write!(f, "\"")?;
        for byte in self.0.iter().take(MOST_SHOWN) {
            match *byte {
                b'\n' => write!(f, "\\n")?,
                b'\r' => write!(f, "\\r")?,
                b'\\' => write!(f, "\\\\")?,
                byte if (b' '..=b'~').contains(&byte) => write!(f, "{}", byte as char)?,
                byte => write!(f, "\\x{byte:02x}")?,
            }
        }
        let more = if self.0.len() > MOST_SHOWN { ".." } else { "" };
        write!(f, "\"{more}")
    }
}
