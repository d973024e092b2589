ghost use Rattle.std.specs.{Prelude.{◌≡◌, ◌<◌, ◌++◌, ◌∷◌, option_map}, Fmt.{decimal}, Str.{bytes_eq}};
ghost use Rattle.smp_frac.specs.Limits.{wide_limit};
ghost use Rattle.smp_log.specs.Reading as Reading;

use smp_frac::{cut_before, number};
use smp_split::Kind;

// The number that a text is the decimal form of, without leading zeros, where it is below 2^128.
#[tactic(auto, unfolding(crate::specs::Reading::written))]
pub(crate) fn written(text: &[u8]) -> Option<u128>
    ensures { result ≡ Reading.written text.now }
{
    if text.len() > 1 && text[0] == b'0' {
        return None;
    }
    number(text)
}

// What stands behind a front.
pub(crate) fn behind<'a>(text: &'a [u8], front: &[u8]) -> Option<&'a [u8]>
    ensures { option_map (λ rest. rest.now) result ≡ Reading.behind front.now text.now }
{
    text.strip_prefix(front)
}

// The value of a line, where it is the line of a step of this kind with this bound.
#[tactic(auto, unfolding(crate::specs::Reading::step_value))]
fn step_value(line: &[u8], kind: Kind, bound: u128) -> Option<u128>
    requires { bound < wide_limit }
    ensures { result ≡ Reading.step_value kind bound line.now }
{
    let rest = behind(line, kind.word().as_bytes())?;
    let rest = behind(rest, b" ")?;
    let (first, second) = cut_before(rest, b' ')?;
    if written(first)? != bound {
        return None;
    }
    let value = written(second)?;
    if value < bound { Some(value) } else { None }
}

// Whether a line is the last one behind so many steps.
fn is_end(line: &[u8], steps: u64) -> bool
    ensures { result ≡ bytes_eq line.now (Reading.end_line steps) }
{
    match behind(line, b"end ") {
        Some(count) => written(count) == Some(steps as u128),
        None => false,
    }
}

// Whether a line is a word and two numbers with a blank in between.
fn is_numbered(line: &[u8], word: &[u8], first: u64, second: u64) -> bool
    ensures { result ≡ bytes_eq line.now (word.now ++ (decimal first ++ 32 ∷ decimal second)) }
{
    let Some(numbers) = behind(line, word) else {
        return false;
    };
    let Some((left, right)) = cut_before(numbers, b' ') else {
        return false;
    };
    written(left) == Some(first as u128) && written(right) == Some(second as u128)
}

// What stands behind a first line that is a word and two numbers.
pub(crate) fn after_numbers<'a>(
    text: &'a [u8],
    word: &[u8],
    first: u64,
    second: u64,
) -> Option<&'a [u8]>
    ensures { option_map (λ rest. rest.now) result
        ≡ Reading.after_line (word.now ++ (decimal first ++ 32 ∷ decimal second)) text.now }
{
    let (line, after) = cut_before(text, b'\n')?;
    if is_numbered(line, word, first, second) {
        Some(after)
    } else {
        None
    }
}

// The value of a first line that is the line of a step, and what stands behind it.
pub(crate) fn step_first<'a>(text: &'a [u8], kind: Kind, bound: u128) -> Option<(u128, &'a [u8])>
    requires { bound < wide_limit }
    ensures { option_map (λ p. (p.0, p.1.now)) result ≡ Reading.step_first kind bound text.now }
{
    let (line, after) = cut_before(text, b'\n')?;
    let value = step_value(line, kind, bound)?;
    Some((value, after))
}

// What stands behind the last line of so many steps.
pub(crate) fn after_end<'a>(text: &'a [u8], steps: u64) -> Option<&'a [u8]>
    ensures { option_map (λ rest. rest.now) result
        ≡ Reading.after_line (Reading.end_line steps) text.now }
{
    let (line, after) = cut_before(text, b'\n')?;
    if is_end(line, steps) {
        Some(after)
    } else {
        None
    }
}
