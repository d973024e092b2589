ghost use Rattle.std.specs.{Prelude.{◌≡◌, ◌∷◌, ◌<◌, ◌^◌, length}, Io.BufRead.{strip_last}};
ghost use Rattle.smp_tape.specs.{TapeText.{lines_in, tape_of}, Faults.{is_memory}};
ghost use Rattle.smp_tape.specs.TapeText;
ghost use Rattle.smp_frac.specs.Memory.{Gives};

use crate::TapeFault;
use smp_frac::{cut_before, number};
use std::alloc::Global;

// The values of a tape, a value a line.
#[tactic(auto, unfolding(crate::specs::TapeText::tape_of))]
pub(crate) fn values_in(alloc: Global, bytes: &[u8]) -> Result<Vec<u128>, TapeFault>
    ensures { Gives is_memory (λ v. v.items) result (tape_of bytes.now) }
{
    let mut values = Vec::new(alloc);
    let mut rest = bytes;
    while !rest.is_empty() {
        let (line, after) = first_line(rest);
        let Some(value) = value_of(line) else {
            return Err(TapeFault::Line {
                line: values.len() as u64 + 1,
            });
        };
        values.push(value)?;
        rest = after;
    }
    Ok(values)
}

// The first line of a text, without its line feed, and the text behind it.
fn first_line(text: &[u8]) -> (&[u8], &[u8])
    requires { 0 < length text.now }
    ensures lines { lines_in text.now ≡ result.0.now ∷ lines_in result.1.now }
    ensures shorter { length result.1.now < length text.now }
{
    match cut_before(text, b'\n') {
        Some(parts) => parts,
        None => (text, &[]),
    }
}

fn value_of(line: &[u8]) -> Option<u128>
    ensures { result ≡ TapeText.line_value line.now }
{
    number(without_carriage_return(line))
}

fn without_carriage_return(line: &[u8]) -> &[u8]
    ensures { result.now ≡ strip_last 13 line.now }
{
    if !line.is_empty() && line[line.len() - 1] == b'\r' {
        &line[..line.len() - 1]
    } else {
        line
    }
}
