ghost use Rattle.std.specs.{Prelude.{◌≡◌, ◌++◌, IfOk, OnOk, codes}, Fmt.{decimal}};
ghost use Rattle.smp_log.specs.SectionLogs.{RiseFrom, done_text, sections_text, stratum_text};

use crate::writing::{push_end, push_number, push_step};
use crate::{Head, SectionLines};
use smp_frac::{Bytes, NoMemory};
use std::alloc::Global;

/// The log of version 2 of the lines of a walk through so many sections: the head, a section after the other, and how many
/// steps there were. Nothing is walked again.
pub fn log_bytes(
    alloc: Global,
    head: &Head,
    sections: usize,
    lines: &SectionLines,
) -> Result<Bytes, NoMemory>
    requires { RiseFrom sections 0 lines.now }
    ensures { IfOk result (λ text. text ≡ sections_text head.now sections lines.now) }
{
    let steps = lines.as_slice();
    let mut text = Bytes::new(alloc);
    text.push_all(&head.sectioned())?;
    let mut next = 0;
    let mut taken = 0;
    for section in 0..sections {
        let number = section as u64 + 1;
        push_stratum(&mut text, number, taken)?;
        let mut own = 0;
        while next < steps.len() && steps[next].0 == section {
            let step = &steps[next];
            push_step(&mut text, step)?;
            next += 1;
            own += 1;
            taken += (step.2 > 1) as u64;
        }
        push_done(&mut text, number, own)?;
    }
    push_end(&mut text, next)?;
    Ok(text)
}

// The opening line of a section.
fn push_stratum(text: &mut Bytes, number: u64, place: u64) -> Result<(), NoMemory>
    ensures { OnOk result (text.new ≡ text.old ++ stratum_text number place) }
{
    push_numbers(text, b"stratum ", number, place)
}

// Its last line.
fn push_done(text: &mut Bytes, number: u64, steps: u64) -> Result<(), NoMemory>
    ensures { OnOk result (text.new ≡ text.old ++ done_text number steps) }
{
    push_numbers(text, b"done ", number, steps)
}

// A line of a word, with the blank behind it, and two numbers.
fn push_numbers(text: &mut Bytes, word: &[u8], first: u64, second: u64) -> Result<(), NoMemory>
    ensures { OnOk result (text.new ≡ text.old ++ (word.now
        ++ (decimal first ++ (codes " " ++ (decimal second ++ codes "\n"))))) }
{
    text.push_all(word)?;
    push_number(text, first as u128)?;
    text.push_all(b" ")?;
    push_number(text, second as u128)?;
    text.push_all(b"\n")
}
