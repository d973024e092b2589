ghost use Rattle.std.specs.{Prelude.{◌≡◌, ◌++◌, IfOk, OnOk, map}, Fmt.{decimal}};
ghost use Rattle.smp_log.specs.{Logs.{end_text, log_text, step_text, steps_text}, SectionLogs.{section_line, steps_of}};

use crate::{Head, SectionLines};
use itoa::Buffer;
use smp_frac::{Bytes, NoMemory};
use smp_split::Kind;
use std::alloc::Global;

/// The log of version 1 of the lines of a walk: the head, a line for each step, and how many steps there were.
pub fn old_log_bytes(alloc: Global, head: &Head, lines: &SectionLines) -> Result<Bytes, NoMemory>
    ensures { IfOk result (λ text. text ≡ log_text head.now (steps_of lines.now)) }
{
    let mut text = Bytes::new(alloc);
    text.push_all(head.as_slice())?;
    push_steps(&mut text, lines.as_slice())?;
    push_end(&mut text, lines.len())?;
    Ok(text)
}

/// The lines of the steps of a walk alone.
pub fn step_lines(alloc: Global, lines: &SectionLines) -> Result<Bytes, NoMemory>
    ensures { IfOk result (λ text. text ≡ steps_text (steps_of lines.now)) }
{
    let mut text = Bytes::new(alloc);
    push_steps(&mut text, lines.as_slice())?;
    Ok(text)
}

fn push_steps(text: &mut Bytes, steps: &[(usize, Kind, u128, u128)]) -> Result<(), NoMemory>
    ensures { OnOk result (text.new
        ≡ text.old ++ steps_text (steps_of (map section_line steps.now))) }
{
    for step in steps {
        push_step(text, step)?;
    }
    Ok(())
}

pub(crate) fn push_step(text: &mut Bytes, step: &(usize, Kind, u128, u128)) -> Result<(), NoMemory>
    ensures { OnOk result (text.new ≡ text.old ++ step_text (section_line step.now).1) }
{
    let (_, kind, bound, value) = *step;
    text.push_all(kind.word().as_bytes())?;
    text.push_all(b" ")?;
    push_number(text, bound)?;
    text.push_all(b" ")?;
    push_number(text, value)?;
    text.push_all(b"\n")
}

pub(crate) fn push_number(text: &mut Bytes, number: u128) -> Result<(), NoMemory>
    ensures { OnOk result (text.new ≡ text.old ++ decimal number) }
{
    let mut digits = Buffer::new();
    text.push_all(digits.format(number).as_bytes())
}

pub(crate) fn push_end(text: &mut Bytes, steps: usize) -> Result<(), NoMemory>
    ensures { OnOk result (text.new ≡ text.old ++ end_text steps) }
{
    text.push_all(b"end ")?;
    push_number(text, steps as u128)?;
    text.push_all(b"\n")
}
