ghost use Rattle.std.specs.Prelude.{◌≡◌, ◌+◌, ◌<◌, ◌^◌, length, option_map, OnOk, IfErr, IfOk};
ghost use Rattle.smp_split.specs.Runs.{KeepsOn};
ghost use Rattle.smp_log.specs.{Fronts.{Names}, Lines.{whole_lines}};
ghost use Rattle.smp_log.specs.{LoneSections.{IsOpened, NoneOpens, opening_words}, Replayed.{Replays, ReplaysUntold, section_form}};
ghost use Rattle.smp_log.specs.LoneSections as LoneSections;
ghost use Rattle.smp_log.specs.Reading as Reading;

use crate::fault::untold;
use crate::lines::{after_numbers, behind, written};
use crate::parts::AllSteps;
use crate::replaying::after_front;
use crate::steps::replay_steps;
use crate::{Head, LogFault, ReplayFault};
use smp_frac::cut_before;
use smp_split::{NoTrace, Sections, Trace};

/// Replays one section of a log of version 2, from the state in which the design of that section alone begins. Sections
/// are numbered from 1, as in the log. The section stands from its opening line on, the first whole line that begins with
/// `stratum`, this number and a blank. No other section is read, and any bytes may follow. No memory is taken.
///
/// `Ok` comes exactly where the first three lines are those of version 2 and a genuine section stands from the opening line
/// on. The state is then its leaf. The section's place on the tape isn't compared. Otherwise [`LogFault::Differs`] names
/// the first of the three lines that is another; or the line behind the last whole one, where there is no opening line; or
/// the first line from the opening line on with which no genuine section goes on.
pub fn replay_section<S: Sections>(
    run: &S,
    state: &mut S::State,
    head: &Head,
    number: usize,
    log: &[u8],
) -> Result<(), LogFault>
    requires state { (S.method run.now).belongs state.old }
    requires one { (S.sectioning run.now).count ≡ 1 }
    ensures { ReplaysUntold (S.method run.now).tree (S.method run.now).belongs
        (section_form (S.method run.now).tree state.old head.now number log.now)
        state.new result }
{
    untold(replay_section_into(run, state, head, number, log, &mut NoTrace))
}

/// Replays one section as [`replay_section`] does, and tells each of its steps to a trace, in their order.
///
/// Want of memory comes only where the trace may refuse a line. After an error the steps that lead to the state were told,
/// and no more: after [`ReplayFault::Differs`] those of the lines from the opening line to the one that it names.
pub fn replay_section_into<S: Sections, T: Trace<S>>(
    run: &S,
    state: &mut S::State,
    head: &Head,
    number: usize,
    log: &[u8],
    trace: &mut T,
) -> Result<(), ReplayFault>
    requires state { (S.method run.now).belongs state.old }
    requires one { (S.sectioning run.now).count ≡ 1 }
    ensures replays { Replays (S.method run.now).tree (S.method run.now).belongs
        (section_form (S.method run.now).tree state.old head.now number log.now)
        state.old state.new (T.lines trace.old) (T.lines trace.new) T.may_refuse result }
    ensures kept { OnOk result (KeepsOn (T.keeps run.now) state.old state.new trace.old trace.new) }
{
    let sections = after_front(log, &head.sectioned())?;
    let (section, at) = opening(sections, number, 4)?;
    let Some(rest) = after_opening(section, number) else {
        return Err(ReplayFault::Differs { line: at });
    };
    let all = replay_steps(run, state, &AllSteps, rest, at, trace)?;
    if after_numbers(all.rest, b"done ", number as u64, all.steps).is_none() {
        return Err(ReplayFault::Differs {
            line: at + all.steps + 1,
        });
    }
    Ok(())
}

// What stands from the opening line on, and its number, where the text begins with the line of this number. Otherwise
// `Differs` names the line behind the last whole one.
fn opening(text: &[u8], number: usize, at: u64) -> Result<(&[u8], u64), ReplayFault>
    requires { at + length text.now < 2 ^ 64 }
    ensures found { IfOk result (λ p. IsOpened number text.now at p.0.now p.1) }
    ensures none { IfErr result (Names (λ line. NoneOpens number (whole_lines text.now)
        × (line ≡ at + length (whole_lines text.now)))) }
{
    let mut rest = text;
    let mut line = at;
    while let Some((first, after)) = cut_before(rest, b'\n') {
        if behind_opening(first, number).is_some() {
            return Ok((rest, line));
        }
        rest = after;
        line += 1;
    }
    Err(ReplayFault::Differs { line })
}

// What stands behind the first words of the opening line of a section.
fn behind_opening<'a>(line: &'a [u8], number: usize) -> Option<&'a [u8]>
    ensures { option_map (λ rest. rest.now) result
        ≡ Reading.behind (opening_words number) line.now }
{
    let Some(numbers) = behind(line, b"stratum ") else {
        return None;
    };
    let Some((first, rest)) = cut_before(numbers, b' ') else {
        return None;
    };
    if written(first) == Some(number as u128) {
        Some(rest)
    } else {
        None
    }
}

// The place on the tape of an opening line.
fn place_of(line: &[u8], number: usize) -> Option<u128>
    ensures { result ≡ LoneSections.place_of number line.now }
{
    let text = behind_opening(line, number)?;
    let place = written(text)?;
    if place < 1 << 64 { Some(place) } else { None }
}

// What stands behind a first line that is an opening line with a place on the tape.
fn after_opening<'a>(text: &'a [u8], number: usize) -> Option<&'a [u8]>
    ensures { option_map (λ rest. rest.now) result ≡ LoneSections.opening_first number text.now }
{
    let (line, after) = cut_before(text, b'\n')?;
    place_of(line, number)?;
    Some(after)
}
