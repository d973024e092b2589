//! The table of the commands.

ghost use Rattle.std.specs.Prelude.{◌≡◌, map, IfOk, IfSome, Some, None, string_bytes, option_map};
ghost use Rattle.smp_words.specs.Views.{given_view, option_view, names_view, files_view};
ghost use Rattle.smp_words.specs.Words;
ghost use Rattle.smp_words.specs.Words.{command_of, command_given, quick_words, demo_words, draw_by, have_own_names, IsAsked};

use crate::command_line::matches_from;
use crate::given::{Given, are_distinct, number_from, seed_from};
use crate::{
    Chance, Command, DemoArguments, DesignArguments, DrawArguments, MigrateArguments,
    QuickArguments, ReplayArguments,
};
use smp_frac::{MOST_ROWS, NoMemory, Text};
use std::alloc::Global;

const MIN_DEMO_UNITS: u128 = 30;

const MAX_DEMO_UNITS: u128 = 100_000;

const MAX_DEMO_SEED: u128 = u64::MAX as u128;

/// What the words of a command line, the program's name first, ask for. `None` where they are those of no command:
/// the usage of the program.
#[tactic(auto, unfolding(crate::specs::Words::command_of))]
pub fn command_from(alloc: Global, words: &[String]) -> Result<Option<Command>, NoMemory>
    ensures command { IfOk result (λ command. command ≡ command_of (map string_bytes words.now)) }
    ensures asked { IfOk result (λ command. IfSome command IsAsked) }
{
    match matches_from(alloc, words)? {
        Some(matches) => command_given(alloc, &Given::from_matches(&matches)),
        None => Ok(None),
    }
}

#[tactic(auto, unfolding(crate::specs::Words::command_given))]
fn command_given(alloc: Global, given: &Given) -> Result<Option<Command>, NoMemory>
    ensures command { IfOk result (λ command. command ≡ command_given (given_view given.now)) }
{
    match given.command {
        Some(name) if given.has_only(options_for(name)) => by_name(alloc, name, given),
        _ => Ok(None),
    }
}

// The names of the options that a command takes.
fn options_for(name: &str) -> &'static [&'static str]
    ensures { names_view result.now ≡ Words.options_for name.now }
{
    match name {
        "draw" => &["design", "frame", "tape", "seed", "log", "sample"],
        "replay" => &["design", "frame", "log", "sample", "stratum"],
        "migrate" => &["design", "frame", "log", "to"],
        "probs" | "check" | "joint" => &["design", "frame"],
        _ => &[],
    }
}

fn by_name(alloc: Global, name: &str, given: &Given) -> Result<Option<Command>, NoMemory>
    ensures { IfOk result (λ command. command ≡ Words.by_name name.now (given_view given.now)) }
{
    match name {
        "quick" => quick(alloc, given),
        "draw" => draw(alloc, given),
        "replay" => replay(alloc, given),
        "migrate" => migrate(alloc, given),
        "probs" => Ok(design_arguments(alloc, given)?.map(Command::Probs)),
        "check" => Ok(design_arguments(alloc, given)?.map(Command::Check)),
        "joint" => Ok(design_arguments(alloc, given)?.map(Command::Joint)),
        "demo" => Ok(demo(given)),
        _ => Ok(None),
    }
}

fn quick(alloc: Global, given: &Given) -> Result<Option<Command>, NoMemory>
    ensures { IfOk result (λ command. command ≡ quick_words (given_view given.now).rest) }
{
    match given.rest {
        Some([frame, n, tape, out]) if are_distinct(&[frame, tape, out]) => {
            let Some(n) = number_from(1, MOST_ROWS as u128, n) else {
                return Ok(None);
            };
            Ok(Some(Command::Quick(QuickArguments {
                frame: Text::from_str(alloc, frame)?,
                n: n as u32,
                tape: Text::from_str(alloc, tape)?,
                out: Text::from_str(alloc, out)?,
            })))
        }
        _ => Ok(None),
    }
}

fn demo(given: &Given) -> Option<Command>
    ensures { result ≡ demo_words (given_view given.now).rest }
{
    let rest = given.rest?;
    let [n, seed] = rest else {
        return None;
    };
    let n = number_from(MIN_DEMO_UNITS, MAX_DEMO_UNITS, n)? as u32;
    let seed = number_from(0, MAX_DEMO_SEED, seed)? as u64;
    Some(Command::Demo(DemoArguments { n, seed }))
}

fn design_arguments(alloc: Global, given: &Given) -> Result<Option<DesignArguments>, NoMemory>
    ensures { IfOk result (λ arguments. arguments ≡ Words.design_arguments (given_view given.now)) }
{
    if !given.has_no_rest() {
        return Ok(None);
    }
    let Some(design) = given.design else {
        return Ok(None);
    };
    let Some(frame) = given.frame else {
        return Ok(None);
    };
    if !are_distinct(&[design, frame]) {
        return Ok(None);
    }
    Ok(Some(DesignArguments {
        design: Text::from_str(alloc, design)?,
        frame: Text::from_str(alloc, frame)?,
    }))
}

// The four files that `draw`, `replay` and `migrate` name by options: the last one is written.
#[derive(Clone, Copy)]
struct LogFiles<'a> {
    design: &'a str,
    frame: &'a str,
    log: &'a str,
    out: &'a str,
}

impl<'a> LogFiles<'a> {
    // No two of the names are the same.
    fn are_distinct(&self) -> bool
        ensures { result ≡ have_own_names (files_view self.now) }
    {
        are_distinct(&[self.design, self.frame, self.log, self.out])
    }
}

fn log_files<'a>(given: &Given<'_, 'a>, out: Option<&'a str>) -> Option<LogFiles<'a>>
    ensures { option_map files_view result
        ≡ Words.log_files (given_view given.now) (option_view out.entry) }
{
    if !given.has_no_rest() {
        return None;
    }
    Some(LogFiles {
        design: given.design?,
        frame: given.frame?,
        log: given.log?,
        out: out?,
    })
}

// The same, where no two of the names are the same.
fn own_log_files<'a>(given: &Given<'_, 'a>, out: Option<&'a str>) -> Option<LogFiles<'a>>
    ensures { option_map files_view result
        ≡ Words.own_log_files (given_view given.now) (option_view out.entry) }
{
    let files = log_files(given, out)?;
    files.are_distinct().then_some(files)
}

fn draw(alloc: Global, given: &Given) -> Result<Option<Command>, NoMemory>
    ensures { IfOk result (λ command. command ≡ Words.draw (given_view given.now)) }
{
    let Some(files) = log_files(given, given.sample) else {
        return Ok(None);
    };
    match (given.tape, given.seed) {
        (Some(tape), None) => draw_by_tape(alloc, &files, tape),
        (None, Some(seed)) => draw_by_seed(alloc, &files, seed),
        _ => Ok(None),
    }
}

fn draw_by_tape(alloc: Global, files: &LogFiles, tape: &str) -> Result<Option<Command>, NoMemory>
    ensures { IfOk result (λ command.
        command ≡ draw_by (files_view files.now) (Some tape.now) None) }
{
    if !are_distinct(&[files.design, files.frame, tape, files.log, files.out]) {
        return Ok(None);
    }
    let tape = Text::from_str(alloc, tape)?;
    Ok(Some(draw_command(alloc, files, Chance::Tape(tape))?))
}

fn draw_by_seed(alloc: Global, files: &LogFiles, seed: &str) -> Result<Option<Command>, NoMemory>
    ensures { IfOk result (λ command.
        command ≡ draw_by (files_view files.now) None (Some seed.now)) }
{
    if !files.are_distinct() {
        return Ok(None);
    }
    match seed_from(seed) {
        Some(seed) => Ok(Some(draw_command(alloc, files, Chance::Seed(seed))?)),
        None => Ok(None),
    }
}

fn draw_command(alloc: Global, files: &LogFiles, chance: Chance) -> Result<Command, NoMemory>
    ensures { IfOk result (λ command. command ≡ Words.draw_command (files_view files.now) chance) }
{
    Ok(Command::Draw(DrawArguments {
        design: Text::from_str(alloc, files.design)?,
        frame: Text::from_str(alloc, files.frame)?,
        chance,
        log: Text::from_str(alloc, files.log)?,
        sample: Text::from_str(alloc, files.out)?,
    }))
}

fn replay(alloc: Global, given: &Given) -> Result<Option<Command>, NoMemory>
    ensures { IfOk result (λ command. command ≡ Words.replay (given_view given.now)) }
{
    let Some(files) = own_log_files(given, given.sample) else {
        return Ok(None);
    };
    let Some(stratum) = stratum_from(given.stratum) else {
        return Ok(None);
    };
    Ok(Some(Command::Replay(ReplayArguments {
        design: Text::from_str(alloc, files.design)?,
        frame: Text::from_str(alloc, files.frame)?,
        log: Text::from_str(alloc, files.log)?,
        sample: Text::from_str(alloc, files.out)?,
        stratum,
    })))
}

// The number of a stratum, where one is given. `None` where it isn't one from 1 to 200,000.
fn stratum_from(number: Option<&str>) -> Option<Option<u32>>
    ensures { result ≡ Words.stratum_from (option_view number.entry) }
{
    match number {
        None => Some(None),
        Some(number) => Some(Some(number_from(1, MOST_ROWS as u128, number)? as u32)),
    }
}

fn migrate(alloc: Global, given: &Given) -> Result<Option<Command>, NoMemory>
    ensures { IfOk result (λ command. command ≡ Words.migrate (given_view given.now)) }
{
    let Some(files) = own_log_files(given, given.to) else {
        return Ok(None);
    };
    Ok(Some(Command::Migrate(MigrateArguments {
        design: Text::from_str(alloc, files.design)?,
        frame: Text::from_str(alloc, files.frame)?,
        log: Text::from_str(alloc, files.log)?,
        to: Text::from_str(alloc, files.out)?,
    })))
}
