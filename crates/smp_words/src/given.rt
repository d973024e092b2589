//! What a command line gives.

ghost use Rattle.std.specs.{Prelude.{◌≡◌, map}, List.{list_any}, Str.{bytes_eq}};
ghost use Rattle.clap.specs.Words.{rows_of, found_of};
ghost use Rattle.smp_words.specs.{CommandLine.{option_names}, Views.{given_view, named_view, names_view}};
ghost use Rattle.smp_words.specs.Words;
ghost use Rattle.smp_words.specs.Words.{given_of, options_of, has_only, all_distinct, number_from, seed_from};

use crate::command_line::{value_of, values_of};
use clap::ArgMatches;
use hex::FromHex;
use smp_frac::number;

/// The command, the words after it, and the value of each option that is there.
#[derive(Clone, Copy)]
pub(crate) struct Given<'b, 'a> {
    pub(crate) command: Option<&'a str>,
    pub(crate) rest: Option<&'b [&'a str]>,
    pub(crate) design: Option<&'a str>,
    pub(crate) frame: Option<&'a str>,
    pub(crate) tape: Option<&'a str>,
    pub(crate) seed: Option<&'a str>,
    pub(crate) log: Option<&'a str>,
    pub(crate) sample: Option<&'a str>,
    pub(crate) stratum: Option<&'a str>,
    pub(crate) to: Option<&'a str>,
}

impl<'b, 'a> Given<'b, 'a> {
    pub(crate) fn from_matches(matches: &'b ArgMatches<'a>) -> Given<'b, 'a>
        ensures { given_view result ≡ given_of (rows_of (found_of matches.entry.now)) }
    {
        Given {
            command: value_of(matches, "command"),
            rest: values_of(matches, "rest"),
            design: value_of(matches, "design"),
            frame: value_of(matches, "frame"),
            tape: value_of(matches, "tape"),
            seed: value_of(matches, "seed"),
            log: value_of(matches, "log"),
            sample: value_of(matches, "sample"),
            stratum: value_of(matches, "stratum"),
            to: value_of(matches, "to"),
        }
    }

    /// No word stands after the command.
    pub(crate) fn has_no_rest(&self) -> bool
        ensures { result ≡ Words.is_empty (given_view self.now).rest }
    {
        match self.rest {
            Some(rest) => rest.is_empty(),
            None => true,
        }
    }

    // Every option: its name, and its value where it is there.
    fn options(&self) -> [(&'static str, Option<&'a str>); 8]
        ensures options { map named_view result ≡ options_of (given_view self.now) }
        ensures names { map (λ option. option.0.now) result ≡ option_names }
    {
        [
            ("design", self.design),
            ("frame", self.frame),
            ("tape", self.tape),
            ("seed", self.seed),
            ("log", self.log),
            ("sample", self.sample),
            ("stratum", self.stratum),
            ("to", self.to),
        ]
    }

    /// Every option that is there has one of these names.
    pub(crate) fn has_only(&self, names: &[&str]) -> bool
        ensures { result ≡ has_only (names_view names.now) (given_view self.now) }
    {
        are_among(names, &self.options())
    }
}

// Every one of the options that is there has one of the names.
fn are_among(names: &[&str], options: &[(&str, Option<&str>)]) -> bool
    ensures { result ≡ Words.are_among (names_view names.now) (map named_view options.now) }
{
    for (name, value) in options {
        if value.is_some() && !contains_name(names, name) {
            return false;
        }
    }
    true
}

/// No two of the texts are the same.
pub(crate) fn are_distinct(names: &[&str]) -> bool
    ensures { result ≡ all_distinct (map (λ n. n.now) names.now) }
{
    for (i, name) in names.iter().enumerate() {
        if contains_name(&names[i + 1..], name) {
            return false;
        }
    }
    true
}

fn contains_name(names: &[&str], name: &str) -> bool
    ensures { result ≡ list_any (bytes_eq name.now) (map (λ n. n.now) names.now) }
{
    for other in names {
        if name == *other {
            return true;
        }
    }
    false
}

/// The number that decimal digits write, where it lies from `least` to `most`.
pub(crate) fn number_from(least: u128, most: u128, text: &str) -> Option<u128>
    ensures { result ≡ number_from least most text.now }
{
    match number(text.as_bytes()) {
        Some(n) if n >= least && n <= most => Some(n),
        _ => None,
    }
}

/// The bytes that 64 hexadecimal digits write, in either case.
pub(crate) fn seed_from(text: &str) -> Option<[u8; 32]>
    ensures { result ≡ seed_from text.now }
{
    <[u8; 32] as FromHex>::from_hex(text).ok()
}
