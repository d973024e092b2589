ghost use Rattle.std.specs.Prelude.{◌≡◌, true, [], ◌∷◌, ◌++◌, Some, OnOk, OnErr, length, map};
ghost use Rattle.smp_log.specs.SectionLogs.{ArePlaced, section_line, steps_of};

use smp_frac::NoMemory;
use smp_split::{Kind, Sections, Trace};
use std::alloc::Global;
use std::marker::Model;

/// Keeps every line of a walk, with the section of the state at which its step was asked. It is seen as the list of these
/// pairs, of which [`log_bytes`](crate::log_bytes) writes the log.
#[derive(Drop)]
pub struct SectionLines {
    lines: Vec<(usize, Kind, u128, u128)>,
}

impl Model for SectionLines {
    ghost use Rattle.std.specs.Prelude.{List, ℕ, map};
    ghost use Rattle.smp_split.specs.Paths.{Entry};
    ghost use Rattle.smp_log.specs.SectionLogs.{section_line};

    ghost Value = { List (ℕ × Entry) };

    ghost view = { λ a. map section_line a.lines.items };
}

impl SectionLines {
    /// No line.
    pub fn new(alloc: Global) -> SectionLines
        ensures { result ≡ [] }
    {
        SectionLines {
            lines: Vec::new(alloc),
        }
    }

    /// Puts a line behind the others: its section, counted from 0, its kind, its bound and its value.
    pub fn push(
        &mut self,
        section: usize,
        kind: Kind,
        bound: u128,
        value: u128,
    ) -> Result<(), NoMemory>
        ensures ok { OnOk result (self.new ≡ self.old ++ (section, (kind, bound, value)) ∷ []) }
        ensures err { OnErr result (self.new ≡ self.old) }
    {
        self.lines.push((section, kind, bound, value))?;
        Ok(())
    }

    /// How many lines there are.
    pub fn len(&self) -> usize
        ensures { result ≡ length self.now }
    {
        self.lines.len()
    }

    // The lines in order: section, kind, bound and value.
    pub(crate) fn as_slice(&self) -> &[(usize, Kind, u128, u128)]
        ensures { map section_line result.now ≡ self.now }
    {
        self.lines.as_slice()
    }
}

impl<S: Sections> Trace<S> for SectionLines {
    ghost lines = { λ a. Some (steps_of a) };

    ghost may_refuse = { true };

    ghost keeps = { λ design from to a.
        ArePlaced (S.method design).tree (S.sectioning design) from to a };

    fn line(
        &mut self,
        design: &S,
        state: &S::State,
        kind: Kind,
        bound: u128,
        value: u128,
    ) -> Result<(), NoMemory> {
        self.push(design.section(state), kind, bound, value)
    }
}
