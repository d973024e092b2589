//! Rows of CSV, written one after another.

ghost use Rattle.std.specs.Prelude.{◌≡◌, map, None, Some, [], IfOk, OnOk, OnErr};
ghost use Rattle.smp_weights.specs.Rows.{AddsRow, row};

use csv::{Writer, WriterBuilder};
use smp_frac::{Bytes, NoMemory};
use std::alloc::Global;
use std::marker::Model;

/// Rows of CSV, written one after another by one writer: the fields with a comma in between, each in quotes where it needs
/// them, and a line feed. A lone empty field is `""`.
///
/// It is seen as the text of its rows, or as no text once memory ran out.
#[derive(Drop)]
pub struct CsvRows {
    writer: Writer<Vec<u8>>,
    // Memory ran out, so that nothing is told any more.
    failed: bool,
}

impl Model for CsvRows {
    ghost use Rattle.std.specs.Prelude.{◌≡◌, ℕ, List, Option, Some, None, false, if◌then◌else◌};
    ghost use Rattle.csv.specs.Writing.{text_written};
    ghost use Rattle.smp_weights.specs.Kept.{IsBetween};

    ghost Value = { Option (List ℕ) };

    ghost view = { λ a. if a.failed then None else text_written (λ v. Some v.items) a.writer };

    ghost invariant = { λ a. a.failed ≡ false → IsBetween a.writer };
}

impl CsvRows {
    /// No rows.
    pub fn new(alloc: Global) -> CsvRows
        ensures { result ≡ Some [] }
    {
        CsvRows {
            writer: WriterBuilder::new()
                .flexible(true)
                .from_writer(Vec::new(alloc)),
            failed: false,
        }
    }

    /// Writes a row behind those before. After want of memory nothing is told any more.
    pub fn push(&mut self, fields: &[&[u8]]) -> Result<(), NoMemory>
        ensures ok { OnOk result (AddsRow self.old self.new (row (map (λ f. f.now) fields.now))) }
        ensures err { OnErr result (self.new ≡ None) }
    {
        if self.failed {
            return Err(NoMemory);
        }
        match self.writer.write_fields(fields) {
            Ok(()) => Ok(()),
            Err(_) => {
                self.failed = true;
                Err(NoMemory)
            }
        }
    }

    /// The text of the rows, without a copy.
    pub fn into_bytes(self) -> Result<Bytes, NoMemory>
        ensures { IfOk result (λ bytes. self ≡ Some bytes) }
    {
        let CsvRows { writer, failed } = self;
        if failed {
            return Err(NoMemory);
        }
        match writer.into_inner() {
            Ok(text) => Ok(Bytes::from_vec(text)),
            Err(_) => Err(NoMemory),
        }
    }
}
