//! Numbers that are written one at a time, and counters of how often they are.
//!
//! What is counted takes no bytes at run time: the counts stand in contracts alone.

ghost use Rattle.std.specs.Prelude.{◌≡◌, ◌+◌, ◌<◌, ◌≤◌, IfOk, length, slice_index, slice_set};

use http_server::Log;
use smp_frac::NoMemory;
use std::alloc::Global;
use std::marker::Model;
use std::sync::ledger::{Blank, Book, Ledger, Share};

/// How many steps were taken. Only [`Steps::tick`] changes it.
#[derive(Drop)]
pub struct Steps<L: Ledger> {
    book: Book<L>,
    share: Share<L>,
}

impl<L: Ledger> Model for Steps<L> {
    ghost use Rattle.std.specs.Prelude.{ℕ, ◌<◌};

    ghost Value = { ℕ };

    ghost view = { λ a. a.book.total };

    ghost invariant = { λ a. 0 < a.share.parts };
}

impl<L: Ledger> Steps<L> {
    /// A counter of no steps, on a ledger that nothing was written into.
    pub fn new(blank: Blank) -> Steps<L>
        requires name { blank.name ≡ L.name }
        requires parts { blank.parts ≡ L.parts }
        requires some { 1 ≤ blank.parts }
        ensures { result ≡ 0 }
    {
        let (book, share) = blank.open();
        Steps { book, share }
    }

    /// Takes a step.
    pub fn tick(&mut self)
        ensures { self.new ≡ self.old + 1 }
    {
        self.book.add(&mut self.share, 1);
    }
}

/// Numbers, and how often one of them was written.
#[derive(Drop)]
pub struct Cells {
    values: Vec<u128>,
    /// What was written, one entry for each time: a history that only proofs read and that takes no bytes. The crate stands on the kit's
    /// `http_server` for this type alone.
    writes: Log<(), ()>,
}

impl Model for Cells {
    ghost use Rattle.std.specs.Prelude.{length};
    ghost use Rattle.smp_kernel.specs.Cells.{Written};

    ghost Value = { Written };

    ghost view = { λ a. record { values = a.values.items; writes = length a.writes.items } };
}

impl Cells {
    /// These numbers, none of which was written.
    pub fn new(alloc: Global, values: &[u128]) -> Result<Cells, NoMemory>
        ensures { IfOk result (λ cells. cells ≡ record { values = values.now; writes = 0 }) }
    {
        Ok(Cells {
            values: Vec::from_slice(alloc, values)?,
            writes: Log::new(),
        })
    }

    /// How many numbers there are.
    pub fn len(&self) -> usize
        ensures { result ≡ length self.now.values }
    {
        self.values.len()
    }

    /// The number at a place.
    pub fn get(&self, place: usize) -> u128
        requires { place < length self.now.values }
        ensures { result ≡ slice_index self.now.values place }
    {
        self.values[place]
    }

    /// Writes the number at a place, which is one step.
    pub fn set<L: Ledger>(&mut self, place: usize, value: u128, steps: &mut Steps<L>)
        requires { place < length self.old.values }
        ensures values { self.new.values ≡ slice_set self.old.values place value }
        ensures writes { self.new.writes ≡ self.old.writes + 1 }
        ensures steps { steps.new ≡ steps.old + 1 }
    {
        self.values[place] = value;
        self.writes = self.writes.and(&(), &());
        steps.tick();
    }
}
