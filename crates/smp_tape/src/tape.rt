ghost use Rattle.std.specs.Prelude.{◌≡◌, ◌≤◌, [], length, take, drop, IfOk};
ghost use Rattle.smp_tape.specs.{TapeSources.{tape_source}, Faults.{is_memory}, TapeText.{tape_of}, Tapes.{Values}};
ghost use Rattle.smp_frac.specs.Memory.{Gives};

use crate::reading::values_in;
use crate::{DrawFault, Draws, TapeFault};
use smp_frac::NoMemory;
use std::alloc::Global;
use std::marker::Model;

/// Values that are drawn in their order. It is seen as the values taken and the values left.
#[derive(Drop)]
pub struct Tape {
    values: Vec<u128>,
    next: usize,
}

impl Model for Tape {
    ghost Value = { Values };

    ghost view = { λ t. record { taken = take t.next t.values.items; left = drop t.next t.values.items } };

    ghost invariant = { λ t. t.next ≤ length t.values.items };
}

impl Tape {
    /// Reads a tape: a value a line, each of one or more decimal digits with a value below 2^128. Leading zeros are
    /// allowed. A line ends in a line feed, which the last one may lack, and one carriage return may stand at its
    /// end. No bytes are a tape without values.
    ///
    /// [`TapeFault::Line`] names the first line that isn't such a number, an empty line among them.
    pub fn read(alloc: Global, bytes: &[u8]) -> Result<Tape, TapeFault>
        ensures values { Gives is_memory (λ tape. tape.left) result (tape_of bytes.now) }
        ensures untaken { IfOk result (λ tape. tape.taken ≡ []) }
    {
        match values_in(alloc, bytes) {
            Ok(values) => Ok(Tape { values, next: 0 }),
            Err(fault) => Err(fault),
        }
    }

    /// A tape of these values, of which none is taken.
    pub fn from_values(alloc: Global, values: &[u128]) -> Result<Tape, NoMemory>
        ensures { IfOk result (λ tape. (tape.taken ≡ []) × (tape.left ≡ values.now)) }
    {
        let Ok(values) = Vec::from_slice(alloc, values) else {
            return Err(NoMemory);
        };
        Ok(Tape { values, next: 0 })
    }

    /// How many values are left.
    pub fn left(&self) -> u64
        ensures { result ≡ length self.now.left }
    {
        (self.values.len() - self.next) as u64
    }

    /// How many values were taken.
    pub fn taken(&self) -> u64
        ensures { result ≡ length self.now.taken }
    {
        self.next as u64
    }
}

impl Draws for Tape {
    ghost source = { tape_source };

    /// The next value, where the bound is 2 or more: it is then taken, and it stays where it is refused.
    fn below(&mut self, bound: u128) -> Result<u128, DrawFault> {
        if bound == 1 {
            return Ok(0);
        }
        if self.next == self.values.len() {
            return Err(DrawFault::Short);
        }
        let value = self.values[self.next];
        if value < bound {
            self.next += 1;
            Ok(value)
        } else {
            Err(DrawFault::TooBig {
                place: self.next as u64 + 1,
                value,
            })
        }
    }
}
