ghost use Rattle.std.specs.Prelude.{◌≡◌, ◌*◌, ◌^◌, ◌<◌, ◌≤◌, IfOk, IfErr};
ghost use Rattle.smp_frac.specs.Limits.{wide_limit};
ghost use Rattle.smp_tape.specs.{Fair.{IsFair}, SieveSources.{sieve_source}, Streams.{ahead, behind}};
ghost use Rattle.smp_tape.specs.Sieves.{AllThrown, IsFirst, block, first_below, sieve_next};

use crate::{DrawFault, Draws, Words};
use std::marker::Model;

/// Draws from words: the first candidate below the bound, of at most 256. It is seen as the words that are left.
#[derive(Drop)]
pub struct Sieve<W: Words + Drop> {
    words: W,
}

impl<W: Words + Drop> Model for Sieve<W> {
    ghost Value = { W };

    ghost view = { λ a. a.words };
}

impl<W: Words + Drop> Sieve<W> {
    /// Draws from these words on.
    pub fn new(words: W) -> Sieve<W>
        ensures { result ≡ words }
    {
        Sieve { words }
    }
}

impl<W: Words + Drop> Draws for Sieve<W> {
    ghost source = { sieve_source W.stream };

    /// The first candidate below the bound, where one of the first 256 is, and else [`DrawFault::Rejected`]. The words
    /// of the candidates that were looked at are taken, also then. A bound of 1 takes no word.
    fn below(&mut self, bound: u128) -> Result<u128, DrawFault>
        requires positive { 1 ≤ bound }
        requires narrow { bound < wide_limit }
        ensures drawn { sieve_next W.stream self.old bound
            ≡ record { answer = result; rest = self.new } }
        ensures below { IfOk result (λ value. value < bound) }

        // What is drawn where there is a choice, and when nothing is.
        ensures first { 1 < bound
            → IfOk result (λ value. IsFirst W.stream self.old bound value self.new) }
        ensures thrown { IfErr result (λ fault.
            AllThrown W.stream self.old bound fault self.new) }

        // As many blocks of words for each value.
        ensures fair { 1 < bound → IsFair bound }
    {
        if bound == 1 {
            return Ok(0);
        }
        first_below(&mut self.words, bound)
    }
}

// The first candidate below the bound, of the 256 that come next, or that there is none.
fn first_below<W: Words>(words: &mut W, bound: u128) -> Result<u128, DrawFault>
    requires some { 2 ≤ bound }
    requires narrow { bound < wide_limit }
    ensures exact { result ≡ (first_below 256 (ahead W.stream words.old) 0 bound).0 }
    ensures rest { words.new
        ≡ behind W.stream (first_below 256 (ahead W.stream words.old) 0 bound).1 words.old }
    ensures first { IfOk result (λ value. IsFirst W.stream words.old bound value words.new) }
    ensures thrown { IfErr result (λ fault.
        AllThrown W.stream words.old bound fault words.new) }
{
    let bits = (bound - 1).ilog2() + 1;
    let count = (bits + 31) / 32;
    for tried in 0..256u32 {
        let block = next_block(words, count);
        let candidate = block % (1 << bits);
        if candidate < bound {
            return Ok(candidate);
        }
    }
    Err(DrawFault::Rejected { bound })
}

// The number that the next words make, the first one lowest.
fn next_block<W: Words>(words: &mut W, count: u32) -> u128
    requires { count ≤ 4 }
    ensures block { result ≡ block (ahead W.stream words.old) count }
    ensures small { result < 2 ^ (32 * count) }
    ensures rest { words.new ≡ behind W.stream count words.old }
{
    let mut block = 0;
    for k in 0..count {
        block += (words.word() as u128) << (32 * k);
    }
    block
}
