ghost use Rattle.std.specs.Prelude.{◌<◌, ◌≤◌};
ghost use Rattle.smp_frac.specs.Limits.{wide_limit};
ghost use Rattle.smp_tape.specs.Tapes.{Values};
ghost use Rattle.base_tests.specs.Given.{given_stream};

use smp_tape::{ChaChaWords, DrawFault, Draws, Sieve, Tape, Words};
use std::alloc::Global;
use std::marker::Model;
use std::test::Fail;

// The words of a tape, and 0 behind them.
#[derive(Drop)]
struct Given {
    tape: Tape,
}

impl Model for Given {
    ghost Value = { Values };

    ghost view = { λ a. a.tape };
}

impl Words for Given {
    ghost stream = { given_stream };

    fn word(&mut self) -> u32 {
        match self.tape.below(1 << 32) {
            Ok(word) => word as u32,
            Err(_) => 0,
        }
    }
}

// 2^32, below which each word is a candidate, and the next bound, whose candidates are the lowest 33 bits of two words.
const WORD: u128 = 4294967296;

const WIDE: u128 = 4294967297;

// A draw below this bound, and then one of a word, where so many pairs of the words 5 and 1 come first, and then the words 7, 2
// and 3.
fn two_draws(alloc: Global, pairs: u32, bound: u128) -> Result<[Result<u128, DrawFault>; 2], Fail>
    requires positive { 1 ≤ bound }
    requires narrow { bound < wide_limit }
{
    let mut words = Vec::new(alloc);
    for _ in 0..pairs {
        words.extend_from_slice(&[5, 1])?;
    }
    words.extend_from_slice(&[7, 2, 3])?;
    let tape = Tape::from_values(alloc, words.as_slice())?;
    let mut sieve = Sieve::new(Given { tape });
    Ok([sieve.below(bound), sieve.below(WORD)])
}

#[test]
fn given_words_are_sieved(rt: HostRuntime) -> Result<(), Fail> {
    let rejected = Err(DrawFault::Rejected { bound: WIDE });
    // the pairs that come first, the bound, the draw, and the word that is next then
    let cases: [(u32, u128, Result<u128, DrawFault>, u128); 9] = [
        (1, 1, Ok(0), 5),
        (1, WORD, Ok(5), 1),
        (0, WORD, Ok(7), 2),
        (0, WIDE, Ok(7), 3),
        (1, WIDE, Ok(7), 3),
        (255, WIDE, Ok(7), 3),
        (256, WIDE, rejected, 7),
        (257, WIDE, rejected, 5),
        (1, 6, Ok(5), 1),
    ];
    let mut wrong = None;
    for (pairs, bound, wanted, next) in cases {
        if two_draws(rt.alloc(), pairs, bound)? != [wanted, Ok(next)] {
            wrong = Some((pairs, bound));
        }
    }
    assert_eq!(rt; wrong, None);
    Ok(())
}

// Four words of the key of zeros but for its last byte, behind so many others.
fn words_of(last: u8, before: u32) -> [u32; 4] {
    let mut key = [0; 32];
    key[31] = last;
    let mut words = ChaChaWords::new(key);
    for _ in 0..before {
        words.word();
    }
    [words.word(), words.word(), words.word(), words.word()]
}

// The first words of the first two blocks for a key of zeros but for its last byte: vectors 1 to 3 of appendix A.1 of
// RFC 8439, as little endian words.
#[test]
fn words_of_keys_are_the_published_ones(rt: HostRuntime) -> Result<(), Fail> {
    let words = [words_of(0, 0), words_of(0, 16), words_of(1, 16)];
    let published = [
        [0xade0b876, 0x903df1a0, 0xe56a5d40, 0x28bd8653],
        [0xbee7079f, 0x7a385155, 0x7c97ba98, 0x0d082d73],
        [0x2452eb3a, 0x9249f8ec, 0x8d829d9b, 0xddd4ceb1],
    ];
    assert_eq!(rt; words, published);
    Ok(())
}
