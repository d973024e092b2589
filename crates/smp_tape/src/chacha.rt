ghost use Rattle.std.specs.Prelude.{◌≡◌, ℕ};
ghost use Rattle.rand_chacha.specs.ChaCha.{key_of};
ghost use Rattle.smp_tape.specs.{Keys.{key_word, words_of_seed}, SieveSources.{key_stream}, Streams.{ahead}};

use crate::Words;
use rand_chacha::ChaCha20Rng;
use rand_core::SeedableRng;
use rand_core::utils::NextWord;
use std::marker::Model;

/// The words of a key, from its first on: those of ChaCha with 20 rounds, stream 0. They come round again after 2^68
/// words. It is seen as the key and the place of the next word.
#[derive(Drop)]
pub struct ChaChaWords {
    generator: ChaCha20Rng,
}

impl Model for ChaChaWords {
    ghost use Rattle.std.specs.Prelude.{◌≡◌, ◌<◌, ◌^◌};
    ghost use Rattle.smp_tape.specs.Keys.{Place};

    ghost Value = { Place };

    ghost view = { λ a. record { key = a.generator.key; next = a.generator.word_pos } };

    ghost invariant = { λ a. (a.generator.stream ≡ 0) × (a.generator.word_pos < 2 ^ 68) };
}

impl ChaChaWords {
    /// The words of this key, none of which is taken. The bytes of the seed are those of the key, in order.
    pub fn new(seed: [u8; 32]) -> ChaChaWords
        ensures seen { result ≡ words_of_seed seed }
        ensures words { (place : ℕ) → ahead key_stream result place ≡ key_word (key_of seed) place }
    {
        ChaChaWords {
            generator: ChaCha20Rng::from_seed(seed),
        }
    }
}

impl Words for ChaChaWords {
    ghost use Rattle.smp_tape.specs.SieveSources.{key_stream};

    ghost stream = { key_stream };

    fn word(&mut self) -> u32 {
        self.generator.next_word()
    }
}
