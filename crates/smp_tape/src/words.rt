ghost use Rattle.std.specs.Prelude.{◌≡◌};
ghost use Rattle.smp_tape.specs.Streams.{Stream};

/// Words of 32 bits, one after the other, with no end. They are known by a pure step over what they are seen as.
pub trait Words {
    /// The first word, and what is left behind it.
    ghost stream: { Stream Self };

    /// The next word, which is then taken.
    fn word(&mut self) -> u32
        ensures word { result ≡ stream.first self.old }
        ensures rest { self.new ≡ stream.next self.old };
}
