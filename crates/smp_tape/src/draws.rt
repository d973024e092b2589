ghost use Rattle.std.specs.Prelude.{◌≡◌, ◌<◌, ◌≤◌, IfOk};
ghost use Rattle.smp_frac.specs.Limits.{wide_limit};
ghost use Rattle.smp_tape.specs.Sources.{Source, Drawn};

/// Why a draw was refused.
#[derive(Clone, Copy, Debug, PartialEq, Eq)]
pub enum DrawFault {
    /// No value is left.
    Short,
    /// The value at this place, counted from 1, isn't below the bound that was asked.
    TooBig { place: u64, value: u128 },
    /// Every candidate for a draw below this bound was thrown away.
    Rejected { bound: u128 },
}

/// A source of draws. It is known by a pure step over what it is seen as.
pub trait Draws {
    /// What it answers to a bound, and what is left of it then.
    ghost source: { Source Self };

    /// A whole number below the bound. One that is below 1 is 0, and leaves the source as it is.
    fn below(&mut self, bound: u128) -> Result<u128, DrawFault>
        requires positive { 1 ≤ bound }
        requires narrow { bound < wide_limit }
        ensures drawn { source.next self.old bound ≡ record { answer = result; rest = self.new } }
        ensures below { IfOk result (λ value. value < bound) };
}
