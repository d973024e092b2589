ghost use Rattle.std.specs.Prelude.{◌≡◌, ◌↔◌, IsTrue};
ghost use Rattle.smp_io.specs.Calls.{calls_from_first, after_call, IsDueToFail};

use std::marker::Model;

/// Calls that are counted from 1, and the numbers of those that are to fail.
#[derive(Drop)]
pub struct FailingCalls {
    failing: Vec<u64>,
    made: u64,
}

impl Model for FailingCalls {
    ghost use Rattle.smp_io.specs.Calls.{Calls};

    ghost Value = { Calls };

    ghost view = { λ c. record { failing = c.failing.items; made = c.made } };
}

impl FailingCalls {
    /// No calls yet.
    pub fn new(failing: Vec<u64>) -> FailingCalls
        ensures { result ≡ calls_from_first failing.items }
    {
        FailingCalls { failing, made: 0 }
    }

    /// Counts a call, and says whether it is to fail.
    pub fn next_fails(&mut self) -> bool
        ensures due { IsTrue result ↔ IsDueToFail self.old }
        ensures counted { self.new ≡ after_call self.old }
    {
        self.made = self.made.saturating_add(1);
        self.failing.contains(&self.made)
    }
}
