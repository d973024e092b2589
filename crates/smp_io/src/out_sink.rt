ghost use Rattle.std.specs.Prelude.{◌≡◌, ◌≤◌, None, OnOk, OnErr, IsErrOf};
ghost use Rattle.smp_io.specs.{Counts.{Rose, failures_after, shortages_after}, Sink.{with_bytes, AppendsFront}};

use crate::{Sink, StoreFault};
use std::marker::Model;

/// Standard output. It doesn't tell what was written.
#[derive(Drop)]
pub struct OutSink<'a, R: Print> {
    rt: &'a R,
    failed: u64,
    short: u64,
}

// Callers see how many of its puts failed, and how many ended for want of memory.
impl<'a, R: Print> Model for OutSink<'a, R> {
    ghost use Rattle.smp_io.specs.Counts.{PutCounts};

    ghost Value = { PutCounts };

    ghost view = { λ s. record { failed = s.failed; short = s.short } };
}

impl<'a, R: Print> OutSink<'a, R> {
    /// The standard output of the program.
    pub fn new(rt: &'a R) -> OutSink<'a, R>
        ensures failed { result.failed ≡ 0 }
        ensures short { result.short ≡ 0 }
    {
        OutSink {
            rt,
            failed: 0,
            short: 0,
        }
    }
}

impl<'a, R: Print> Sink for OutSink<'a, R> {
    ghost written = { λ _. None };

    ghost faults = { λ s. s.failed };

    ghost shortages = { λ s. s.short };

    fn put(&mut self, bytes: &[u8]) -> Result<(), StoreFault>
        ensures ok { OnOk result (None ≡ with_bytes bytes.now None) }
        ensures err { OnErr result (AppendsFront bytes.now None None) }
        ensures never_falls { self.old.failed ≤ self.new.failed }
        ensures never_fall { self.old.short ≤ self.new.short }
        ensures cause { IsErrOf result StoreFault.Failed → Rose self.old.failed self.new.failed }
        ensures uncounted { IsErrOf result StoreFault.NoMemory → self.new.failed ≡ self.old.failed }
        ensures counted { self.new.failed ≡ failures_after result self.old.failed }
        ensures short { IsErrOf result StoreFault.NoMemory → Rose self.old.short self.new.short }
        ensures counted_short { self.new.short ≡ shortages_after result self.old.short }
    {
        match self.rt.write_all(bytes) {
            Ok(()) => Ok(()),
            Err(error) => {
                let fault = StoreFault::from(error);
                if fault == StoreFault::Failed {
                    self.failed = self.failed.saturating_add(1);
                } else {
                    self.short = self.short.saturating_add(1);
                }
                Err(fault)
            }
        }
    }
}
