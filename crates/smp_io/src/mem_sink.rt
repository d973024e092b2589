ghost use Rattle.std.specs.Prelude.{◌≡◌, ◌++◌, ◌≤◌, ◌↔◌, Some, OnOk, OnErr, IsErrOf};
ghost use Rattle.smp_io.specs.{Counts.{Rose, failures_after, shortages_after}, Calls.{after_call, IsDueToFail}, Sink.{AppendsFront}};
ghost use Rattle.smp_io.specs.Memory.{empty_sink};

use crate::calls::FailingCalls;
use crate::{Sink, StoreFault};
use smp_frac::Bytes;
use std::alloc::Global;
use std::marker::Model;

/// A sink in memory, of which chosen puts fail.
#[derive(Drop)]
pub struct MemSink {
    bytes: Bytes,
    puts: FailingCalls,
    failed: u64,
    short: u64,
}

impl Model for MemSink {
    ghost use Rattle.smp_io.specs.Memory.{SinkState};

    ghost Value = { SinkState };

    ghost view = { λ s. record { written = s.bytes; puts = s.puts; failed = s.failed; short = s.short } };
}

impl MemSink {
    /// A sink without bytes. Puts are counted from 1, and those whose numbers are in `failing` fail.
    pub fn new(alloc: Global, failing: Vec<u64>) -> MemSink
        ensures { result ≡ empty_sink failing.items }
    {
        MemSink {
            bytes: Bytes::new(alloc),
            puts: FailingCalls::new(failing),
            failed: 0,
            short: 0,
        }
    }

    /// What was put.
    pub fn as_slice(&self) -> &[u8]
        ensures { result.now ≡ self.now.written }
    {
        self.bytes.as_slice()
    }
}

impl Sink for MemSink {
    ghost written = { λ s. Some s.written };

    ghost faults = { λ s. s.failed };

    ghost shortages = { λ s. s.short };

    #[tactic(auto, using(crate::proofs::Fronts::nothing_is_a_front))]
    fn put(&mut self, bytes: &[u8]) -> Result<(), StoreFault>
        ensures ok { OnOk result (self.new.written ≡ self.old.written ++ bytes.now) }
        ensures err { OnErr result
            (AppendsFront bytes.now (Some self.old.written) (Some self.new.written)) }
        ensures same { OnErr result (self.new.written ≡ self.old.written) }
        ensures puts { self.new.puts ≡ after_call self.old.puts }
        ensures never_falls { self.old.failed ≤ self.new.failed }
        ensures never_fall { self.old.short ≤ self.new.short }
        ensures counted { self.new.failed ≡ failures_after result self.old.failed }
        ensures cause { IsErrOf result StoreFault.Failed → Rose self.old.failed self.new.failed }
        ensures uncounted { IsErrOf result StoreFault.NoMemory → self.new.failed ≡ self.old.failed }
        ensures failed { IsErrOf result StoreFault.Failed ↔ IsDueToFail self.old.puts }
        ensures short { IsErrOf result StoreFault.NoMemory → Rose self.old.short self.new.short }
        ensures counted_short { self.new.short ≡ shortages_after result self.old.short }
    {
        if self.puts.next_fails() {
            self.failed = self.failed.saturating_add(1);
            return Err(StoreFault::Failed);
        }
        if self.bytes.push_all(bytes).is_err() {
            self.short = self.short.saturating_add(1);
            return Err(StoreFault::NoMemory);
        }
        Ok(())
    }
}
