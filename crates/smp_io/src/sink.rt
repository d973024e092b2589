ghost use Rattle.std.specs.Prelude.{◌≡◌, ◌≤◌, ℕ, List, Option, OnOk, OnErr, IsErrOf};
ghost use Rattle.smp_io.specs.{Counts.{Rose}, Sink.{with_bytes, AppendsFront}};

use crate::StoreFault;

/// Where results go, one after another.
///
/// A sink may tell what was put into it. It has a count of failed puts, and one of puts that ended for want of memory, which are no
/// failures. Both stop at `u64::MAX`.
pub trait Sink {
    /// What was put, where the sink tells it.
    ghost written: { Self → Option (List ℕ) };

    /// How often a put has failed.
    ghost faults: { Self → ℕ };

    /// How often a put has ended for want of memory.
    ghost shortages: { Self → ℕ };

    /// Appends the bytes. After an error some of them, from the first on, may have been appended.
    fn put(&mut self, bytes: &[u8]) -> Result<(), StoreFault>
        ensures ok { OnOk result (written self.new ≡ with_bytes bytes.now (written self.old)) }
        ensures err { OnErr result (AppendsFront bytes.now (written self.old) (written self.new)) }
        ensures never_falls { faults self.old ≤ faults self.new }
        ensures never_fall { shortages self.old ≤ shortages self.new }

        // A put that failed is counted as one.
        ensures cause { IsErrOf result StoreFault.Failed →
            Rose (faults self.old) (faults self.new) }

        // Want of memory isn't counted among the failures.
        ensures uncounted { IsErrOf result StoreFault.NoMemory →
            faults self.new ≡ faults self.old }

        // It has its own count.
        ensures short { IsErrOf result StoreFault.NoMemory →
            Rose (shortages self.old) (shortages self.new) };
}
