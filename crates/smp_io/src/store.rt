ghost use Rattle.std.specs.Prelude.{◌≡◌, ◌∷◌, [], ℕ, List, Option, option_map, IfOk, OnOk, OnErr, IsErrOf};
ghost use Rattle.smp_io.specs.{Counts.{Rose, NeverFalls}, Store.{Asks, Files, Holds, OthersStay, with_file}};

use crate::StoreFault;
use smp_frac::Bytes;
use std::alloc::Global;

/// Files by name.
///
/// A store may tell what it holds, and which names were asked for. Each name has a count of its failed reads, one of its failed writes and
/// one of its writes that ended for want of memory. Names may share them, and they stop at `u64::MAX`. Among the failures, calls that end
/// for want of memory need not be counted.
pub trait Store {
    /// What is held under each name, where the store tells it.
    ghost files: { Self → Option Files };

    /// How often a read of this name has failed.
    ghost read_faults: { Self → List ℕ → ℕ };

    /// How often a write of this name has failed.
    ghost write_faults: { Self → List ℕ → ℕ };

    /// How often a write of this name has ended for want of memory.
    ghost write_shortages: { Self → List ℕ → ℕ };

    /// The names of which a read was asked, one after another, where the store tells them.
    ghost asked: { Self → Option (List (List ℕ)) };

    /// The content under a name. That there is none is a failure.
    fn read(&mut self, alloc: Global, name: &str) -> Result<Bytes, StoreFault>
        ensures content { IfOk result (λ bytes. Holds (files self.old) name.now bytes) }
        ensures same { files self.new ≡ files self.old }
        ensures reads { NeverFalls (read_faults self.old) (read_faults self.new) }
        ensures writes { NeverFalls (write_faults self.old) (write_faults self.new) }
        ensures shortages { NeverFalls (write_shortages self.old) (write_shortages self.new) }

        // The name was asked for, and no other.
        ensures asked { Asks (name.now ∷ []) (asked self.old) (asked self.new) }

        // A read that failed is counted as one.
        ensures cause { IsErrOf result StoreFault.Failed →
            Rose (read_faults self.old name.now) (read_faults self.new name.now) };

    /// Sets the content under a name. After an error nothing is said of the content under that name.
    fn write(&mut self, name: &str, bytes: &[u8]) -> Result<(), StoreFault>
        ensures written { OnOk result
            (files self.new ≡ option_map (with_file name.now bytes.now) (files self.old)) }
        ensures others { OnErr result (OthersStay name.now (files self.old) (files self.new)) }
        ensures reads { NeverFalls (read_faults self.old) (read_faults self.new) }
        ensures writes { NeverFalls (write_faults self.old) (write_faults self.new) }
        ensures shortages { NeverFalls (write_shortages self.old) (write_shortages self.new) }

        // No name is asked for.
        ensures asked { asked self.new ≡ asked self.old }

        // A write that failed is counted as one.
        ensures cause { IsErrOf result StoreFault.Failed →
            Rose (write_faults self.old name.now) (write_faults self.new name.now) }

        // So is one that ended for want of memory.
        ensures short { IsErrOf result StoreFault.NoMemory →
            Rose (write_shortages self.old name.now) (write_shortages self.new name.now) };
}
