ghost use Rattle.std.specs.{Prelude.{◌≡◌, ◌≤◌, ◌++◌, ◌∷◌, [], ℕ, List, option_map, OnOk, OnErr, IsErrOf, codes}, List.{flat_map}};
ghost use Rattle.smp_io.specs.{Counts.{Rose, NeverFalls}, Sink.{with_bytes}};
ghost use Rattle.smp_app.specs.Deliveries.{outputs_view, names_of, with_files, StopsAtFile, StopsAt, FailsAtFile, FailsAt};

use smp_frac::{Bytes, Text};
use smp_io::{Sink, Store, StoreFault};

/// A file that is to be written.
#[derive(Drop)]
pub struct OutputFile {
    /// Its name.
    pub name: Text,
    /// Its whole content.
    pub bytes: Bytes,
}

/// What a command writes and puts.
#[derive(Drop)]
pub struct Outputs {
    /// The files in the order in which they are written.
    pub files: Vec<OutputFile>,
    /// What is put to the sink after them.
    pub put: Bytes,
}

impl Outputs {
    /// Writes the files in order and puts the result after them. It stops at the first failure. Where there is no
    /// file, the store isn't touched.
    pub fn deliver<K: Store, S: Sink>(&self, store: &mut K, out: &mut S) -> Result<(), StoreFault>
        ensures files { OnOk result (K.files store.new
            ≡ option_map (with_files (outputs_view self.now).files) (K.files store.old)) }
        ensures written { OnOk result (S.written out.new
            ≡ with_bytes (outputs_view self.now).put (S.written out.old)) }
        ensures stops { OnErr result (StopsAt (outputs_view self.now)
            (K.files store.old) (K.files store.new) (S.written out.old) (S.written out.new)) }
        // The place where it stops is the call whose count rose.
        ensures failed { IsErrOf result StoreFault.Failed
            → FailsAt (outputs_view self.now) (K.files store.old) (K.files store.new)
            (S.written out.old) (S.written out.new)
            (λ name. Rose (K.write_faults store.old name) (K.write_faults store.new name))
            (Rose (S.faults out.old) (S.faults out.new)) }
        // It ends for want of memory where that call did.
        ensures short { IsErrOf result StoreFault.NoMemory
            → FailsAt (outputs_view self.now) (K.files store.old) (K.files store.new)
            (S.written out.old) (S.written out.new)
            (λ name. Rose (K.write_shortages store.old name) (K.write_shortages store.new name))
            (Rose (S.shortages out.old) (S.shortages out.new)) }
        ensures reads { NeverFalls (K.read_faults store.old) (K.read_faults store.new) }
        ensures writes { NeverFalls (K.write_faults store.old) (K.write_faults store.new) }
        ensures puts { S.faults out.old ≤ S.faults out.new }
        ensures shortages { S.shortages out.old ≤ S.shortages out.new }
        ensures asked { K.asked store.new ≡ K.asked store.old }
        ensures idle { names_of (outputs_view self.now).files ≡ [] → store.new ≡ store.old }
    {
        write_files(self.files.as_slice(), store)?;
        out.put(self.put.as_slice())
    }
}

fn write_files<K: Store>(files: &[OutputFile], store: &mut K) -> Result<(), StoreFault>
    ensures ok { OnOk result (K.files store.new
        ≡ option_map (with_files files.now) (K.files store.old)) }
    ensures err { OnErr result (StopsAtFile files.now (K.files store.old) (K.files store.new)) }
    ensures failed { IsErrOf result StoreFault.Failed
        → FailsAtFile files.now (K.files store.old) (K.files store.new)
        (λ name. Rose (K.write_faults store.old name) (K.write_faults store.new name)) }
    ensures short { IsErrOf result StoreFault.NoMemory
        → FailsAtFile files.now (K.files store.old) (K.files store.new)
        (λ name. Rose (K.write_shortages store.old name) (K.write_shortages store.new name)) }
    ensures reads { NeverFalls (K.read_faults store.old) (K.read_faults store.new) }
    ensures writes { NeverFalls (K.write_faults store.old) (K.write_faults store.new) }
    ensures asked { K.asked store.new ≡ K.asked store.old }
    ensures idle { files.now ≡ [] → store.new ≡ store.old }
{
    for file in files {
        store.write(file.name.as_str(), file.bytes.as_slice())?;
    }
    Ok(())
}
