//! A store that is watched.

ghost use Rattle.std.specs.Prelude.{◌≡◌, ◌++◌, ◌∷◌, [], true, map, option_map, IfOk, OnOk, OnErr, IsErrOf, string_bytes};
ghost use Rattle.smp_io.specs.{Counts.{Rose, NeverFalls}, Store.{OthersStay, with_file}};
ghost use Rattle.smp_io.specs.declared.fault.StoreFault.TheVariants as StoreFault;

use smp_frac::{Bytes, NoMemory};
use smp_io::{Store, StoreFault};
use std::alloc::{AllocError, Global};

/// A store that keeps the names under which it was asked to write, whether the write then fails or not.
#[derive(Drop)]
pub struct WatchedStore<K: Store + Drop> {
    store: K,
    names: Vec<String>,
    is_whole: bool,
}

impl<K: Store + Drop> WatchedStore<K> {
    /// A store under which nothing was written yet.
    pub fn new(alloc: Global, store: K) -> WatchedStore<K>
        ensures store { result.store ≡ store }
        ensures names { result.names.items ≡ [] }
        ensures whole { result.is_whole ≡ true }
    {
        WatchedStore {
            store,
            names: Vec::new(alloc),
            is_whole: true,
        }
    }

    /// The store itself, and the names under which it was asked to write, in order, where there was memory for them all.
    pub fn into_parts(self) -> (K, Result<Vec<String>, NoMemory>)
        ensures store { result.0 ≡ self.store }
        ensures names { IfOk result.1 (λ names. names ≡ self.names) }
        ensures whole { OnOk result.1 (self.is_whole ≡ true) }
    {
        let WatchedStore {
            store,
            names,
            is_whole,
        } = self;
        if is_whole {
            (store, Ok(names))
        } else {
            (store, Err(NoMemory))
        }
    }
}

fn keep(names: &mut Vec<String>, name: &str) -> Result<(), AllocError>
    ensures { OnOk result (map string_bytes names.new.items
        ≡ map string_bytes names.old.items ++ name.now ∷ []) }
{
    let name = String::from_str(*names.allocator(), name)?;
    names.push(name)?;
    Ok(())
}

impl<K: Store + Drop> Store for WatchedStore<K> {
    ghost files = { λ s. K.files s.store };

    ghost read_faults = { λ s. K.read_faults s.store };

    ghost write_faults = { λ s. K.write_faults s.store };

    ghost write_shortages = { λ s. K.write_shortages s.store };

    ghost asked = { λ s. K.asked s.store };

    fn read(&mut self, alloc: Global, name: &str) -> Result<Bytes, StoreFault> {
        self.store.read(alloc, name)
    }

    fn write(&mut self, name: &str, bytes: &[u8]) -> Result<(), StoreFault>
        // What any store promises.
        ensures written { OnOk result (K.files self.new.store
            ≡ option_map (with_file name.now bytes.now) (K.files self.old.store)) }
        ensures others { OnErr result
            (OthersStay name.now (K.files self.old.store) (K.files self.new.store)) }
        ensures reads { NeverFalls (K.read_faults self.old.store) (K.read_faults self.new.store) }
        ensures writes { NeverFalls
            (K.write_faults self.old.store) (K.write_faults self.new.store) }
        ensures shortages { NeverFalls
            (K.write_shortages self.old.store) (K.write_shortages self.new.store) }
        ensures asked { K.asked self.new.store ≡ K.asked self.old.store }
        ensures cause { IsErrOf result StoreFault.Failed → Rose
            (K.write_faults self.old.store name.now) (K.write_faults self.new.store name.now) }
        ensures short { IsErrOf result StoreFault.NoMemory → Rose
            (K.write_shortages self.old.store name.now)
            (K.write_shortages self.new.store name.now) }

        // The name stands behind the others, unless there was no memory for one.
        ensures name { self.new.is_whole ≡ true → map string_bytes self.new.names.items
            ≡ map string_bytes self.old.names.items ++ name.now ∷ [] }
        ensures whole { self.new.is_whole ≡ true → self.old.is_whole ≡ true }
    {
        if keep(&mut self.names, name).is_err() {
            self.is_whole = false;
        }
        self.store.write(name, bytes)
    }
}
