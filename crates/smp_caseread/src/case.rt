//! What a case says.

ghost use Rattle.std.specs.{Prelude.{◌≡◌}, List.{list_any}, Str.{bytes_eq}};

use smp_frac::{Bytes, Text};

/// What `sampler` is given, and what has to come of it.
#[derive(Drop)]
pub struct Case {
    /// The words of the command line, the program's name first.
    pub words: Vec<String>,
    /// The files that are there before the call, by name.
    pub files: Vec<(Text, Bytes)>,
    /// The calls of the store that fail. Reads and writes are counted together, from 1.
    pub failing_calls: Vec<u64>,
    /// The puts that fail, counted from 1.
    pub failing_puts: Vec<u64>,
    /// What has to come of the call.
    pub wanted: Wanted,
}

/// What has to come of a call.
#[derive(Drop)]
pub struct Wanted {
    /// The exit code.
    pub code: u8,
    /// What has to stand under these names after the call, `None` where there is to be no file. A file that isn't named
    /// here has to stand as it did before, and no other file may be written.
    pub files: Vec<(Text, Option<Bytes>)>,
    /// All that has to be put.
    pub put: Bytes,
}

/// Whether one of these files has this name.
pub fn has_name<T>(files: &[(Text, T)], name: &str) -> bool
    ensures { result ≡ list_any (λ file. bytes_eq file.0 name.now) files.now }
{
    files.iter().any(|file| file.0.as_str() == name)
}
