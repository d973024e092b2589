ghost use Rattle.std.specs.Prelude.{◌≡◌, IfOk, string_bytes};
ghost use Rattle.smp_io.specs.Partial;

use crate::StoreFault;
use std::alloc::{AllocError, Global};
use std::fs::{File, OpenFile, Permissions};
use std::io::Write;
use std::rt::Files;
use std::{fs, io};

// How many names beside the wanted one are tried.
const MAX_PARTIAL_FILES: u32 = 100;

// Sets the content of a file: as a whole where it is a regular file or none is there, in place where it is anything
// else, as a link or a device. A read-only file is left alone.
pub(crate) fn write_file<R: Files + AllocGlobal>(
    rt: &R,
    name: &str,
    bytes: &[u8],
) -> Result<(), StoreFault> {
    match fs::symlink_metadata(rt, name) {
        Ok(there) if !there.is_file() => Ok(fs::write(rt, name, bytes)?),
        Ok(there) if there.permissions().readonly() => Err(StoreFault::Failed),
        Ok(there) => replace_file(rt, name, Some(there.permissions()), bytes),
        Err(error) if error.kind() == io::ErrorKind::NotFound => {
            replace_file(rt, name, None, bytes)
        }
        Err(error) => Err(StoreFault::from(error)),
    }
}

// Writes a new file beside the wanted one and renames it. Where that fails the new file is removed again.
fn replace_file<R: Files + AllocGlobal>(
    rt: &R,
    name: &str,
    permissions: Option<Permissions>,
    bytes: &[u8],
) -> Result<(), StoreFault> {
    let (partial, file) = create_partial(rt, name)?;
    let outcome = match fill(file, permissions, bytes) {
        Ok(()) => fs::rename(rt, partial.as_str(), name),
        Err(error) => Err(error),
    };
    if outcome.is_err() {
        let _ = fs::remove_file(rt, partial.as_str());
    }
    Ok(outcome?)
}

// A new file in the folder of the wanted one, and its name. No file that is there is opened.
fn create_partial<R: Files + AllocGlobal>(
    rt: &R,
    name: &str,
) -> Result<(String, R::File), StoreFault> {
    for number in 1..=MAX_PARTIAL_FILES {
        let partial = partial_name(rt.alloc(), name, number)?;
        match File::create_new(rt, partial.as_str()) {
            Ok(file) => return Ok((partial, file)),
            Err(error) if error.kind() == io::ErrorKind::AlreadyExists => {}
            Err(error) => return Err(StoreFault::from(error)),
        }
    }
    Err(StoreFault::Failed)
}

fn partial_name(alloc: Global, name: &str, number: u32) -> Result<String, AllocError>
    ensures { IfOk result (λ partial. string_bytes partial ≡ Partial.partial_name name.now number) }
{
    format!(in alloc; "{name}.partial{number}")
}

// The whole content, on the disk.
fn fill<F: Write + OpenFile + Drop>(
    mut file: F,
    permissions: Option<Permissions>,
    bytes: &[u8],
) -> io::Result<()> {
    if let Some(permissions) = permissions {
        file.set_permissions(permissions)?;
    }
    file.write_all(bytes)?;
    file.sync_all()
}
