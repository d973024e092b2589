//! The files of a folder of cases.

use std::alloc::Global;
use std::rt::Files;
use std::{fs, io};

/// The cases of a folder, each as its group and its name with a `/` between, in the order of their bytes. A file beside the
/// groups is a case too, but for `README.md`. No folder within a group is looked into.
pub fn case_files<R: Files + AllocGlobal + Clone + Drop>(
    rt: &R,
    alloc: Global,
    folder: &str,
) -> io::Result<Vec<String>> {
    let mut names = Vec::new(alloc);
    for entry in fs::read_dir(rt, folder)? {
        let entry = entry?;
        let name = entry.file_name();
        if entry.file_type()?.is_dir() {
            add_group(rt, alloc, folder, name, &mut names)?;
        } else if name != "README.md" {
            names.push(String::from_str(alloc, name)?)?;
        }
    }
    names.sort()?;
    Ok(names)
}

fn add_group<R: Files + AllocGlobal + Clone + Drop>(
    rt: &R,
    alloc: Global,
    folder: &str,
    group: &str,
    names: &mut Vec<String>,
) -> io::Result<()> {
    let path = format!(in alloc; "{folder}/{group}")?;
    for entry in fs::read_dir(rt, path.as_str())? {
        let entry = entry?;
        let name = entry.file_name();
        names.push(format!(in alloc; "{group}/{name}")?)?;
    }
    Ok(())
}
