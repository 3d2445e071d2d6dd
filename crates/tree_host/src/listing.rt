// The entries of a folder.
ghost use Rattle.std.specs.Prelude.{◌≤◌, vec_len, IfOk};

use crate::found::kind_of;
use rel_paths::PathError;
use std::alloc::Global;
use std::fs::DirEntry;
use std::io::ErrorKind;
use std::rt::Files;
use std::{fs, io};
use tree_fs::{Entry, Name};

// A folder with more entries is not listed.
const MOST_ENTRIES: usize = 16_777_216;

/// All entries of the folder at this path, in byte order of their names.
pub(crate) fn list_folder<R: Files + Clone + Drop>(
    rt: &(R, Global),
    path: &str,
) -> io::Result<Vec<Entry>>
    ensures most { IfOk result (λ entries. vec_len entries ≤ 16_777_216) }
{
    let mut entries = Vec::new(rt.1);
    for found in fs::read_dir(rt, path)? {
        if entries.len() == MOST_ENTRIES {
            return Err(io::Error::from(ErrorKind::FileTooLarge));
        }
        entries.push(entry_of(rt.1, &found?)?)?;
    }
    entries.sort_unstable_by(|a, b| a.name.text().cmp(b.name.text()));
    Ok(entries)
}

fn entry_of<R: Files>(alloc: Global, found: &DirEntry<R, Global>) -> io::Result<Entry> {
    let kind = kind_of(&found.metadata()?);
    match Name::parse(alloc, found.file_name()) {
        Ok(name) => Ok(Entry { name, kind }),
        Err(PathError::Memory) => Err(io::Error::from(ErrorKind::OutOfMemory)),
        Err(_) => Err(io::Error::from(ErrorKind::InvalidFilename)),
    }
}
