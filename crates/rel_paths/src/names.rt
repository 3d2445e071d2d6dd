// The names of a path's text, and the faults of a text.
ghost use Rattle.std.specs.Prelude.{◌≡◌, ◌++◌, IfOk, length, nat_eq, not, position};
ghost use Rattle.std.specs.List.{ends_with, list_all, starts_with};
ghost use Rattle.std.specs.Str.{bytes_eq};
ghost use Rattle.std.specs.String.{string_bytes};
ghost use Rattle.rel_paths.specs.Names.{names_of, is_good_byte, is_good_name, is_name_within, path_fault};
ghost use Rattle.rel_paths.specs.Names.{backup_ending, has_backup, is_reserved, joined};

use crate::PathError;
use std::alloc::{AllocError, Global};

// How many bytes and names a path's text may have, and how many bytes each of its names.
pub(crate) struct Limits {
    bytes: usize,
    names: u32,
    name_bytes: usize,
}

pub(crate) const USER: Limits = Limits {
    bytes: 1024,
    names: 64,
    name_bytes: 240,
};

pub(crate) const HELD: Limits = Limits {
    bytes: 1400,
    names: 72,
    name_bytes: 254,
};

const BACKUP_ENDING: &str = ".vortex_backup";

fn has_good_bytes(name: &[u8]) -> bool
    ensures { result ≡ list_all is_good_byte name.now }
{
    name.iter()
        .all(|b| *b >= 32 && *b != b'/' && *b != b'\\' && *b != 127)
}

fn is_good_name(name: &str) -> bool
    ensures { result ≡ is_good_name name.now }
{
    !name.is_empty() && name != "." && name != ".." && has_good_bytes(name.as_bytes())
}

// Whether it is a good name of at most so many bytes.
pub(crate) fn is_name_within(most: usize, name: &str) -> bool
    ensures { result ≡ is_name_within most name.now }
{
    is_good_name(name) && name.len() <= most
}

fn count_names(text: &str) -> usize
    ensures { result ≡ length (names_of text.now) }
{
    text.split('/').count()
}

fn bad_name(most: usize, text: &str) -> Option<usize>
    ensures { result ≡ position (λ n. not (is_name_within most n)) (names_of text.now) }
{
    text.split('/').position(|name| !is_name_within(most, name))
}

// The first fault of a text as a path within the limits.
#[tactic(auto, unfolding(crate::specs::Names::path_fault))]
pub(crate) fn path_fault(most: &Limits, text: &str) -> Option<PathError>
    ensures { result ≡ path_fault most.now text.now }
{
    if text.is_empty() {
        return Some(PathError::Empty);
    }
    if text.len() > most.bytes {
        return Some(PathError::Long);
    }
    if count_names(text) > most.names as usize {
        return Some(PathError::Deep);
    }
    match bad_name(most.name_bytes, text) {
        None => None,
        Some(at) => Some(PathError::BadName(at as u32)),
    }
}

// Whether the names of `other` are the first names of the text.
pub(crate) fn begins_with(text: &str, other: &str) -> bool
    ensures { result ≡ starts_with bytes_eq (names_of text.now) (names_of other.now) }
{
    match text.strip_prefix(other) {
        None => false,
        Some(rest) => rest.is_empty() || rest.starts_with('/'),
    }
}

// Whether the name ends as a backup's.
fn is_backup_name(name: &str) -> bool
    ensures { result ≡ ends_with nat_eq name.now backup_ending }
{
    name.ends_with(BACKUP_ENDING)
}

// Whether some name is a backup's.
fn has_backup(text: &str) -> bool
    ensures { result ≡ has_backup (names_of text.now) }
{
    text.split('/').any(is_backup_name)
}

// Whether the text is that of a reserved path.
#[tactic(auto, unfolding(crate::specs::Names::is_reserved))]
pub(crate) fn is_reserved(text: &str) -> bool
    ensures { result ≡ is_reserved (names_of text.now) }
{
    has_backup(text) || begins_with(text, "vortex.deployment.json")
}

// The text with the names of the one and then those of the other.
pub(crate) fn joined(alloc: Global, above: &str, below: &str) -> Result<String, AllocError>
    ensures { IfOk result (λ text. string_bytes text ≡ joined above.now below.now) }
{
    let mut text = String::with_capacity(alloc, above.len() + 1 + below.len())?;
    text.push_str(above)?;
    text.push('/')?;
    text.push_str(below)?;
    Ok(text)
}

// The text of the backup.
pub(crate) fn backup(alloc: Global, text: &str) -> Result<String, AllocError>
    ensures { IfOk result (λ backup. string_bytes backup ≡ text.now ++ backup_ending) }
{
    let mut backup = String::with_capacity(alloc, text.len() + BACKUP_ENDING.len())?;
    backup.push_str(text)?;
    backup.push_str(BACKUP_ENDING)?;
    Ok(backup)
}
