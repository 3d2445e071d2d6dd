// Tables of a document, and what is odd there.
ghost use Rattle.std.specs.Prelude.{◌≡◌, Some, IfOk, string_bytes};
ghost use Rattle.fault_count.specs.Causes.{Explains};
ghost use Rattle.profile_toml.specs.KeyPaths.{keyed, path_of};

use crate::ProfileError;
use rel_paths::Text;
use std::alloc::{AllocError, Global};

// The table of a type, of a mod, of a rule by the index of its mod and its own, or of an override.
#[derive(Clone, Copy)]
pub(crate) enum TablePath {
    ModType(usize),
    Mod(usize),
    Rule(usize, usize),
    Override(usize),
}

// The key path of a table.
fn table_path(alloc: Global, at: TablePath) -> Result<String, AllocError>
    ensures { IfOk result (λ t. string_bytes t ≡ path_of at) }
{
    match at {
        TablePath::ModType(i) => format!(in alloc; "types[{i}]"),
        TablePath::Mod(i) => format!(in alloc; "mods[{i}]"),
        TablePath::Rule(i, j) => format!(in alloc; "mods[{i}].rules[{j}]"),
        TablePath::Override(i) => format!(in alloc; "overrides[{i}]"),
    }
}

// The key path of a key in a table.
fn key_path(alloc: Global, at: TablePath, key: &str) -> Result<String, AllocError>
    ensures { IfOk result (λ t. string_bytes t ≡ keyed (path_of at) key.now) }
{
    let mut path = table_path(alloc, at)?;
    path.push_str(".")?;
    path.push_str(key)?;
    Ok(path)
}

// A value is of the wrong kind at a key path of the document itself.
pub(crate) fn odd_at(alloc: Global, path: &str) -> ProfileError
    ensures { Explains ProfileError.Memory (Some (ProfileError.Shape path.now)) result }
{
    match path.to_string(alloc) {
        Ok(path) => ProfileError::Shape(Text::from_string(path)),
        Err(_) => ProfileError::Memory,
    }
}

// What should be a table is none.
pub(crate) fn odd_table(alloc: Global, at: TablePath) -> ProfileError
    ensures { Explains ProfileError.Memory (Some (ProfileError.Shape (path_of at))) result }
{
    match table_path(alloc, at) {
        Ok(path) => ProfileError::Shape(Text::from_string(path)),
        Err(_) => ProfileError::Memory,
    }
}

// A value is missing or of the wrong kind at a key in a table.
pub(crate) fn odd_key(alloc: Global, at: TablePath, key: &str) -> ProfileError
    ensures { Explains ProfileError.Memory
        (Some (ProfileError.Shape (keyed (path_of at) key.now))) result }
{
    match key_path(alloc, at, key) {
        Ok(path) => ProfileError::Shape(Text::from_string(path)),
        Err(_) => ProfileError::Memory,
    }
}
