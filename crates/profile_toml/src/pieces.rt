// Values taken out of a table, without a copy.
ghost use Rattle.std.specs.Prelude.{◌≡◌, List, ℕ, Option, None, Some, [], ◌∷◌, false, IfOk, IfErr, IfSome, length};
ghost use Rattle.std.specs.Prelude.{option_map, string_bytes, if◌then◌else◌};
ghost use Rattle.toml.specs.Data.{string, as_array, as_table, get_member, same_key};
ghost use Rattle.toml.specs.View.{view, array_view, table_view};
ghost use Rattle.rel_paths.specs.Names.{IsUserPath, IsBase, is_base, names_of};
ghost use Rattle.fault_count.specs.Causes.{Explains};
ghost use Rattle.profile_toml.specs.Faults.{Reads};
ghost use Rattle.profile_toml.specs.KeyPaths.{keyed, path_of};
ghost use Rattle.profile_toml.specs.Tables.{from_2, member_from_2};
ghost use Rattle.profile_toml.specs.Texts.{text_at, text_fault, optional_fault, bad_id, bad_path, bad_base, is_mod_id, is_user_path};
ghost use Rattle.profile_toml.specs.Unknown.{without_key, without};

use crate::ProfileError;
use crate::key_path::{TablePath, odd_key};
use rel_paths::{ModId, PathError, RelPath, Text};
use std::alloc::{AllocError, Global};
use toml::value::Array;
use toml::{Table, Value};

// The value at a key.
pub(crate) fn take(table: &mut Table, key: &str) -> Option<Value>
    ensures value { option_map view result ≡ get_member key.now (table_view table.old) }
    ensures left { table_view table.new ≡ without_key key.now (table_view table.old) }
    ensures others { (k : List ℕ) → same_key key.now k ≡ false → get_member k (table_view table.new)
        ≡ get_member k (table_view table.old) }
{
    table.remove(key)
}

// The value at a key that version 1 has no meaning for.
pub(crate) fn take_from_2(version: u32, table: &mut Table, key: &str) -> Option<Value>
    ensures value { option_map view result ≡ member_from_2 version key.now (table_view table.old) }
    ensures left { table_view table.new
        ≡ without (from_2 version (key.now ∷ [])) (table_view table.old) }
    ensures others { (k : List ℕ) → same_key key.now k ≡ false → get_member k (table_view table.new)
        ≡ get_member k (table_view table.old) }
{
    if version == 1 {
        return None;
    }
    take(table, key)
}

// The array that a value is.
pub(crate) fn into_array(value: Value) -> Option<Array>
    ensures { option_map array_view result ≡ as_array (view value) }
{
    match value {
        Value::Array(array) => Some(array),
        _ => None,
    }
}

// The table that a value is.
pub(crate) fn into_table(value: Value) -> Option<Table>
    ensures { option_map table_view result ≡ as_table (view value) }
{
    match value {
        Value::Table(table) => Some(table),
        _ => None,
    }
}

// The text that stands at a key of a table, by what was taken there.
pub(crate) fn into_text(
    alloc: Global,
    at: TablePath,
    key: &str,
    value: Option<Value>,
) -> Result<String, ProfileError>
    ensures ok { IfOk result (λ t. option_map view value ≡ Some (string (string_bytes t))) }
    ensures err { IfErr result
        (λ e. (bad : List ℕ → Option ProfileError)
        → Explains ProfileError.Memory
        (text_fault bad (keyed (path_of at) key.now) (option_map view value)) e) }
{
    match value {
        Some(Value::String(text)) => Ok(text),
        _ => Err(odd_key(alloc, at, key)),
    }
}

// The text that stands at a key of a table, if something stands there, by what was taken there.
pub(crate) fn into_optional_text(
    alloc: Global,
    at: TablePath,
    key: &str,
    value: Option<Value>,
) -> Result<Option<String>, ProfileError>
    ensures ok { IfOk result
        (λ t. option_map view value ≡ option_map (λ s. string (string_bytes s)) t) }
    ensures err { IfErr result
        (λ e. (bad : List ℕ → Option ProfileError)
        → Explains ProfileError.Memory
        (optional_fault bad (keyed (path_of at) key.now) (option_map view value)) e) }
{
    match value {
        None => Ok(None),
        Some(Value::String(text)) => Ok(Some(text)),
        Some(_) => Err(odd_key(alloc, at, key)),
    }
}

// The id that a text is, if it is one.
pub(crate) fn id_of(alloc: Global, text: &str) -> Result<Option<ModId>, AllocError>
    ensures { IfOk result (λ id. id ≡ (if is_mod_id text.now then Some text.now else None)) }
{
    match ModId::parse(alloc, text) {
        Ok(id) => Ok(Some(id)),
        Err(PathError::Memory) => Err(AllocError),
        Err(_) => Ok(None),
    }
}

// The user path that a text is, if it is one.
fn user_path_of(alloc: Global, text: &str) -> Result<Option<RelPath>, AllocError>
    ensures same { IfOk result
        (λ path. path ≡ (if is_user_path text.now then Some text.now else None)) }
    ensures user { IfOk result (λ path. IfSome path IsUserPath) }
{
    match RelPath::parse(alloc, text) {
        Ok(path) => Ok(Some(path)),
        Err(PathError::Memory) => Err(AllocError),
        Err(_) => Ok(None),
    }
}

// How many names the text of a path has.
fn count_names(text: &str) -> usize
    ensures { result ≡ length (names_of text.now) }
{
    text.split('/').count()
}

// How many bytes and names a base may have.
const BASE_BYTES: usize = 300;

const BASE_NAMES: usize = 8;

// Whether a user path is a base.
fn is_base(path: &RelPath) -> bool
    requires { IsUserPath path.now }
    ensures { result ≡ is_base path.now }
{
    if path.is_reserved() {
        return false;
    }
    if count_names(path.text()) > BASE_NAMES {
        return false;
    }
    path.text().len() <= BASE_BYTES
}

// The base that a text is, if it is one.
fn base_of(alloc: Global, text: &str) -> Result<Option<RelPath>, AllocError>
    ensures same { IfOk result (λ path. path ≡ (if is_base text.now then Some text.now else None)) }
    ensures base { IfOk result (λ path. IfSome path IsBase) }
{
    let Some(path) = user_path_of(alloc, text)? else {
        return Ok(None);
    };
    if !is_base(&path) {
        return Ok(None);
    }
    Ok(Some(path))
}

// The id at a key.
pub(crate) fn read_id(
    alloc: Global,
    at: TablePath,
    key: &str,
    value: Option<Value>,
) -> Result<ModId, ProfileError>
    ensures { Reads (text_fault bad_id (keyed (path_of at) key.now) (option_map view value))
        (text_at (option_map view value)) result }
{
    let text = into_text(alloc, at, key, value)?;
    match id_of(alloc, text.as_str())? {
        Some(id) => Ok(id),
        None => Err(ProfileError::BadPath(Text::from_string(text))),
    }
}

// The user path at a key.
pub(crate) fn read_path(
    alloc: Global,
    at: TablePath,
    key: &str,
    value: Option<Value>,
) -> Result<RelPath, ProfileError>
    ensures reads { Reads (text_fault bad_path (keyed (path_of at) key.now) (option_map view value))
        (text_at (option_map view value)) result }
    ensures user { IfOk result IsUserPath }
{
    let text = into_text(alloc, at, key, value)?;
    match user_path_of(alloc, text.as_str())? {
        Some(path) => Ok(path),
        None => Err(ProfileError::BadPath(Text::from_string(text))),
    }
}

// The base at a key.
pub(crate) fn read_base(
    alloc: Global,
    at: TablePath,
    key: &str,
    value: Option<Value>,
) -> Result<RelPath, ProfileError>
    ensures reads { Reads (text_fault bad_base (keyed (path_of at) key.now) (option_map view value))
        (text_at (option_map view value)) result }
    ensures base { IfOk result IsBase }
{
    let text = into_text(alloc, at, key, value)?;
    match base_of(alloc, text.as_str())? {
        Some(path) => Ok(path),
        None => Err(ProfileError::BadPath(Text::from_string(text))),
    }
}
