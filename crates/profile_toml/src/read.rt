// Profiles read from bytes.
ghost use Rattle.std.specs.Prelude.{◌≡◌, None, Some, Ok, Err, IfOk, IfErr, IfSome, codes, option_map};
ghost use Rattle.toml.specs.Data.{get_member};
ghost use Rattle.toml.specs.View.{view, table_view};
ghost use Rattle.profile_toml.specs.Faults.{Reads};
ghost use Rattle.profile_toml.specs.Kept.{IsVersion};
ghost use Rattle.profile_toml.specs.Profiles.{document_of, document_fault, document_value, version_at, parts_fault};
ghost use Rattle.profile_toml.specs.Profiles.{parts_value, versioned_fault, profile_of};
ghost use Rattle.profile_toml.specs.Sound.{AreSound};
ghost use Rattle.profile_toml.specs.Tables.{Document, room, member_from_2};

use crate::checks::{table_fits, table_has_float};
use crate::key_path::odd_at;
use crate::pieces::{take, take_from_2};
use crate::read_mods::read_mods;
use crate::read_overrides::read_overrides;
use crate::read_types::{into_types, read_types};
use crate::{Extra, Profile, ProfileError};
use std::alloc::Global;
use toml::{Table, Value};

// How many levels a value in the document's table may have.
const LEVELS: u32 = 63;

// The document that the bytes are.
fn read_document(alloc: Global, bytes: &[u8]) -> Result<Table, ProfileError>
    ensures ok { IfOk result (λ t. document_of bytes.now ≡ Some (table_view t)) }
    ensures err { IfErr result
        (λ e. (e ≡ ProfileError.Memory → ⊥) → (e ≡ ProfileError.NotToml)
        × (document_of bytes.now ≡ None)) }
{
    match toml::table_from_slice(alloc, bytes) {
        Ok(table) => Ok(table),
        Err(e) => {
            if e.is_memory() {
                Err(ProfileError::Memory)
            } else {
                Err(ProfileError::NotToml)
            }
        }
    }
}

// The version that stands at `version`, if that is a known one.
fn version_of(value: Option<Value>) -> Option<u32>
    ensures value { result ≡ version_at (option_map view value) }
    ensures known { IfSome result IsVersion }
{
    match value {
        Some(Value::Integer(1)) => Some(1),
        Some(Value::Integer(2)) => Some(2),
        _ => None,
    }
}

// The profile of a document of a version whose values are sound, and from which the version and
// `fold` are taken.
fn read_parts(alloc: Global, version: u32, mut table: Table) -> Result<Profile, ProfileError>
    requires known { IsVersion version }
    requires sound { AreSound (room Document) (table_view table) }
    requires no_version { get_member (codes "version") (table_view table) ≡ None }
    requires no_fold { member_from_2 version (codes "fold") (table_view table) ≡ None }
    ensures { Reads (parts_fault version (table_view table))
        (parts_value version (table_view table)) result }
{
    let types = read_types(alloc, take_from_2(version, &mut table, "types"))?;
    let mods = read_mods(alloc, version, &types, take(&mut table, "mods"))?;
    let overrides = read_overrides(alloc, take(&mut table, "overrides"))?;
    let types = into_types(alloc, types)?;
    Ok(Profile {
        version,
        mods,
        overrides,
        types,
        extra: Extra::of(table),
    })
}

// The profile of a document whose values are sound.
fn read_sound(alloc: Global, mut table: Table) -> Result<Profile, ProfileError>
    requires { AreSound (room Document) (table_view table) }
    ensures { Reads
        (versioned_fault (version_at (get_member (codes "version") (table_view table)))
        (table_view table)) (document_value (table_view table)) result }
{
    let Some(version) = version_of(take(&mut table, "version")) else {
        return Err(ProfileError::Version);
    };
    if take_from_2(version, &mut table, "fold").is_some() {
        return Err(odd_at(alloc, "fold"));
    }
    read_parts(alloc, version, table)
}

// The profile of a document.
fn read_table(alloc: Global, table: Table) -> Result<Profile, ProfileError>
    ensures { Reads (document_fault (table_view table)) (document_value (table_view table)) result }
{
    if !table_fits(LEVELS, &table) {
        return Err(ProfileError::Deep);
    }
    if table_has_float(&table) {
        return Err(ProfileError::Float);
    }
    read_sound(alloc, table)
}

/// The profile that the bytes are, as TOML. Bytes that are none give their first fault.
///
/// Beside the keys that its version has a meaning for, each table may have others, which the
/// profile keeps.
pub fn read_profile(alloc: Global, bytes: &[u8]) -> Result<Profile, ProfileError>
    ensures ok { IfOk result (λ p. profile_of bytes.now ≡ Ok p) }
    ensures err { IfErr result (λ e. (e ≡ ProfileError.Memory → ⊥) → profile_of bytes.now ≡ Err e) }
{
    let table = read_document(alloc, bytes)?;
    read_table(alloc, table)
}
