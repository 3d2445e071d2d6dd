// What may be missing in the tables of mods and rules: releases, types and ranges.
ghost use Rattle.std.specs.Prelude.{◌≡◌, None, Some, IfOk, codes, option_map, if◌then◌else◌};
ghost use Rattle.std.specs.List.{AllByRecursion};
ghost use Rattle.indexmap.specs.IndexMap.{keys};
ghost use Rattle.rel_paths.specs.Names.{IsModId};
ghost use Rattle.toml.specs.View.{view};
ghost use Rattle.profile_toml.specs.Faults.{Reads};
ghost use Rattle.profile_toml.specs.Kept.{is_type};
ghost use Rattle.profile_toml.specs.KeyPaths.{keyed, path_of};
ghost use Rattle.profile_toml.specs.Mods.{bad_release, bad_type};
ghost use Rattle.profile_toml.specs.Rules.{bad_range};
ghost use Rattle.profile_toml.specs.Texts.{text_in, optional_fault};

use crate::key_path::TablePath;
use crate::pieces::{id_of, into_optional_text};
use crate::range::read_wanted;
use crate::release::read_version;
use crate::{ModType, ProfileError, Range, RangeError, Release, ReleaseError};
use indexmap::IndexMap;
use rel_paths::{ModId, Text};
use std::alloc::{AllocError, Global};
use toml::Value;

// The release of a mod, by what stands at its `release`.
pub(crate) fn read_release(
    alloc: Global,
    index: usize,
    value: Option<Value>,
) -> Result<Option<Release>, ProfileError>
    ensures { Reads
        (optional_fault bad_release (keyed (path_of (TablePath.Mod index)) (codes "release"))
        (option_map view value)) (text_in (option_map view value)) result }
{
    let text = into_optional_text(alloc, TablePath::Mod(index), "release", value)?;
    let Some(text) = text else {
        return Ok(None);
    };
    match read_version(alloc, text.as_str()) {
        Ok(version) => Ok(Some(Release::of(version, text))),
        Err(ReleaseError::Memory) => Err(ProfileError::Memory),
        Err(ReleaseError::Refused) => Err(ProfileError::BadRelease(Text::from_string(text))),
    }
}

// The range of a rule, by what stands at its `range`.
pub(crate) fn read_range(
    alloc: Global,
    at: TablePath,
    value: Option<Value>,
) -> Result<Option<Range>, ProfileError>
    ensures { Reads
        (optional_fault bad_range (keyed (path_of at) (codes "range")) (option_map view value))
        (text_in (option_map view value)) result }
{
    let text = into_optional_text(alloc, at, "range", value)?;
    let Some(text) = text else {
        return Ok(None);
    };
    match read_wanted(alloc, text.as_str()) {
        Ok(wanted) => Ok(Some(Range::of(wanted, text))),
        Err(RangeError::Memory) => Err(ProfileError::Memory),
        Err(RangeError::Refused) => Err(ProfileError::BadRange(Text::from_string(text))),
    }
}

// The type's id that a text is, by the types; `None` where it is none.
fn type_of(
    alloc: Global,
    types: &IndexMap<ModId, ModType>,
    text: &str,
) -> Result<Option<ModId>, AllocError>
    requires { AllByRecursion IsModId (keys types.now) }
    ensures { IfOk result
        (λ id. id ≡ (if is_type (keys types.now) text.now then Some text.now else None)) }
{
    let Some(id) = id_of(alloc, text)? else {
        return Ok(None);
    };
    if !types.contains_key(&id) {
        return Ok(None);
    }
    Ok(Some(id))
}

// The type of a mod, by what stands at its `type`, where there are these types.
pub(crate) fn read_type(
    alloc: Global,
    index: usize,
    types: &IndexMap<ModId, ModType>,
    value: Option<Value>,
) -> Result<Option<ModId>, ProfileError>
    requires { AllByRecursion IsModId (keys types.now) }
    ensures { Reads
        (optional_fault (bad_type (keys types.now))
        (keyed (path_of (TablePath.Mod index)) (codes "type")) (option_map view value))
        (text_in (option_map view value)) result }
{
    let text = into_optional_text(alloc, TablePath::Mod(index), "type", value)?;
    let Some(text) = text else {
        return Ok(None);
    };
    match type_of(alloc, types, text.as_str())? {
        Some(id) => Ok(Some(id)),
        None => Err(ProfileError::NoType(Text::from_string(text))),
    }
}
