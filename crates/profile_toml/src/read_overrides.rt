// Overrides read from a document.
ghost use Rattle.std.specs.Prelude.{◌≡◌, ◌+◌, IfSome, length, map, option_map};
ghost use Rattle.std.specs.List.{AllByRecursion};
ghost use Rattle.indexmap.specs.IndexMap.{keys};
ghost use Rattle.toml.specs.View.{view, array_view};
ghost use Rattle.profile_toml.specs.Faults.{ReadsBy, ReadsMore};
ghost use Rattle.profile_toml.specs.KeyPaths.{path_of};
ghost use Rattle.profile_toml.specs.Overrides.{override_fault, override_entry, list_fault, overrides_fault};
ghost use Rattle.profile_toml.specs.Sound.{IsSound};
ghost use Rattle.profile_toml.specs.Tables.{OfOverride, room};
ghost use Rattle.profile_toml.specs.Texts.{items_at, list_of};

use crate::key_path::{TablePath, odd_at, odd_table};
use crate::maps::add_override;
use crate::pieces::{into_array, into_table, read_id, read_path, take};
use crate::{Extra, Override, ProfileError};
use indexmap::IndexMap;
use rel_paths::RelPath;
use std::alloc::Global;
use toml::Value;
use toml::value::Array;

// Adds the override that a value is, after others.
fn read_override(
    alloc: Global,
    overrides: &mut IndexMap<RelPath, Override>,
    value: Value,
) -> Result<(), ProfileError>
    requires { IsSound (1 + room OfOverride) (view value) }
    ensures { ReadsMore
        (override_fault (keys overrides.old)
        (path_of (TablePath.Override (length overrides.old.entries))) (view value))
        overrides.old.entries (override_entry (view value)) overrides.new.entries result }
{
    let index = overrides.len();
    let at = TablePath::Override(index);
    let Some(mut table) = into_table(value) else {
        return Err(odd_table(alloc, at));
    };
    let path = read_path(alloc, at, "path", take(&mut table, "path"))?;
    if overrides.contains_key(&path) {
        return Err(ProfileError::SameOverride(path));
    }
    let mod_id = read_id(alloc, at, "mod", take(&mut table, "mod"))?;
    let key = path.copy()?;
    let entry = Override {
        path,
        mod_id,
        extra: Extra::of(table),
    };
    add_override(overrides, key, entry)?;
    Ok(())
}

fn read_items(alloc: Global, array: Array) -> Result<IndexMap<RelPath, Override>, ProfileError>
    requires { AllByRecursion (IsSound (1 + room OfOverride)) (list_of (array_view array)) }
    ensures { ReadsBy (λ m. m.entries) (list_fault (list_of (array_view array)))
        (map override_entry (list_of (array_view array))) result }
{
    let mut overrides = IndexMap::new(alloc);
    for item in array {
        read_override(alloc, &mut overrides, item)?;
    }
    Ok(overrides)
}

// The overrides of a document, by what stands at its `overrides`.
pub(crate) fn read_overrides(
    alloc: Global,
    value: Option<Value>,
) -> Result<IndexMap<RelPath, Override>, ProfileError>
    requires { IfSome value (λ v. IsSound (2 + room OfOverride) (view v)) }
    ensures { ReadsBy (λ m. m.entries) (overrides_fault (option_map view value))
        (map override_entry (items_at (option_map view value))) result }
{
    let Some(value) = value else {
        return Ok(IndexMap::new(alloc));
    };
    let Some(array) = into_array(value) else {
        return Err(odd_at(alloc, "overrides"));
    };
    read_items(alloc, array)
}
