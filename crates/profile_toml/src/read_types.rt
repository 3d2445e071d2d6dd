// Types of mods read from a document.
ghost use Rattle.std.specs.Prelude.{◌≡◌, ◌+◌, IfOk, IfSome, length, map, option_map, nat_eq};
ghost use Rattle.std.specs.List.{AllByRecursion, IsDistinct};
ghost use Rattle.std.specs.Cmp.Lexicographic.{pointwise};
ghost use Rattle.indexmap.specs.IndexMap.{keys, values};
ghost use Rattle.toml.specs.View.{view, array_view};
ghost use Rattle.profile_toml.specs.Faults.{ReadsBy, ReadsMore};
ghost use Rattle.profile_toml.specs.KeyPaths.{path_of};
ghost use Rattle.profile_toml.specs.Sound.{IsSound};
ghost use Rattle.profile_toml.specs.Tables.{OfType, room};
ghost use Rattle.profile_toml.specs.Texts.{items_at, list_of};
ghost use Rattle.profile_toml.specs.Types.{type_fault, type_entry, list_fault, types_fault};

use crate::key_path::{TablePath, odd_at, odd_table};
use crate::maps::add_type;
use crate::pieces::{into_array, into_table, read_base, read_id, take};
use crate::{Extra, ModType, ProfileError};
use indexmap::IndexMap;
use rel_paths::ModId;
use std::alloc::{AllocError, Global};
use toml::Value;
use toml::value::Array;

// Adds the type that a value is, after others.
fn read_type(
    alloc: Global,
    types: &mut IndexMap<ModId, ModType>,
    value: Value,
) -> Result<(), ProfileError>
    requires { IsSound (1 + room OfType) (view value) }
    ensures { ReadsMore
        (type_fault (keys types.old) (path_of (TablePath.ModType (length types.old.entries)))
        (view value)) types.old.entries (type_entry (view value)) types.new.entries result }
{
    let index = types.len();
    let at = TablePath::ModType(index);
    let Some(mut table) = into_table(value) else {
        return Err(odd_table(alloc, at));
    };
    let id = read_id(alloc, at, "id", take(&mut table, "id"))?;
    if types.contains_key(&id) {
        return Err(ProfileError::SameType(id));
    }
    let base = read_base(alloc, at, "base", take(&mut table, "base"))?;
    let key = id.copy()?;
    let entry = ModType {
        id,
        base,
        extra: Extra::of(table),
    };
    add_type(types, key, entry)?;
    Ok(())
}

fn read_items(alloc: Global, array: Array) -> Result<IndexMap<ModId, ModType>, ProfileError>
    requires { AllByRecursion (IsSound (1 + room OfType)) (list_of (array_view array)) }
    ensures { ReadsBy (λ m. m.entries) (list_fault (list_of (array_view array)))
        (map type_entry (list_of (array_view array))) result }
{
    let mut types = IndexMap::new(alloc);
    for item in array {
        read_type(alloc, &mut types, item)?;
    }
    Ok(types)
}

// The types of a document by their ids, by what stands at its `types`.
pub(crate) fn read_types(
    alloc: Global,
    value: Option<Value>,
) -> Result<IndexMap<ModId, ModType>, ProfileError>
    requires { IfSome value (λ v. IsSound (2 + room OfType) (view v)) }
    ensures { ReadsBy (λ m. m.entries) (types_fault (option_map view value))
        (map type_entry (items_at (option_map view value))) result }
{
    let Some(value) = value else {
        return Ok(IndexMap::new(alloc));
    };
    let Some(array) = into_array(value) else {
        return Err(odd_at(alloc, "types"));
    };
    read_items(alloc, array)
}

// The types without their keys.
pub(crate) fn into_types(
    alloc: Global,
    types: IndexMap<ModId, ModType>,
) -> Result<Vec<ModType>, AllocError>
    ensures items { IfOk result (λ v. v.items ≡ values types) }
    ensures ids { IfOk result (λ _. IsDistinct (pointwise nat_eq) (keys types)) }
{
    let mut list = Vec::new(alloc);
    for (_id, entry) in types {
        list.push(entry)?;
    }
    Ok(list)
}
