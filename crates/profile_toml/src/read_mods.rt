// Mods read from a document.
ghost use Rattle.std.specs.Prelude.{◌≡◌, ◌+◌, None, IfSome, codes, length, map, option_map};
ghost use Rattle.std.specs.List.{AllByRecursion};
ghost use Rattle.indexmap.specs.IndexMap.{keys};
ghost use Rattle.rel_paths.specs.Names.{IsModId};
ghost use Rattle.toml.specs.Data.{get_member};
ghost use Rattle.toml.specs.View.{view, array_view, table_view};
ghost use Rattle.profile_toml.specs.Faults.{Reads, ReadsBy, ReadsMore};
ghost use Rattle.profile_toml.specs.KeyPaths.{keyed, path_of};
ghost use Rattle.profile_toml.specs.Mods.{enabled_fault, enabled_at, entry_fault, entry_value, mod_fault, mod_value};
ghost use Rattle.profile_toml.specs.Mods.{list_fault, mods_fault, mods_value};
ghost use Rattle.profile_toml.specs.Sound.{IsSound, AreSound};
ghost use Rattle.profile_toml.specs.Tables.{OfMod, room};
ghost use Rattle.profile_toml.specs.Texts.{list_of};

use crate::key_path::{TablePath, odd_at, odd_key, odd_table};
use crate::maps::add_mod;
use crate::optional::{read_release, read_type};
use crate::pieces::{into_array, into_table, read_id, take, take_from_2};
use crate::read_rules::read_rules;
use crate::{Extra, ModEntry, ModType, ProfileError};
use indexmap::IndexMap;
use rel_paths::ModId;
use std::alloc::Global;
use toml::value::Array;
use toml::{Table, Value};

// Whether the mod with an index is enabled, by what stands at its `enabled`.
fn read_enabled(alloc: Global, index: usize, value: Option<Value>) -> Result<bool, ProfileError>
    ensures { Reads
        (enabled_fault (keyed (path_of (TablePath.Mod index)) (codes "enabled"))
        (option_map view value)) (enabled_at (option_map view value)) result }
{
    match value {
        None => Ok(true),
        Some(Value::Boolean(enabled)) => Ok(enabled),
        Some(_) => Err(odd_key(alloc, TablePath::Mod(index), "enabled")),
    }
}

// The mod with an index, by its table, from which the id is taken.
fn read_entry(
    alloc: Global,
    version: u32,
    types: &IndexMap<ModId, ModType>,
    index: usize,
    mut table: Table,
) -> Result<ModEntry, ProfileError>
    requires sound { AreSound (room OfMod) (table_view table) }
    requires no_id { get_member (codes "id") (table_view table) ≡ None }
    requires ids { AllByRecursion IsModId (keys types.now) }
    ensures { Reads
        (entry_fault version (keys types.now) (path_of (TablePath.Mod index)) (table_view table))
        (entry_value version (table_view table)) result }
{
    let enabled = read_enabled(alloc, index, take(&mut table, "enabled"))?;
    let release = read_release(alloc, index, take_from_2(version, &mut table, "release"))?;
    let mod_type = read_type(
        alloc,
        index,
        types,
        take_from_2(version, &mut table, "type"),
    )?;
    let rules = read_rules(alloc, version, index, take(&mut table, "rules"))?;
    Ok(ModEntry {
        enabled,
        rules,
        release,
        mod_type,
        extra: Extra::of(table),
    })
}

// Adds the mod that a value is, after others.
fn read_mod(
    alloc: Global,
    version: u32,
    types: &IndexMap<ModId, ModType>,
    mods: &mut IndexMap<ModId, ModEntry>,
    value: Value,
) -> Result<(), ProfileError>
    requires sound { IsSound (1 + room OfMod) (view value) }
    requires ids { AllByRecursion IsModId (keys types.now) }
    ensures { ReadsMore
        (mod_fault version (keys types.now) (keys mods.old)
        (path_of (TablePath.Mod (length mods.old.entries))) (view value)) mods.old.entries
        (mod_value version (view value)) mods.new.entries result }
{
    let index = mods.len();
    let Some(mut table) = into_table(value) else {
        return Err(odd_table(alloc, TablePath::Mod(index)));
    };
    let id = read_id(alloc, TablePath::Mod(index), "id", take(&mut table, "id"))?;
    if mods.contains_key(&id) {
        return Err(ProfileError::SameMod(id));
    }
    let entry = read_entry(alloc, version, types, index, table)?;
    add_mod(mods, id, entry)?;
    Ok(())
}

fn read_items(
    alloc: Global,
    version: u32,
    types: &IndexMap<ModId, ModType>,
    array: Array,
) -> Result<IndexMap<ModId, ModEntry>, ProfileError>
    requires sound { AllByRecursion (IsSound (1 + room OfMod)) (list_of (array_view array)) }
    requires ids { AllByRecursion IsModId (keys types.now) }
    ensures { ReadsBy (λ m. m.entries)
        (list_fault version (keys types.now) (list_of (array_view array)))
        (map (mod_value version) (list_of (array_view array))) result }
{
    let mut mods = IndexMap::new(alloc);
    for item in array {
        read_mod(alloc, version, types, &mut mods, item)?;
    }
    Ok(mods)
}

// The mods of a document with these types, by what stands at its `mods`.
pub(crate) fn read_mods(
    alloc: Global,
    version: u32,
    types: &IndexMap<ModId, ModType>,
    value: Option<Value>,
) -> Result<IndexMap<ModId, ModEntry>, ProfileError>
    requires sound { IfSome value (λ v. IsSound (2 + room OfMod) (view v)) }
    requires ids { AllByRecursion IsModId (keys types.now) }
    ensures { ReadsBy (λ m. m.entries) (mods_fault version (keys types.now) (option_map view value))
        (mods_value version (option_map view value)) result }
{
    let Some(value) = value else {
        return Ok(IndexMap::new(alloc));
    };
    let Some(array) = into_array(value) else {
        return Err(odd_at(alloc, "mods"));
    };
    read_items(alloc, version, types, array)
}
