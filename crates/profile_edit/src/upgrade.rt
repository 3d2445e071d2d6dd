// Profiles made version 2.
ghost use Rattle.std.specs.Prelude.{◌≡◌, IfOk, codes, option_map, position, string_bytes};
ghost use Rattle.std.specs.Option.{option_or};
ghost use Rattle.profile_toml.specs.Faults.{first_fault};
ghost use Rattle.profile_edit.specs.Edits.{Applies, upgrade_fault};
ghost use Rattle.profile_edit.specs.Upgrades.{path_of, has_key, key_if, mod_key, first_new_key};

use crate::EditError;
use indexmap::IndexMap;
use profile_toml::{ModEntry, Profile, Rule};
use rel_paths::{ModId, Text};
use std::alloc::{AllocError, Global};

// A key that version 2 has a meaning for: `fold`, `types`, the `release` or the `type` of a mod by its
// index, or the `range` of a rule by the index of its mod and its own.
#[derive(Clone, Copy)]
pub(crate) enum NewKey {
    Fold,
    Types,
    Release(usize),
    ModType(usize),
    Range(usize, usize),
}

// The key path of a key.
fn key_path(alloc: Global, key: NewKey) -> Result<String, AllocError>
    ensures { IfOk result (λ t. string_bytes t ≡ path_of key) }
{
    match key {
        NewKey::Fold => "fold".to_string(alloc),
        NewKey::Types => "types".to_string(alloc),
        NewKey::Release(i) => format!(in alloc; "mods[{i}].release"),
        NewKey::ModType(i) => format!(in alloc; "mods[{i}].type"),
        NewKey::Range(i, j) => format!(in alloc; "mods[{i}].rules[{j}].range"),
    }
}

fn has_range(rule: &Rule) -> bool
    ensures { result ≡ has_key (codes "range") rule.now.extra }
{
    rule.extra.has("range")
}

// The index of the first rule with a key `range`.
fn index_of_range(rules: &[Rule]) -> Option<usize>
    ensures { result ≡ position (λ r. has_key (codes "range") r.extra) rules.now }
{
    rules.iter().position(|rule| has_range(rule))
}

// The first such key of the mod with an index.
fn key_of_mod(index: usize, entry: &ModEntry) -> Option<NewKey>
    ensures { result
        ≡ option_or (key_if (has_key (codes "release") entry.now.extra) (NewKey.Release index))
        (option_or (key_if (has_key (codes "type") entry.now.extra) (NewKey.ModType index))
        (option_map (λ j. NewKey.Range index j)
        (position (λ r. has_key (codes "range") r.extra) entry.now.rules))) }
{
    if entry.extra.has("release") {
        return Some(NewKey::Release(index));
    }
    if entry.extra.has("type") {
        return Some(NewKey::ModType(index));
    }
    let place = index_of_range(entry.rules())?;
    Some(NewKey::Range(index, place))
}

// The first such key of the mods.
fn key_of_mods(mods: &IndexMap<ModId, ModEntry>) -> Option<NewKey>
    ensures { result ≡ first_fault mod_key 0 mods.now.entries }
{
    for index in 0..mods.len() {
        let Some((_id, entry)) = mods.get_index(index) else {
            return None;
        };
        if let Some(key) = key_of_mod(index, entry) {
            return Some(key);
        }
    }
    None
}

// The first such key of a profile.
fn first_new_key(profile: &Profile) -> Option<NewKey>
    ensures { result ≡ first_new_key profile.now }
{
    if profile.extra.has("fold") {
        return Some(NewKey::Fold);
    }
    if profile.extra.has("types") {
        return Some(NewKey::Types);
    }
    key_of_mods(&profile.mods)
}

// Makes the version 2, unless it is that already.
pub(crate) fn upgrade(alloc: Global, profile: &mut Profile) -> Result<bool, EditError>
    ensures { Applies (upgrade_fault profile.old) profile.old (record profile.old { version = 2 })
        profile.new result }
{
    if profile.version() != 1 {
        return Ok(false);
    }
    if let Some(key) = first_new_key(profile) {
        return Err(EditError::KeyTaken(Text::from_string(key_path(alloc, key)?)));
    }
    profile.version = 2;
    Ok(true)
}
