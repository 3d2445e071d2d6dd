// The profile.
ghost use Rattle.std.specs.Prelude.{◌≡◌, ◌<◌, ◌++◌, ◌+◌, ◌*◌, ◌∷◌, [], None, IfOk, OnOk, nat_eq};
ghost use Rattle.std.specs.Cmp.Lexicographic.{pointwise};
ghost use Rattle.indexmap.specs.IndexMap.{get};
ghost use Rattle.sample_world.specs.Files.{stage_files, game_files};
ghost use Rattle.sample_world.specs.Parts.{overrides_below};
ghost use Rattle.sample_world.specs.Profiles.{has_rule, has_override, sample_mod, sample_override, sample_profile};
ghost use Rattle.sample_world.specs.Texts.{mods_of, mod_id, file_path};
ghost use Rattle.sample_world.specs.Worlds.{HasFiles, IsSample};

use crate::names::{count_mods, file_path, mod_id};
use indexmap::IndexMap;
use profile_toml::{Extra, ModEntry, Override, Profile, Rule, RuleKind, print_profile};
use rel_paths::{Control, ModId, RelPath};
use std::alloc::{AllocError, Global};
use tree_fs::Place;
use tree_mem::MemTree;

// Whether a mod is to load before the one that stands before it.
fn has_rule(number: u64, index: u32) -> bool
    ensures { result ≡ has_rule number index }
{
    index >= 1 && u64::from(index % 10) == number % 10
}

// Whether there is an override to a mod.
fn has_override(number: u64, index: u32) -> bool
    ensures { result ≡ has_override number index }
{
    index >= 1 && u64::from(index % 20) == number % 20
}

fn sample_mod(alloc: Global, number: u64, index: u32) -> Result<ModEntry, AllocError>
    ensures { IfOk result (λ entry. entry ≡ sample_mod number index) }
{
    let mut entry = ModEntry::plain(alloc, true);
    if !has_rule(number, index) {
        return Ok(entry);
    }
    let refers = mod_id(alloc, index - 1)?;
    let rule = Rule::plain(alloc, RuleKind::Before, refers);
    match entry.rules.push(rule) {
        Ok(()) => Ok(entry),
        Err(_) => Err(AllocError),
    }
}

fn add_mod(
    alloc: Global,
    mods: &mut IndexMap<ModId, ModEntry>,
    number: u64,
    index: u32,
) -> Result<(), AllocError>
    requires { get (pointwise nat_eq) mods.old (mod_id index) ≡ None }
    ensures { OnOk result
        (mods.new.entries ≡ mods.old.entries ++ (mod_id index, sample_mod number index) ∷ []) }
{
    let id = mod_id(alloc, index)?;
    let entry = sample_mod(alloc, number, index)?;
    match mods.insert(id, entry) {
        Ok(_) => Ok(()),
        Err(_) => Err(AllocError),
    }
}

fn sample_mods(alloc: Global, number: u64) -> Result<IndexMap<ModId, ModEntry>, AllocError>
    ensures { IfOk result (λ mods. mods.entries ≡ (sample_profile number).mods) }
{
    let mut mods = IndexMap::new(alloc);
    for index in 0..count_mods(number) {
        add_mod(alloc, &mut mods, number, index)?;
    }
    Ok(mods)
}

fn add_override(
    alloc: Global,
    overrides: &mut IndexMap<RelPath, Override>,
    index: u32,
) -> Result<(), AllocError>
    requires few { index < 1000 }
    requires fresh { get (pointwise nat_eq) overrides.old (file_path (50 * index)) ≡ None }
    ensures { OnOk result
        (overrides.new.entries
        ≡ overrides.old.entries ++ (file_path (50 * index), sample_override index) ∷ []) }
{
    let path = file_path(alloc, 50 * index)?;
    let id = mod_id(alloc, index)?;
    let entry = Override::plain(alloc, path.copy()?, id);
    match overrides.insert(path, entry) {
        Ok(_) => Ok(()),
        Err(_) => Err(AllocError),
    }
}

fn add_override_if_there(
    alloc: Global,
    overrides: &mut IndexMap<RelPath, Override>,
    number: u64,
    index: u32,
) -> Result<(), AllocError>
    requires few { index < 1000 }
    requires so_far { overrides.old.entries ≡ overrides_below number index }
    ensures { OnOk result (overrides.new.entries ≡ overrides_below number (index + 1)) }
{
    if has_override(number, index) {
        add_override(alloc, overrides, index)
    } else {
        Ok(())
    }
}

fn sample_overrides(alloc: Global, number: u64) -> Result<IndexMap<RelPath, Override>, AllocError>
    ensures { IfOk result
        (λ overrides. overrides.entries ≡ overrides_below number (mods_of number)) }
{
    let mut overrides = IndexMap::new(alloc);
    for index in 0..count_mods(number) {
        add_override_if_there(alloc, &mut overrides, number, index)?;
    }
    Ok(overrides)
}

fn sample_profile(alloc: Global, number: u64) -> Result<Profile, AllocError>
    ensures { IfOk result (λ profile. profile ≡ sample_profile number) }
{
    let mods = sample_mods(alloc, number)?;
    let overrides = sample_overrides(alloc, number)?;
    Ok(Profile {
        version: 1,
        mods,
        overrides,
        types: Vec::new(alloc),
        extra: Extra::none(alloc),
    })
}

/// Adds the profile to a world of the other files.
pub(crate) fn add_profile(alloc: Global, tree: &mut MemTree, number: u64) -> Result<(), AllocError>
    requires { HasFiles (stage_files number ++ game_files number) tree.old }
    ensures { OnOk result (IsSample number tree.new) }
{
    let profile = sample_profile(alloc, number)?;
    let bytes = print_profile(alloc, profile)?;
    tree.add_file(alloc, &Place::control(Control::Profile), bytes.as_slice())
}
