// Releases of mods.
ghost use Rattle.std.specs.Prelude.{◌≡◌, false};
ghost use Rattle.std.specs.Str.{bytes_eq};
ghost use Rattle.std.specs.Option.{option_map_or};
ghost use Rattle.profile_edit.specs.Parts.{with_value, with_release};
ghost use Rattle.profile_edit.specs.Edits.{Applies, no_mod_fault, release_fault};

use crate::EditError;
use crate::mods::no_mod;
use indexmap::IndexMap;
use profile_toml::{ModEntry, Release};
use rel_paths::ModId;

// Whether a release is there, and is this one.
fn is_release(old: Option<&Release>, release: &Release) -> bool
    ensures { result ≡ option_map_or (λ r. bytes_eq r.now release.now) old.entry false }
{
    match old {
        Some(old) => old.text() == release.text(),
        None => false,
    }
}

// Gives the mod with this id the release.
fn put_release(mods: &mut IndexMap<ModId, ModEntry>, id: &ModId, release: Release)
    ensures { mods.new.entries ≡ with_value id.now (with_release release) mods.old.entries }
{
    if let Some(entry) = mods.get_mut(id) {
        entry.release = Some(release);
    }
}

// Sets the release of the mod with this id.
fn set_release(
    mods: &mut IndexMap<ModId, ModEntry>,
    id: &ModId,
    release: &Release,
) -> Result<bool, EditError>
    ensures { Applies (no_mod_fault id.now mods.old.entries) mods.old.entries
        (with_value id.now (with_release release.now) mods.old.entries) mods.new.entries result }
{
    let Some(entry) = mods.get(id) else {
        return Err(no_mod(id)?);
    };
    if is_release(entry.release(), release) {
        return Ok(false);
    }
    put_release(mods, id, release.copy()?);
    Ok(true)
}

// The same in a profile of this version.
pub(crate) fn release_mod(
    version: u32,
    mods: &mut IndexMap<ModId, ModEntry>,
    id: &ModId,
    release: &Release,
) -> Result<bool, EditError>
    ensures { Applies (release_fault version id.now mods.old.entries) mods.old.entries
        (with_value id.now (with_release release.now) mods.old.entries) mods.new.entries result }
{
    if version == 1 {
        return Err(EditError::OldProfile);
    }
    set_release(mods, id, release)
}
