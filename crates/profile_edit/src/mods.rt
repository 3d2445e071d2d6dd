// Mods enabled and disabled.
ghost use Rattle.std.specs.Prelude.{◌≡◌, None, true, false, is_some, IfOk};
ghost use Rattle.std.specs.Option.{option_map};
ghost use Rattle.profile_edit.specs.declared.error.EditError.TheVariants.{NoMod};
ghost use Rattle.profile_edit.specs.Parts.{value_at, with_value, with_enabled};
ghost use Rattle.profile_edit.specs.Edits.{Applies, mods_enabled, enable_fault, no_mod_fault};

use crate::EditError;
use indexmap::IndexMap;
use profile_toml::ModEntry;
use rel_paths::ModId;
use std::alloc::{AllocError, Global};

pub(crate) fn no_mod(id: &ModId) -> Result<EditError, AllocError>
    ensures { IfOk result (λ e. e ≡ NoMod id.now) }
{
    Ok(EditError::NoMod(id.copy()?))
}

// Whether the mod with this id is there.
pub(crate) fn is_known(mods: &IndexMap<ModId, ModEntry>, id: &ModId) -> bool
    ensures { result ≡ is_some (value_at id.now mods.now.entries) }
{
    mods.contains_key(id)
}

// Enables or disables the mod with this id, and tells whether it was enabled.
fn set_enabled(mods: &mut IndexMap<ModId, ModEntry>, id: &ModId, enabled: bool) -> Option<bool>
    ensures was { result ≡ option_map (λ m. m.enabled) (value_at id.now mods.old.entries) }
    ensures after { mods.new.entries ≡ with_value id.now (with_enabled enabled) mods.old.entries }
{
    match mods.get_mut(id) {
        Some(entry) => {
            let was = entry.enabled;
            entry.enabled = enabled;
            Some(was)
        }
        None => None,
    }
}

pub(crate) fn enable(
    alloc: Global,
    mods: &mut IndexMap<ModId, ModEntry>,
    id: &ModId,
    most_mods: u32,
) -> Result<bool, EditError>
    ensures { Applies (enable_fault most_mods id.now mods.old.entries) mods.old.entries
        (mods_enabled id.now mods.old.entries) mods.new.entries result }
{
    if let Some(was) = set_enabled(mods, id, true) {
        return Ok(!was);
    }
    let count = mods.len() as u64 + 1;
    if count > u64::from(most_mods) {
        return Err(EditError::TooMany(count));
    }
    match mods.insert(id.copy()?, ModEntry::plain(alloc, true)) {
        Ok(_) => Ok(true),
        Err(_) => Err(EditError::Memory),
    }
}

pub(crate) fn disable(mods: &mut IndexMap<ModId, ModEntry>, id: &ModId) -> Result<bool, EditError>
    ensures { Applies (no_mod_fault id.now mods.old.entries) mods.old.entries
        (with_value id.now (with_enabled false) mods.old.entries) mods.new.entries result }
{
    match set_enabled(mods, id, false) {
        Some(was) => Ok(was),
        None => Err(no_mod(id)?),
    }
}
