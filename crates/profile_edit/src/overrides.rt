// Overrides set and dropped.
ghost use Rattle.std.specs.Prelude.{◌≡◌, ◌++◌, ◌∷◌, [], None, IfOk};
ghost use Rattle.std.specs.Map.{remove_entry, values_of};
ghost use Rattle.std.specs.Option.{option_map};
ghost use Rattle.std.specs.Str.{bytes_eq};
ghost use Rattle.rel_paths.specs.Names.{IsUserPath};
ghost use Rattle.profile_toml.specs.Records.{AreAtTheirPaths};
ghost use Rattle.profile_edit.specs.declared.error.EditError.TheVariants.{NoOverride};
ghost use Rattle.profile_edit.specs.Parts.{value_at, with_value, with_mod_id};
ghost use Rattle.profile_edit.specs.Edits.{Applies, overrides_set, overrides_dropped, no_override_fault};

use crate::EditError;
use indexmap::IndexMap;
use profile_toml::Override;
use rel_paths::{ModId, RelPath};
use std::alloc::{AllocError, Global};
use std::mem;

fn no_override(path: &RelPath) -> Result<EditError, AllocError>
    ensures { IfOk result (λ e. e ≡ NoOverride path.now) }
{
    Ok(EditError::NoOverride(path.copy()?))
}

// Whether the override, if there is one, is to this mod.
fn is_to(entry: Option<&Override>, id: &ModId) -> Option<bool>
    ensures { result ≡ option_map (λ o. bytes_eq o.now.mod_id id.now) entry.entry }
{
    Some(entry?.mod_id() == id)
}

// Changes the override of a path, if there is one, to the mod.
fn set_mod(overrides: &mut IndexMap<RelPath, Override>, path: &RelPath, id: ModId)
    ensures { overrides.new.entries ≡ with_value path.now (with_mod_id id) overrides.old.entries }
{
    if let Some(entry) = overrides.get_mut(path) {
        entry.mod_id = id;
    }
}

pub(crate) fn set_override(
    alloc: Global,
    overrides: &mut IndexMap<RelPath, Override>,
    path: &RelPath,
    id: &ModId,
) -> Result<bool, EditError>
    requires keyed { AreAtTheirPaths overrides.old.entries }
    requires user { IsUserPath path.now }
    ensures result { Applies None (values_of overrides.old.entries)
        (overrides_set path.now id.now (values_of overrides.old.entries))
        (values_of overrides.new.entries) result }
    ensures keyed { AreAtTheirPaths overrides.new.entries }
{
    match is_to(overrides.get(path), id) {
        Some(same) => {
            set_mod(overrides, path, id.copy()?);
            Ok(!same)
        }
        None => {
            let entry = Override::plain(alloc, path.copy()?, id.copy()?);
            match overrides.insert(path.copy()?, entry) {
                Ok(_) => Ok(true),
                Err(_) => Err(EditError::Memory),
            }
        }
    }
}

pub(crate) fn drop_override(
    overrides: &mut IndexMap<RelPath, Override>,
    path: &RelPath,
) -> Result<bool, EditError>
    requires { AreAtTheirPaths overrides.old.entries }
    ensures result { Applies (no_override_fault path.now (values_of overrides.old.entries))
        (values_of overrides.old.entries)
        (overrides_dropped path.now (values_of overrides.old.entries))
        (values_of overrides.new.entries) result }
    ensures keyed { AreAtTheirPaths overrides.new.entries }
{
    if overrides.shift_remove(path).is_none() {
        return Err(no_override(path)?);
    }
    Ok(true)
}
