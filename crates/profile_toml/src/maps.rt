// New entries of maps and lists.
ghost use Rattle.std.specs.Prelude.{◌≡◌, ◌++◌, ◌∷◌, [], None, OnOk, nat_eq};
ghost use Rattle.std.specs.Cmp.Lexicographic.{pointwise};
ghost use Rattle.indexmap.specs.IndexMap.{get};

use crate::{ModEntry, ModType, Override, Rule};
use indexmap::IndexMap;
use rel_paths::{ModId, RelPath};
use std::alloc::AllocError;

pub(crate) fn add_mod(
    mods: &mut IndexMap<ModId, ModEntry>,
    id: ModId,
    entry: ModEntry,
) -> Result<(), AllocError>
    requires { get (pointwise nat_eq) mods.old id ≡ None }
    ensures { OnOk result (mods.new.entries ≡ mods.old.entries ++ (id, entry) ∷ []) }
{
    match mods.insert(id, entry) {
        Ok(_) => Ok(()),
        Err(_) => Err(AllocError),
    }
}

pub(crate) fn add_override(
    overrides: &mut IndexMap<RelPath, Override>,
    path: RelPath,
    entry: Override,
) -> Result<(), AllocError>
    requires { get (pointwise nat_eq) overrides.old path ≡ None }
    ensures { OnOk result (overrides.new.entries ≡ overrides.old.entries ++ (path, entry) ∷ []) }
{
    match overrides.insert(path, entry) {
        Ok(_) => Ok(()),
        Err(_) => Err(AllocError),
    }
}

pub(crate) fn add_type(
    types: &mut IndexMap<ModId, ModType>,
    id: ModId,
    entry: ModType,
) -> Result<(), AllocError>
    requires { get (pointwise nat_eq) types.old id ≡ None }
    ensures { OnOk result (types.new.entries ≡ types.old.entries ++ (id, entry) ∷ []) }
{
    match types.insert(id, entry) {
        Ok(_) => Ok(()),
        Err(_) => Err(AllocError),
    }
}

pub(crate) fn add_rule(rules: &mut Vec<Rule>, rule: Rule) -> Result<(), AllocError>
    ensures { OnOk result (rules.new.items ≡ rules.old.items ++ rule ∷ []) }
{
    match rules.push(rule) {
        Ok(()) => Ok(()),
        Err(_) => Err(AllocError),
    }
}
