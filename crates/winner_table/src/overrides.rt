// The override of each path.
ghost use Rattle.std.specs.Prelude.{◌<◌, ℕ, List, IfOk, length, option_map};
ghost use Rattle.std.specs.Ordering.{nat_cmp};
ghost use Rattle.std.specs.Cmp.Lexicographic.{slice_cmp};
ghost use Rattle.std.specs.BTreeMap.{get};
ghost use Rattle.winner_table.specs.Overrides.{IsIndexAt, IsIdAt, IsModAt};

use profile_toml::Override;
use rel_paths::{ModId, RelPath};
use std::alloc::{AllocError, Global};
use std::collections::BTreeMap;

/// For each path that has an override, its index.
pub(crate) fn indexes_of(
    alloc: Global,
    overrides: &[Override],
) -> Result<BTreeMap<RelPath, usize>, AllocError>
    ensures { IfOk result (λ indexes.
        (path : List ℕ) → IsIndexAt overrides.now path (get (slice_cmp nat_cmp) indexes path)) }
{
    let mut indexes = BTreeMap::new(alloc);
    for (index, entry) in overrides.iter().enumerate() {
        indexes.insert(entry.path().copy()?, index)?;
    }
    Ok(indexes)
}

// The mod of the override with this index.
fn mod_at(overrides: &[Override], index: usize) -> &ModId
    requires { index < length overrides.now }
    ensures { IsModAt overrides.now index result.now }
{
    overrides[index].mod_id()
}

/// The mod of the path's override.
pub(crate) fn id_of<'a>(
    indexes: &BTreeMap<RelPath, usize>,
    overrides: &'a [Override],
    path: &RelPath,
) -> Option<&'a ModId>
    requires { (path : List ℕ) → IsIndexAt overrides.now path (get (slice_cmp nat_cmp) indexes.now path) }
    ensures { IsIdAt overrides.now path.now (option_map (λ id. id.now) result) }
{
    match indexes.get(path) {
        Some(index) => Some(mod_at(overrides, *index)),
        None => None,
    }
}
