// The overrides of a profile, as a list.
ghost use Rattle.std.specs.Prelude.{◌≡◌, IfOk, map, nat_eq};
ghost use Rattle.std.specs.List.{IsDistinct};
ghost use Rattle.std.specs.Cmp.Lexicographic.{pointwise};
ghost use Rattle.profile_toml.specs.Plain.{plain_override};
ghost use Rattle.profile_toml.specs.Records.{AreAtTheirPaths};

use indexmap::IndexMap;
use profile_toml::{Override, Profile};
use rel_paths::RelPath;
use std::alloc::{AllocError, Global};

// These overrides without their unknown keys, in order.
fn plain_list(
    alloc: Global,
    overrides: &IndexMap<RelPath, Override>,
) -> Result<Vec<Override>, AllocError>
    requires { AreAtTheirPaths overrides.now.entries }
    ensures plain { IfOk result (λ all.
        all.items ≡ map (λ e. plain_override e.1.path e.1.mod_id) overrides.now.entries) }
    ensures differ { IfOk result (λ all.
        IsDistinct (pointwise nat_eq) (map (λ o. o.path) all.items)) }
{
    let mut all = Vec::with_capacity(alloc, overrides.len())?;
    for (_, entry) in overrides {
        let path = entry.path().copy()?;
        let mod_id = entry.mod_id().copy()?;
        all.push(Override::plain(alloc, path, mod_id))?;
    }
    Ok(all)
}

/// The overrides of a profile without their unknown keys, in order.
pub(crate) fn plain_overrides(alloc: Global, profile: &Profile) -> Result<Vec<Override>, AllocError>
    ensures plain { IfOk result (λ all.
        all.items ≡ map (λ o. plain_override o.path o.mod_id) profile.now.overrides) }
    ensures differ { IfOk result (λ all.
        IsDistinct (pointwise nat_eq) (map (λ o. o.path) all.items)) }
{
    plain_list(alloc, profile.overrides())
}
