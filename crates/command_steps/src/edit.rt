// An edit of the profile.
ghost use Rattle.std.specs.Prelude.{◌≡◌, ◌≢◌, ◌∷◌, [], IfOk, IsErrOf, MatchBool, OnErr};
ghost use Rattle.tree_fs.specs.Story.{Story, disk_of};
ghost use Rattle.profile_edit.specs.Edits.{HasUserPath, edited};
ghost use Rattle.command_steps.specs.declared.stop.Stop.TheVariants.{TreeFault};
ghost use Rattle.command_steps.specs.Profiles.{HasProfile};
ghost use Rattle.command_steps.specs.Steps.{edit};
ghost use Rattle.command_steps.specs.Orders.{Takes};

use crate::{Limits, Stop};
use profile_edit::{Edit, apply};
use profile_toml::Profile;
use std::alloc::Global;

/// Applies an edit to the profile, and tells whether that changed it. After a refusal the profile is as
/// before.
pub fn edit_profile(
    alloc: Global,
    profile: &mut Profile,
    change: &Edit,
    limits: &Limits,
) -> Result<bool, Stop>
    requires { HasUserPath change.now }
    ensures takes { (s : Story) → HasProfile (disk_of s) profile.old
        → Takes (edit change.now ∷ []) limits.now s s (λ changed.
        (profile.new ≡ edited profile.old change.now)
        × MatchBool changed (profile.new ≢ profile.old) (profile.new ≡ profile.old)) result }
    ensures unchanged { OnErr result (profile.new ≡ profile.old) }
    ensures calm { IsErrOf result TreeFault → ⊥ }
{
    Ok(apply(alloc, profile, change, limits.mods)?)
}
