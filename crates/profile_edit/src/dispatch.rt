// One edit of a profile.
ghost use Rattle.std.specs.Prelude.{◌≡◌, ◌≢◌, None, IfOk, IfErr, OnOk, OnErr, MatchBool};
ghost use Rattle.profile_edit.specs.Edits.{Applies, HasUserPath, edited, edit_fault};
ghost use Rattle.fault_count.specs.Causes.{Explains};

use crate::{Edit, EditError, mods, overrides, releases, rules, upgrade};
use profile_toml::Profile;
use std::alloc::Global;

fn apply_to(
    alloc: Global,
    profile: &mut Profile,
    edit: &Edit,
    most_mods: u32,
) -> Result<bool, EditError>
    requires { HasUserPath edit.now }
    ensures { Applies (edit_fault most_mods profile.old edit.now) profile.old
        (edited profile.old edit.now) profile.new result }
{
    match edit {
        Edit::Enable(id) => mods::enable(alloc, &mut profile.mods, id, most_mods),
        Edit::Disable(id) => mods::disable(&mut profile.mods, id),
        Edit::AddRule {
            mod_id,
            kind,
            refers,
        } => rules::add_rule(alloc, &mut profile.mods, mod_id, *kind, refers),
        Edit::DropRule {
            mod_id,
            kind,
            refers,
        } => rules::drop_rule(&mut profile.mods, mod_id, *kind, refers),
        Edit::SetOverride { path, mod_id } => {
            if !mods::is_known(&profile.mods, mod_id) {
                return Err(mods::no_mod(mod_id)?);
            }
            overrides::set_override(alloc, &mut profile.overrides, path, mod_id)
        }
        Edit::DropOverride(path) => overrides::drop_override(&mut profile.overrides, path),
        Edit::Upgrade => upgrade::upgrade(alloc, profile),
        Edit::Release { mod_id, release } => {
            releases::release_mod(profile.version, &mut profile.mods, mod_id, release)
        }
    }
}

/// Applies an edit to the profile, which may have `most_mods` mods, and tells whether the profile
/// changed.
///
/// `TooMany` is for an unknown mod to enable where there are that many already. `NoMod` is for the mod
/// of a disabling, a rule, an override to set or a release that isn't in the profile. `SameRule` and
/// `NoRule` are for a rule of that kind and reference that the mod has and doesn't have, and
/// `NoOverride` is for a path without one. `KeyTaken` is for a profile of version 1 to upgrade that has
/// a key with a meaning in version 2: the first of `fold`, `types`, and then by mod its `release`, its
/// `type` and its rules' `range`. `OldProfile` is for a release in a profile of version 1, and is told
/// before `NoMod`. After an error the profile is as before, and each edit but an upgrade keeps the
/// version.
pub fn apply(
    alloc: Global,
    profile: &mut Profile,
    edit: &Edit,
    most_mods: u32,
) -> Result<bool, EditError>
    requires { HasUserPath edit.now }
    ensures ok { OnOk result (edit_fault most_mods profile.old edit.now ≡ None) }
    ensures edited { OnOk result (profile.new ≡ edited profile.old edit.now) }
    ensures changed { IfOk result
        (λ changed. MatchBool changed (profile.new ≢ profile.old) (profile.new ≡ profile.old)) }
    ensures err { IfErr result
        (Explains EditError.Memory (edit_fault most_mods profile.old edit.now)) }
    ensures unchanged { OnErr result (profile.new ≡ profile.old) }
{
    apply_to(alloc, profile, edit, most_mods)
}
