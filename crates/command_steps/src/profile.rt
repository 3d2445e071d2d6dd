// The profile of a disk.
ghost use Rattle.std.specs.Prelude.{◌≡◌, ◌≢◌, ◌≤◌, ◌<◌, ◌^◌, ◌∷◌, [], IfOk, IfErr, length};
ghost use Rattle.fault_count.specs.Causes.{HasCause};
ghost use Rattle.tree_fs.specs.declared.name.Kind.TheVariants.{File};
ghost use Rattle.tree_fs.specs.Disk.{kind_of};
ghost use Rattle.tree_fs.specs.Story.{disk_of};
ghost use Rattle.mod_rules.specs.Nodes.{nodes_of};
ghost use Rattle.desk_model.specs.Places.{profile_spot};
ghost use Rattle.answer_lines.specs.declared.refusal.Refusal.TheVariants as group;
ghost use Rattle.answer_lines.specs.declared.refusal.ProfileRefusal.TheVariants.{TooManyMods};
ghost use Rattle.command_steps.specs.declared.stop.Stop.TheVariants.{Refused, TreeFault};
ghost use Rattle.command_steps.specs.Profiles.{HasProfile, IsReadStop};
ghost use Rattle.command_steps.specs.Steps.{profile};
ghost use Rattle.command_steps.specs.Orders.{Takes};

use crate::mods::staged_mods;
use crate::{Limits, Stop};
use answer_lines::{ProfileRefusal, Refusal};
use intent_journal::control_bytes;
use profile_toml::{Profile, default_profile, read_profile};
use rel_paths::Control;
use std::alloc::Global;
use tree_fs::{Kind, Place, Tree};

/// The profile of the disk: what the bytes at its place are, or where no file is there that of the
/// mods below `stage`, all enabled. The profile's own faults come first, then `TooManyMods`.
pub fn profile_of<T: Tree>(alloc: Global, tree: &mut T, limits: &Limits) -> Result<Profile, Stop>
    ensures takes { T.tells →
        Takes (profile ∷ []) limits.now (T.story tree.old) (T.story tree.new)
        (HasProfile (disk_of (T.story tree.old))) result }
    ensures few { IfOk result (λ p. length (nodes_of p) < 2 ^ 32) }
    ensures same { T.tells → T.story tree.new ≡ T.story tree.old }
    ensures cause { HasCause TreeFault (T.faults tree.old) (T.faults tree.new) result }
{
    let found = found_profile(alloc, tree)?;
    check_count(found, limits)
}

// The profile, where its mods aren't more than the limit.
fn check_count(found: Profile, limits: &Limits) -> Result<Profile, Stop>
    ensures same { IfOk result (λ p. p ≡ found) }
    ensures within { IfOk result (λ p. length p.mods ≤ limits.now.mods) }
    ensures few { IfOk result (λ p. length (nodes_of p) < 2 ^ 32) }
    ensures above { IfErr result (λ stop. (limits.now.mods < length found.mods)
        × (stop ≡ Refused (group.Profile (TooManyMods (length found.mods))))) }
{
    let count = found.mods().len() as u64;
    if count > limits.mods as u64 {
        return Err(Stop::Refused(Refusal::Profile(ProfileRefusal::TooManyMods(count))));
    }
    Ok(found)
}

fn found_profile<T: Tree>(alloc: Global, tree: &mut T) -> Result<Profile, Stop>
    ensures found { T.tells → IfOk result (HasProfile (disk_of (T.story tree.old))) }
    ensures stopped { T.tells → IfErr result (IsReadStop (disk_of (T.story tree.old))) }
    ensures same { T.tells → T.story tree.new ≡ T.story tree.old }
    ensures cause { HasCause TreeFault (T.faults tree.old) (T.faults tree.new) result }
{
    match tree.kind(&Place::control(Control::Profile))? {
        Kind::File => profile_there(alloc, tree),
        _ => profile_of_mods(alloc, tree),
    }
}

// What the profile's file is.
fn profile_there<T: Tree>(alloc: Global, tree: &mut T) -> Result<Profile, Stop>
    requires { T.tells → kind_of (disk_of (T.story tree.old)) profile_spot ≡ File }
    ensures found { T.tells → IfOk result (HasProfile (disk_of (T.story tree.old))) }
    ensures stopped { T.tells → IfErr result (IsReadStop (disk_of (T.story tree.old))) }
    ensures same { T.tells → T.story tree.new ≡ T.story tree.old }
    ensures cause { HasCause TreeFault (T.faults tree.old) (T.faults tree.new) result }
{
    let bytes = control_bytes(alloc, tree, Control::Profile)?;
    Ok(read_profile(alloc, &bytes)?)
}

// The profile of the mods below `stage`.
fn profile_of_mods<T: Tree>(alloc: Global, tree: &mut T) -> Result<Profile, Stop>
    requires { T.tells → kind_of (disk_of (T.story tree.old)) profile_spot ≢ File }
    ensures found { T.tells → IfOk result (HasProfile (disk_of (T.story tree.old))) }
    ensures stopped { T.tells → IfErr result (IsReadStop (disk_of (T.story tree.old))) }
    ensures same { T.tells → T.story tree.new ≡ T.story tree.old }
    ensures cause { HasCause TreeFault (T.faults tree.old) (T.faults tree.new) result }
{
    let ids = staged_mods(alloc, tree)?;
    Ok(default_profile(alloc, ids)?)
}
