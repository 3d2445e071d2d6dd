// A profile is written.
ghost use Rattle.std.specs.Prelude.{◌≡◌, ◌⊎◌, OnOk};
ghost use Rattle.fault_count.specs.Causes.{HasCause};
ghost use Rattle.tree_fs.specs.declared.tree.TreeError.TheVariants.{Failed};
ghost use Rattle.tree_fs.specs.Story.{disk_of};
ghost use Rattle.desk_model.specs.Places.{profile_spot};
ghost use Rattle.intent_journal.specs.declared.temp.Temp.TheVariants as temp;
ghost use Rattle.intent_journal.specs.Temps.{temp_spot, IsFileOrAbsent};
ghost use Rattle.profile_write.specs.Written.{Puts, PutsWhole};

use crate::write_profile;
use profile_toml::{Profile, print_profile};
use std::alloc::Global;
use tree_fs::{Tree, TreeError};

/// Prints a profile, and writes it. What is written reads as this profile. Want of memory for the
/// text adds no step.
///
/// The clauses speak of a disk that stands with nothing pending, without an intent and without
/// temps: recovery of every stop leads to the old desk or to the one new desk, which is there after
/// Ok.
pub fn put_profile<T: Tree>(alloc: Global, tree: &mut T, profile: Profile) -> Result<(), TreeError>
    requires temp { T.tells →
        IsFileOrAbsent (disk_of (T.story tree.old)) (temp_spot temp.Profile) }
    requires place { T.tells → IsFileOrAbsent (disk_of (T.story tree.old)) profile_spot }
    ensures done { T.tells →
        OnOk result (PutsWhole profile (T.story tree.old) (T.story tree.new)) }
    ensures goes { T.tells → (T.story tree.new ≡ T.story tree.old)
        ⊎ Puts profile (T.story tree.old) (T.story tree.new) }
    ensures cause { HasCause Failed (T.faults tree.old) (T.faults tree.new) result }
{
    let text = print_profile(alloc, profile)?;
    write_profile(tree, &text)
}
