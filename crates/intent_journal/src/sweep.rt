// What every command that changes the disk begins with.
ghost use Rattle.std.specs.Prelude.{◌≡◌, OnOk};
ghost use Rattle.fault_count.specs.Causes.{HasCause};
ghost use Rattle.tree_fs.specs.declared.name.Kind.TheVariants.{Absent};
ghost use Rattle.tree_fs.specs.declared.place.Root.TheVariants.{Keep};
ghost use Rattle.tree_fs.specs.declared.tree.TreeError.TheVariants.{Failed};
ghost use Rattle.tree_fs.specs.Spot.{root_spot};
ghost use Rattle.tree_fs.specs.Disk.{kind_of};
ghost use Rattle.tree_fs.specs.Story.{Along, disk_of, with_ops};
ghost use Rattle.tree_fs.specs.Frames.{EntriesSettled};
ghost use Rattle.desk_model.specs.Standing.{Standing};
ghost use Rattle.intent_journal.specs.declared.temp.Temp.{Temp};
ghost use Rattle.intent_journal.specs.Temps.{temp_spot, IsFileOrAbsent};
ghost use Rattle.intent_journal.specs.Sweeps.{Sweeps, clear_all_ops, sweep_ops, LeadsLikeAStop};
ghost use Rattle.intent_journal.specs.Counts.{SyncsAtMost};

use crate::Temp;
use crate::temps::{clear_temp, sync_root};
use tree_fs::{Root, Tree, TreeError};

// Takes the three temps away, one after the other.
fn clear_temps<T: Tree>(tree: &mut T) -> Result<(), TreeError>
    requires { T.tells → (which : Temp)
        → IsFileOrAbsent (disk_of (T.story tree.old)) (temp_spot which) }
    ensures ops { T.tells →
        OnOk result (T.story tree.new
        ≡ with_ops (T.story tree.old) (clear_all_ops (disk_of (T.story tree.old)))) }
    ensures stops { T.tells →
        Along (Sweeps (disk_of (T.story tree.old))) (T.story tree.old) (T.story tree.new) }
    ensures gone { T.tells → OnOk result ((which : Temp)
        → kind_of (disk_of (T.story tree.new)) (temp_spot which) ≡ Absent) }
    ensures syncs { T.tells → SyncsAtMost 0 (T.story tree.old) (T.story tree.new) }
    ensures cause { HasCause Failed (T.faults tree.old) (T.faults tree.new) result }
{
    clear_temp(tree, Temp::Intent)?;
    clear_temp(tree, Temp::Manifest)?;
    clear_temp(tree, Temp::Profile)
}

// Takes the temps away, and settles `keep`.
fn sweep<T: Tree>(tree: &mut T) -> Result<(), TreeError>
    requires { T.tells → (which : Temp)
        → IsFileOrAbsent (disk_of (T.story tree.old)) (temp_spot which) }
    ensures ops { T.tells →
        OnOk result (T.story tree.new
        ≡ with_ops (T.story tree.old) (sweep_ops (disk_of (T.story tree.old)))) }
    ensures stops { T.tells →
        Along (Sweeps (disk_of (T.story tree.old))) (T.story tree.old) (T.story tree.new) }
    ensures gone { T.tells → OnOk result ((which : Temp)
        → kind_of (disk_of (T.story tree.new)) (temp_spot which) ≡ Absent) }
    ensures settled { T.tells →
        OnOk result (EntriesSettled (disk_of (T.story tree.new)) (root_spot Keep)) }
    ensures syncs { T.tells → SyncsAtMost 1 (T.story tree.old) (T.story tree.new) }
    ensures cause { HasCause Failed (T.faults tree.old) (T.faults tree.new) result }
{
    clear_temps(tree)?;
    sync_root(tree, Root::Keep)
}

/// Takes old temps away, and settles `keep`: what an earlier command left pending there is settled
/// as it is now. Each stop leads where some stop of the disk before the call leads.
pub fn sweep_temps<T: Tree>(tree: &mut T) -> Result<(), TreeError>
    requires { T.tells → (which : Temp)
        → IsFileOrAbsent (disk_of (T.story tree.old)) (temp_spot which) }
    ensures ops { T.tells →
        OnOk result (T.story tree.new
        ≡ with_ops (T.story tree.old) (sweep_ops (disk_of (T.story tree.old)))) }
    ensures stops { T.tells →
        Along (Sweeps (disk_of (T.story tree.old))) (T.story tree.old) (T.story tree.new) }
    ensures stands { T.tells → Standing (disk_of (T.story tree.old))
        → Along Standing (T.story tree.old) (T.story tree.new) }
    ensures leads { T.tells → Standing (disk_of (T.story tree.old))
        → Along (LeadsLikeAStop (disk_of (T.story tree.old)))
        (T.story tree.old) (T.story tree.new) }
    ensures gone { T.tells → OnOk result ((which : Temp)
        → kind_of (disk_of (T.story tree.new)) (temp_spot which) ≡ Absent) }
    ensures settled { T.tells →
        OnOk result (EntriesSettled (disk_of (T.story tree.new)) (root_spot Keep)) }
    ensures syncs { T.tells → SyncsAtMost 1 (T.story tree.old) (T.story tree.new) }
    ensures cause { HasCause Failed (T.faults tree.old) (T.faults tree.new) result }
{
    sweep(tree)
}
