// Temps: written, and brought to their places.
ghost use Rattle.std.specs.Prelude.{◌≡◌, ◌≢◌, List, [], ◌∷◌, ℕ, true, IfOk, IfErr, OnOk, Some, None};
ghost use Rattle.fault_count.specs.Causes.{HasCause};
ghost use Rattle.tree_fs.specs.declared.name.Kind.TheVariants.{File, Absent};
ghost use Rattle.tree_fs.specs.declared.tree.TreeError.TheVariants.{Failed};
ghost use Rattle.tree_fs.specs.Disk.{none, IsFile, IsSettled, kind_of};
ghost use Rattle.tree_fs.specs.declared.op.Op.TheVariants.{SyncFolder};
ghost use Rattle.tree_fs.specs.Spot.{root_spot};
ghost use Rattle.tree_fs.specs.Story.{Along, disk_of, with_ops};
ghost use Rattle.tree_fs.specs.Frames.{Touches, Syncs, EntriesSettled};
ghost use Rattle.desk_model.specs.Standing.{Standing};
ghost use Rattle.intent_journal.specs.Temps.{temp_spot, place_spot, with_temp, IsFileOrAbsent, Temped, Installs, IsWritten, IsInstalled};
ghost use Rattle.intent_journal.specs.Causes.{HeldHasCause};
ghost use Rattle.intent_journal.specs.Sweeps.{root_at, clear_ops};
ghost use Rattle.intent_journal.specs.Counts.{folder_count, SyncsAtMost};

use crate::temp::{own_place, temp_place};
use crate::{Held, Temp, TempFile};
use tree_fs::{Kind, Place, Root, Tree, TreeError};

// Takes a temp away where it is a file.
pub(crate) fn clear_temp<T: Tree>(tree: &mut T, which: Temp) -> Result<(), TreeError>
    ensures ops { T.tells →
        OnOk result (T.story tree.new
        ≡ with_ops (T.story tree.old) (clear_ops (disk_of (T.story tree.old)) which)) }
    ensures stops { T.tells →
        Along (Touches (temp_spot which) none (disk_of (T.story tree.old)))
        (T.story tree.old) (T.story tree.new) }
    ensures done { T.tells →
        OnOk result (kind_of (disk_of (T.story tree.new)) (temp_spot which) ≢ File) }
    ensures gone { T.tells →
        OnOk result (IsFileOrAbsent (disk_of (T.story tree.old)) (temp_spot which) →
        kind_of (disk_of (T.story tree.new)) (temp_spot which) ≡ Absent) }
    ensures syncs { T.tells → SyncsAtMost 0 (T.story tree.old) (T.story tree.new) }
    ensures cause { HasCause Failed (T.faults tree.old) (T.faults tree.new) result }
{
    let at = temp_place(which);
    if tree.kind(&at)? == Kind::File {
        return tree.unlink(&at);
    }
    Ok(())
}

// Puts a temp, and makes it firm.
fn fill_temp<T: Tree>(tree: &mut T, which: Temp, bytes: &[u8]) -> Result<(), TreeError>
    requires gone { T.tells → (disk_of (T.story tree.old)).now (temp_spot which) ≡ none }
    requires way { T.tells → IsFileOrAbsent (disk_of (T.story tree.old)) (temp_spot which) }
    ensures stops { T.tells →
        Along (Temped which (disk_of (T.story tree.old))) (T.story tree.old) (T.story tree.new) }
    ensures done { T.tells → OnOk result (IsWritten which bytes.now (disk_of (T.story tree.new))) }
    ensures syncs { T.tells → SyncsAtMost 0 (T.story tree.old) (T.story tree.new) }
    ensures cause { HasCause Failed (T.faults tree.old) (T.faults tree.new) result }
{
    let at = temp_place(which);
    tree.put_new(&at, bytes)?;
    tree.sync_file(&at)
}

// Writes a temp anew.
fn renew_temp<T: Tree>(tree: &mut T, which: Temp, bytes: &[u8]) -> Result<(), TreeError>
    requires { T.tells → IsFileOrAbsent (disk_of (T.story tree.old)) (temp_spot which) }
    ensures stops { T.tells →
        Along (Temped which (disk_of (T.story tree.old))) (T.story tree.old) (T.story tree.new) }
    ensures done { T.tells → OnOk result (IsWritten which bytes.now (disk_of (T.story tree.new))) }
    ensures syncs { T.tells → SyncsAtMost 0 (T.story tree.old) (T.story tree.new) }
    ensures cause { HasCause Failed (T.faults tree.old) (T.faults tree.new) result }
{
    clear_temp(tree, which)?;
    fill_temp(tree, which, bytes)
}

/// Writes a temp: an old one is taken away, the new one is put and made firm. Nothing else changes.
pub fn write_temp<T: Tree>(tree: &mut T, which: Temp, bytes: &[u8]) -> Result<TempFile, TreeError>
    requires { T.tells → IsFileOrAbsent (disk_of (T.story tree.old)) (temp_spot which) }
    ensures guard { IfOk result (λ temp. temp ≡ which) }
    ensures stops { T.tells →
        Along (Temped which (disk_of (T.story tree.old))) (T.story tree.old) (T.story tree.new) }
    ensures stands { T.tells → Standing (disk_of (T.story tree.old))
        → Along Standing (T.story tree.old) (T.story tree.new) }
    ensures done { T.tells → OnOk result (IsWritten which bytes.now (disk_of (T.story tree.new))) }
    ensures syncs { T.tells → SyncsAtMost 0 (T.story tree.old) (T.story tree.new) }
    ensures cause { HasCause Failed (T.faults tree.old) (T.faults tree.new) result }
{
    renew_temp(tree, which, bytes)?;
    Ok(TempFile { which })
}

// Settles the entries of a root.
pub(crate) fn sync_root<T: Tree>(tree: &mut T, root: Root) -> Result<(), TreeError>
    ensures ops { T.tells →
        OnOk result (T.story tree.new
        ≡ with_ops (T.story tree.old) (SyncFolder (root_at root) true ∷ [])) }
    ensures stops { T.tells →
        Along (Syncs (disk_of (T.story tree.old))) (T.story tree.old) (T.story tree.new) }
    ensures done { T.tells →
        OnOk result (EntriesSettled (disk_of (T.story tree.new)) (root_spot root)) }
    ensures syncs { T.tells → SyncsAtMost 1 (T.story tree.old) (T.story tree.new) }
    ensures cause { HasCause Failed (T.faults tree.old) (T.faults tree.new) result }
{
    tree.sync_folder(&Place { root, rel: None })
}

// Settles the entries of two roots.
fn sync_roots<T: Tree>(tree: &mut T, first: Root, second: Root) -> Result<(), TreeError>
    ensures stops { T.tells →
        Along (Syncs (disk_of (T.story tree.old))) (T.story tree.old) (T.story tree.new) }
    ensures first { T.tells →
        OnOk result (EntriesSettled (disk_of (T.story tree.new)) (root_spot first)) }
    ensures second { T.tells →
        OnOk result (EntriesSettled (disk_of (T.story tree.new)) (root_spot second)) }
    ensures syncs { T.tells → SyncsAtMost 2 (T.story tree.old) (T.story tree.new) }
    ensures cause { HasCause Failed (T.faults tree.old) (T.faults tree.new) result }
{
    sync_root(tree, first)?;
    sync_root(tree, second)
}

// Settles the folders of a temp and of its place.
fn settle<T: Tree>(tree: &mut T, which: Temp) -> Result<(), TreeError>
    ensures stops { T.tells →
        Along (Syncs (disk_of (T.story tree.old))) (T.story tree.old) (T.story tree.new) }
    ensures temp { T.tells →
        OnOk result (IsSettled (disk_of (T.story tree.new)) (temp_spot which)) }
    ensures place { T.tells →
        OnOk result (IsSettled (disk_of (T.story tree.new)) (place_spot which)) }
    ensures syncs { T.tells →
        SyncsAtMost (folder_count which) (T.story tree.old) (T.story tree.new) }
    ensures cause { HasCause Failed (T.faults tree.old) (T.faults tree.new) result }
{
    match which {
        Temp::Intent => sync_root(tree, Root::Keep),
        Temp::Manifest => sync_roots(tree, Root::Game, Root::Keep),
        Temp::Profile => sync_root(tree, Root::Keep),
    }
}

// Renames a temp to its place, and settles both.
fn put_in_place<T: Tree>(tree: &mut T, which: Temp) -> Result<(), TreeError>
    requires temp { T.tells → IsFile (disk_of (T.story tree.old)) (temp_spot which) }
    requires place { T.tells → IsFileOrAbsent (disk_of (T.story tree.old)) (place_spot which) }
    ensures stops { T.tells → (text : List ℕ) → IsWritten which text (disk_of (T.story tree.old)) →
        Along (Installs which (disk_of (T.story tree.old))) (T.story tree.old) (T.story tree.new) }
    ensures stands { T.tells → (text : List ℕ) → IsWritten which text (disk_of (T.story tree.old)) →
        Standing (with_temp which (disk_of (T.story tree.old))) →
        Along Standing (T.story tree.old) (T.story tree.new) }
    ensures done { T.tells →
        OnOk result ((text : List ℕ) → IsWritten which text (disk_of (T.story tree.old)) →
        IsInstalled which text (disk_of (T.story tree.new))) }
    ensures syncs { T.tells →
        SyncsAtMost (folder_count which) (T.story tree.old) (T.story tree.new) }
    ensures cause { HasCause Failed (T.faults tree.old) (T.faults tree.new) result }
{
    let temp = temp_place(which);
    let place = own_place(which);
    tree.rename(&temp, &place)?;
    settle(tree, which)
}

/// Brings a temp to its place, in place of what was there, and settles both. Where the disk stands
/// with the temp's file at the place besides, it stands all along. The error holds the temp.
pub fn install<T: Tree>(temp: TempFile, tree: &mut T) -> Result<(), Held>
    requires temp { T.tells → IsFile (disk_of (T.story tree.old)) (temp_spot temp) }
    requires place { T.tells → IsFileOrAbsent (disk_of (T.story tree.old)) (place_spot temp) }
    ensures stops { T.tells → (text : List ℕ) → IsWritten temp text (disk_of (T.story tree.old)) →
        Along (Installs temp (disk_of (T.story tree.old))) (T.story tree.old) (T.story tree.new) }
    ensures stands { T.tells → (text : List ℕ) → IsWritten temp text (disk_of (T.story tree.old)) →
        Standing (with_temp temp (disk_of (T.story tree.old))) →
        Along Standing (T.story tree.old) (T.story tree.new) }
    ensures done { T.tells →
        OnOk result ((text : List ℕ) → IsWritten temp text (disk_of (T.story tree.old)) →
        IsInstalled temp text (disk_of (T.story tree.new))) }
    ensures held { IfErr result (λ held. (held.temp ≡ Some temp) × (held.intent ≡ None)) }
    ensures syncs { T.tells →
        SyncsAtMost (folder_count temp) (T.story tree.old) (T.story tree.new) }
    ensures cause { HeldHasCause (T.faults tree.old) (T.faults tree.new) result }
{
    match put_in_place(tree, temp.which) {
        Ok(()) => {
            let TempFile { which: _ } = temp;
            Ok(())
        }
        Err(error) => Err(Held {
            error,
            intent: None,
            temp: Some(temp),
        }),
    }
}

/// Takes a temp away where it is there. The guard is spent either way.
pub fn discard<T: Tree>(temp: TempFile, tree: &mut T) -> Result<(), TreeError>
    ensures stops { T.tells →
        Along (Temped temp (disk_of (T.story tree.old))) (T.story tree.old) (T.story tree.new) }
    ensures stands { T.tells → Standing (disk_of (T.story tree.old))
        → Along Standing (T.story tree.old) (T.story tree.new) }
    ensures done { T.tells →
        OnOk result (kind_of (disk_of (T.story tree.new)) (temp_spot temp) ≢ File) }
    ensures gone { T.tells →
        OnOk result (IsFileOrAbsent (disk_of (T.story tree.old)) (temp_spot temp) →
        kind_of (disk_of (T.story tree.new)) (temp_spot temp) ≡ Absent) }
    ensures syncs { T.tells → SyncsAtMost 0 (T.story tree.old) (T.story tree.new) }
    ensures cause { HasCause Failed (T.faults tree.old) (T.faults tree.new) result }
{
    let TempFile { which } = temp;
    clear_temp(tree, which)
}
