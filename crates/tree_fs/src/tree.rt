// A file system, as the engine sees it.
ghost use Rattle.std.specs.Prelude.{◌≡◌, ℕ, ◌<◌, IfOk, length};
ghost use Rattle.fault_count.specs.Causes.{HasCause};
ghost use Rattle.tree_fs.specs.Spot.{spot_of};
ghost use Rattle.tree_fs.specs.Disk.{kind_of, is_one_file, IsFile, IsValid};
ghost use Rattle.tree_fs.specs.Story.{Story, disk_of};
ghost use Rattle.tree_fs.specs.Calls.{AddsOne, AddsNew, CanLink, CanUnlink, CanRename, CanPut, CanMakeFolder, CanRemoveFolder, IsFolder};
ghost use Rattle.tree_fs.specs.Listing.{IsListing};
ghost use Rattle.tree_fs.specs.Parts.{bytes_at, IsPart};
ghost use Rattle.tree_fs.specs.declared.op.Op.TheVariants.{Link, Unlink, Rename, MakeFolder, RemoveFolder, SyncFolder, SyncFile};
ghost use Rattle.tree_fs.specs.declared.tree.TreeError.TheVariants.{Failed, Memory};

use crate::{Entry, Kind, Place};
use std::alloc::{AllocError, AllocFailed};
use thiserror::Error;

/// Why a call on a tree gave no answer.
#[derive(Clone, Copy, Debug, PartialEq, Eq, Error)]
pub enum TreeError {
    /// The file system failed, and the tree counted it.
    #[error("the file system failed")]
    Failed,
    /// Memory ran out.
    #[error("out of memory")]
    Memory,
}

impl From<AllocError> for TreeError {
    ghost from_gives = { λ _ e. e ≡ Memory };

    fn from(_: AllocError) -> Self {
        TreeError::Memory
    }
}

impl<T: Drop> From<AllocFailed<T>> for TreeError {
    ghost from_gives = { λ _ e. e ≡ Memory };

    fn from(_: AllocFailed<T>) -> Self {
        TreeError::Memory
    }
}

/// A file system with the three roots.
///
/// A tree may tell its story: the disk that it began with, and each step since. Where it tells
/// one, its answers are those of the disk, and the conditions below are asked of the caller.
/// Where it tells none, a call that can't be done fails and is counted.
pub trait Tree {
    /// That the trees of this type tell their story.
    ghost tells: { Type 0 };

    /// The disk at the start, and the steps since.
    ghost story: { Self → Story };

    /// How often the tree has failed.
    ghost faults: { Self → ℕ };

    /// Forgets what earlier calls showed of the disk, which others may have changed since. It is
    /// no call to the file system, and never fails.
    fn forget(&mut self)
        ensures same { tells → story self.new ≡ story self.old }
        ensures count { faults self.new ≡ faults self.old }
    {}

    /// What stands at a place.
    fn kind(&mut self, at: &Place) -> Result<Kind, TreeError>
        ensures answer { tells →
            IfOk result (λ k. k ≡ kind_of (disk_of (story self.old)) (spot_of at.now)) }
        ensures same { tells → story self.new ≡ story self.old }
        ensures cause { HasCause Failed (faults self.old) (faults self.new) result };

    /// How many bytes the file at a place has.
    fn size(&mut self, at: &Place) -> Result<u64, TreeError>
        requires { tells → IsFile (disk_of (story self.old)) (spot_of at.now) }
        ensures answer { tells →
            IfOk result (λ n. n ≡ length (bytes_at (disk_of (story self.old)) (spot_of at.now))) }
        ensures same { tells → story self.new ≡ story self.old }
        ensures cause { HasCause Failed (faults self.old) (faults self.new) result };

    /// At most `most` bytes of the file at a place, from a position; none where that is at the
    /// end of the file or past it, and only there.
    fn read_part(&mut self, at: &Place, from: u64, most: u32) -> Result<Vec<u8>, TreeError>
        requires file { tells → IsFile (disk_of (story self.old)) (spot_of at.now) }
        requires some { tells → 0 < most }
        ensures answer { tells →
            IfOk result (λ part.
            IsPart (bytes_at (disk_of (story self.old)) (spot_of at.now)) from most part.items) }
        ensures same { tells → story self.new ≡ story self.old }
        ensures cause { HasCause Failed (faults self.old) (faults self.new) result };

    /// All entries of a folder, in byte order of their names.
    fn list(&mut self, folder: &Place) -> Result<Vec<Entry>, TreeError>
        requires { tells → IsFolder (disk_of (story self.old)) (spot_of folder.now) }
        ensures answer { tells →
            IfOk result (λ entries.
            IsListing (disk_of (story self.old)) (spot_of folder.now) entries.items) }
        ensures same { tells → story self.new ≡ story self.old }
        ensures cause { HasCause Failed (faults self.old) (faults self.new) result };

    /// Whether two places name one file.
    fn same(&mut self, a: &Place, b: &Place) -> Result<bool, TreeError>
        requires first { tells → IsFile (disk_of (story self.old)) (spot_of a.now) }
        requires second { tells → IsFile (disk_of (story self.old)) (spot_of b.now) }
        ensures answer { tells →
            let values = (disk_of (story self.old)).now in
            IfOk result (λ one. one ≡ is_one_file (values (spot_of a.now)) (values (spot_of b.now))) }
        ensures same { tells → story self.new ≡ story self.old }
        ensures cause { HasCause Failed (faults self.old) (faults self.new) result };

    /// Makes `to` a second name of the file `from`.
    fn link(&mut self, from: &Place, to: &Place) -> Result<(), TreeError>
        requires { tells →
            CanLink (disk_of (story self.old)) (spot_of from.now) (spot_of to.now) }
        ensures adds { tells →
            AddsOne (Link from.now to.now) (story self.old) (story self.new) result }
        ensures cause { HasCause Failed (faults self.old) (faults self.new) result };

    /// Takes its name from the file at a place.
    fn unlink(&mut self, at: &Place) -> Result<(), TreeError>
        requires { tells → CanUnlink (disk_of (story self.old)) (spot_of at.now) }
        ensures adds { tells → AddsOne (Unlink at.now) (story self.old) (story self.new) result }
        ensures cause { HasCause Failed (faults self.old) (faults self.new) result };

    /// Gives the file `from` the name `to`, in place of what had it. Nothing happens where both
    /// name one file.
    fn rename(&mut self, from: &Place, to: &Place) -> Result<(), TreeError>
        requires { tells →
            CanRename (disk_of (story self.old)) (spot_of from.now) (spot_of to.now) }
        ensures adds { tells →
            AddsOne (Rename from.now to.now) (story self.old) (story self.new) result }
        ensures cause { HasCause Failed (faults self.old) (faults self.new) result };

    /// Makes a file with these bytes. After an error it may be there with a first part of them.
    fn put_new(&mut self, at: &Place, bytes: &[u8]) -> Result<(), TreeError>
        requires { tells → CanPut (disk_of (story self.old)) (spot_of at.now) }
        ensures adds { tells →
            AddsNew at.now bytes.now (story self.old) (story self.new) result }
        ensures cause { HasCause Failed (faults self.old) (faults self.new) result };

    /// Makes a folder.
    fn make_folder(&mut self, at: &Place) -> Result<(), TreeError>
        requires { tells → CanMakeFolder (disk_of (story self.old)) (spot_of at.now) }
        ensures adds { tells →
            AddsOne (MakeFolder at.now) (story self.old) (story self.new) result }
        ensures cause { HasCause Failed (faults self.old) (faults self.new) result };

    /// Removes a folder other than a root, with no entry now and none that a stop may bring back.
    fn remove_folder(&mut self, at: &Place) -> Result<(), TreeError>
        requires { tells → CanRemoveFolder (disk_of (story self.old)) (spot_of at.now) }
        ensures adds { tells →
            AddsOne (RemoveFolder at.now) (story self.old) (story self.new) result }
        ensures cause { HasCause Failed (faults self.old) (faults self.new) result };

    /// Settles the entries of a folder: a stop leaves each as it is now.
    fn sync_folder(&mut self, at: &Place) -> Result<(), TreeError>
        requires { tells → IsFolder (disk_of (story self.old)) (spot_of at.now) }
        ensures adds { tells →
            AddsOne (SyncFolder at.now) (story self.old) (story self.new) result }
        ensures cause { HasCause Failed (faults self.old) (faults self.new) result };

    /// Makes the file at a place firm: a stop leaves its bytes as they are.
    fn sync_file(&mut self, at: &Place) -> Result<(), TreeError>
        requires { tells → IsFile (disk_of (story self.old)) (spot_of at.now) }
        ensures adds { tells → AddsOne (SyncFile at.now) (story self.old) (story self.new) result }
        ensures cause { HasCause Failed (faults self.old) (faults self.new) result };

    /// The disk of a told story is one that the model allows.
    ghost valid: { (tree : Self) → tells → IsValid (disk_of (story tree)) };
}
