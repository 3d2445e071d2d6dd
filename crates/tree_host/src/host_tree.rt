// The real disk as a tree, which counts what fails.
ghost use Rattle.std.specs.Prelude.{◌≡◌, true, [], IfOk, IfErr};
ghost use Rattle.std.specs.IoError.{error_kind};
ghost use Rattle.tree_fs.specs.Disk.{none};
ghost use Rattle.fault_count.specs.Causes.{HasCause};
ghost use Rattle.tree_host.specs.Looks.{error_of};

use crate::real_disk::RealDisk;
use fault_count::FaultCount;
use std::alloc::{AllocError, Global};
use std::io;
use std::io::ErrorKind;
use std::rt::Files;
use tree_fs::{Entry, Kind, Place, Tree, TreeError};

/// The folders `stage`, `game` and `keep` below a base folder of the real disk.
///
/// The first call of the tree makes those of the three that are missing. Each of them may be a
/// symbolic link to a folder, but none may be another one, or lie in it: then each call is
/// `Failed`. What lies above a folder that the system lets nobody look at is not compared. A
/// symbolic link anywhere else is `Other`, and what lies below it is absent.
///
/// The tree remembers which folders are real, what the last two looks told, and how far it filled the
/// folders that it made: others must not change the roots between two calls without a `forget`. It
/// tells no story. Its count of faults rises with each error of the system but want of memory, and
/// but for those by which `kind` knows that nothing is there.
#[derive(Drop)]
pub struct HostTree<R: Files + Clone + Drop> {
    disk: RealDisk<R>,
    pub(crate) faults: FaultCount,
}

impl<R: Files + Clone + Drop> HostTree<R> {
    /// The tree below the folder `base`, the current folder where `base` is empty. Touches no
    /// file. The error is want of memory alone.
    pub fn open(rt: R, alloc: Global, base: &str) -> Result<HostTree<R>, AllocError>
        ensures { IfOk result (λ tree. tree.faults ≡ 0) }
    {
        Ok(HostTree {
            disk: RealDisk::new(rt, alloc, base)?,
            faults: FaultCount::new(),
        })
    }
}

// The answer of a call from what the system answered.
fn counted<T: Drop>(faults: &mut FaultCount, outcome: io::Result<T>) -> Result<T, TreeError>
    ensures ok { IfOk outcome (λ value. result ≡ Ok value) }
    ensures err { IfErr outcome (λ e. result ≡ Err (error_of (error_kind e))) }
    ensures cause { HasCause TreeError.Failed faults.old faults.new result }
{
    match outcome {
        Ok(value) => Ok(value),
        Err(e) => match error_of(e.kind()) {
            TreeError::Failed => {
                faults.raise();
                Err(TreeError::Failed)
            }
            TreeError::Memory => Err(TreeError::Memory),
        },
    }
}

fn error_of(kind: ErrorKind) -> TreeError
    ensures { result ≡ error_of kind }
{
    match kind {
        ErrorKind::OutOfMemory => TreeError::Memory,
        _ => TreeError::Failed,
    }
}

impl<R: Files + Clone + Drop> Tree for HostTree<R> {
    ghost tells = { ⊥ };

    ghost story = { λ _. record { start = record { folders = λ _. true; now = λ _. none; before = λ _. []; bytes = λ _. []; firm = λ _. true; fresh = 0 }; ops = [] } };

    ghost faults = { λ tree. tree.faults };

    fn forget(&mut self) {
        self.disk.forget();
    }

    fn kind(&mut self, at: &Place) -> Result<Kind, TreeError> {
        let outcome = self.disk.kind(at);
        counted(&mut self.faults, outcome)
    }

    fn size(&mut self, at: &Place) -> Result<u64, TreeError> {
        let outcome = self.disk.size(at);
        counted(&mut self.faults, outcome)
    }

    fn read_part(&mut self, at: &Place, from: u64, most: u32) -> Result<Vec<u8>, TreeError> {
        let outcome = self.disk.read_part(at, from, most);
        counted(&mut self.faults, outcome)
    }

    fn list(&mut self, folder: &Place) -> Result<Vec<Entry>, TreeError> {
        let outcome = self.disk.list(folder);
        counted(&mut self.faults, outcome)
    }

    fn same(&mut self, a: &Place, b: &Place) -> Result<bool, TreeError> {
        let outcome = self.disk.same(a, b);
        counted(&mut self.faults, outcome)
    }

    fn link(&mut self, from: &Place, to: &Place) -> Result<(), TreeError> {
        let outcome = self.disk.link(from, to);
        counted(&mut self.faults, outcome)
    }

    fn unlink(&mut self, at: &Place) -> Result<(), TreeError> {
        let outcome = self.disk.unlink(at);
        counted(&mut self.faults, outcome)
    }

    fn rename(&mut self, from: &Place, to: &Place) -> Result<(), TreeError> {
        let outcome = self.disk.rename(from, to);
        counted(&mut self.faults, outcome)
    }

    fn put_new(&mut self, at: &Place, bytes: &[u8]) -> Result<(), TreeError> {
        let outcome = self.disk.put_new(at, bytes);
        counted(&mut self.faults, outcome)
    }

    fn make_folder(&mut self, at: &Place) -> Result<(), TreeError> {
        let outcome = self.disk.make_folder(at);
        counted(&mut self.faults, outcome)
    }

    fn remove_folder(&mut self, at: &Place) -> Result<(), TreeError> {
        let outcome = self.disk.remove_folder(at);
        counted(&mut self.faults, outcome)
    }

    fn sync_folder(&mut self, at: &Place) -> Result<(), TreeError> {
        let outcome = self.disk.sync_folder(at);
        counted(&mut self.faults, outcome)
    }

    fn sync_file(&mut self, at: &Place) -> Result<(), TreeError> {
        let outcome = self.disk.sync_file(at);
        counted(&mut self.faults, outcome)
    }

    ghost valid = { λ _ told. absurd told };
}
