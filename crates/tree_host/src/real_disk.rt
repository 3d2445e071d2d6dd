// The calls of the system behind the tree's.
ghost use Rattle.std.specs.Prelude.{◌≡◌, ◌++◌, ◌∷◌, IfOk};
ghost use Rattle.std.specs.String.{string_bytes};
ghost use Rattle.tree_fs.specs.Texts.{place_text, root_word};

mod changes;
mod folders;
mod reads;
mod roots;

use crate::folder_set::FolderSet;
use crate::looks::Looks;
use crate::new_folders::NewFolders;
use crate::reading::Reading;
use std::alloc::{AllocError, Global};
use std::collections::BTreeSet;
use std::io;
use std::rt::Files;
use tree_fs::{Place, Root};

/// The three roots on the real disk. An error of the system is the answer of the call that met it.
///
/// Each call looks at the folders above its places first, so none goes through a link.
#[derive(Drop)]
pub(crate) struct RealDisk<R: Files + Clone + Drop> {
    // The allocator stands beside the runtime as reading a folder wants them in one value.
    rt: (R, Global),
    base: String,
    // The roots are there, and lie apart.
    has_roots: bool,
    // The base was synced, and no root was made since.
    has_settled_base: bool,
    // Folders below the roots, no links, as each folder above them up to the root.
    real: FolderSet,
    // Paths below the roots at which no folder was found since the last change.
    missing: FolderSet,
    // Folders that were made, and all that is in them.
    made: NewFolders,
    // Folders that were synced, and nothing in them was changed since, but that folders went.
    settled: FolderSet,
    // Folders in which one was made or removed, to be synced before a file gets or loses a name.
    late: BTreeSet<String>,
    looks: Looks,
    // The file that the last call read a part of.
    reading: Option<Reading<R::File>>,
}

impl<R: Files + Clone + Drop> RealDisk<R> {
    pub(crate) fn new(rt: R, alloc: Global, base: &str) -> Result<RealDisk<R>, AllocError> {
        let base = if base.is_empty() { "." } else { base };
        Ok(RealDisk {
            rt: (rt, alloc),
            base: String::from_str(alloc, base)?,
            has_roots: false,
            has_settled_base: false,
            real: FolderSet::new(alloc),
            missing: FolderSet::new(alloc),
            made: NewFolders::new(alloc),
            settled: FolderSet::new(alloc),
            late: BTreeSet::new(alloc),
            looks: Looks::new(),
            reading: None,
        })
    }

    /// Lets go of all that others may change between two commands.
    pub(crate) fn forget(&mut self) {
        self.has_roots = false;
        self.real.clear();
        self.missing.clear();
        self.made.clear();
        self.settled.clear();
        self.looks.clear();
        self.reading = None;
    }

    // What every call but a read does first.
    fn begin(&mut self) -> io::Result<()> {
        self.reading = None;
        self.need_roots()
    }

    // What every call that changes something does first. The base is synced once: an earlier run
    // may have made a root, and not come to sync it.
    fn begin_change(&mut self) -> io::Result<()> {
        self.begin()?;
        self.looks.clear();
        self.missing.clear();
        self.settle_base()
    }

    fn path_of(&self, at: &Place) -> Result<String, AllocError>
        ensures { IfOk result (λ path. string_bytes path
            ≡ string_bytes self.now.base ++ 47 ∷ place_text at.now) }
    {
        let root = self.root_path(at.root)?;
        match &at.rel {
            None => Ok(root),
            Some(rel) => joined(root, rel.text()),
        }
    }

    fn root_path(&self, root: Root) -> Result<String, AllocError>
        ensures { IfOk result (λ path. string_bytes path
            ≡ string_bytes self.now.base ++ 47 ∷ root_word root) }
    {
        joined(self.base.clone()?, root.word())
    }
}

fn joined(mut folder: String, rel: &str) -> Result<String, AllocError>
    ensures { IfOk result (λ path. string_bytes path ≡ string_bytes folder ++ 47 ∷ rel.now) }
{
    folder.push('/')?;
    folder.push_str(rel)?;
    Ok(folder)
}

// The path above, up to the last slash.
fn parent(path: &str) -> &str {
    match path.rsplit_once('/') {
        Some((above, _)) => above,
        None => "",
    }
}
