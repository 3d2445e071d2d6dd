// A disk, as ordered maps and lists.
ghost use Rattle.std.specs.Prelude.{◌≡◌, ◌≢◌, [], false, Some, None, OnOk, OnErr, IfOk};
ghost use Rattle.tree_fs.specs.Spot.{spot_of};
ghost use Rattle.tree_fs.specs.Disk.{kind_of, IsFile, file};
ghost use Rattle.tree_fs.specs.Calls.{CanPut};
ghost use Rattle.tree_fs.specs.Listing.{IsListing};
ghost use Rattle.tree_mem.specs.Disks.{disk_in, item_of, folders_of, ItemSet, SameParts};
ghost use Rattle.tree_mem.specs.Changed.{empty_disk, with_file, with_link, with_folder};

use crate::entries::Item;
use crate::file::MemFile;
use crate::folders::{Folders, copy_folders, item_at, put_item, remove_item};
use crate::text::folder_text;
use std::alloc::{AllocError, Global};
use std::collections::BTreeMap;
use tree_fs::{Entry, Kind, Place, Root};

/// A disk: what lies at each place, the files, and what is pending.
#[derive(Drop)]
pub(crate) struct MemDisk {
    pub(crate) stage: Folders,
    pub(crate) game: Folders,
    pub(crate) keep: Folders,
    /// The file with number n is at index n.
    pub(crate) files: Vec<MemFile>,
    /// What places held before, since their folders were last synced, the newest at the end.
    pub(crate) pending: Vec<Past>,
}

/// What a place held.
#[derive(Drop)]
pub(crate) struct Past {
    pub(crate) at: Place,
    pub(crate) item: Option<Item>,
}

impl Clone for Past {
    ghost is_clone = { λ a b. b ≡ a };

    fn clone(&self) -> Result<Past, AllocError> {
        Ok(Past {
            at: self.at.copy()?,
            item: self.item,
        })
    }
}

impl MemDisk {
    /// The three roots, empty.
    pub(crate) fn new(alloc: Global) -> MemDisk
        ensures { disk_in result ≡ empty_disk }
    {
        MemDisk {
            stage: BTreeMap::new(alloc),
            game: BTreeMap::new(alloc),
            keep: BTreeMap::new(alloc),
            files: Vec::new(alloc),
            pending: Vec::new(alloc),
        }
    }

    fn folders(&self, root: Root) -> &Folders
        ensures { result.now ≡ folders_of self.now root }
    {
        match root {
            Root::Stage => &self.stage,
            Root::Game => &self.game,
            Root::Keep => &self.keep,
        }
    }

    /// What lies at a place.
    pub(crate) fn item(&self, at: &Place) -> Option<Item>
        ensures { result ≡ item_of self.now (spot_of at.now) }
    {
        match &at.rel {
            Some(path) => item_at(self.folders(at.root), path.text()),
            None => Some(Item::Folder),
        }
    }

    /// What stands at a place.
    pub(crate) fn kind(&self, at: &Place) -> Kind
        ensures { result ≡ kind_of (disk_in self.now) (spot_of at.now) }
    {
        match self.item(at) {
            Some(Item::Folder) => Kind::Folder,
            Some(Item::File(_)) => Kind::File,
            None => Kind::Absent,
        }
    }

    /// Puts an item at a place, settled.
    pub(crate) fn set_item(
        &mut self,
        alloc: Global,
        at: &Place,
        item: Item,
    ) -> Result<(), AllocError>
        requires { (disk_in self.old).folders (spot_of at.now) ≡ false }
        ensures ok { OnOk result (ItemSet self.old self.new (spot_of at.now) (Some item)) }
        ensures err { OnErr result (SameParts self.old self.new) }
    {
        let Some(path) = &at.rel else { unreachable!() };
        match at.root {
            Root::Stage => put_item(alloc, &mut self.stage, path.text(), item),
            Root::Game => put_item(alloc, &mut self.game, path.text(), item),
            Root::Keep => put_item(alloc, &mut self.keep, path.text(), item),
        }
    }

    /// Takes away what lies at a place other than a root, settled.
    pub(crate) fn remove_item(&mut self, at: &Place)
        requires { (spot_of at.now).names ≢ [] }
        ensures { ItemSet self.old self.new (spot_of at.now) None }
    {
        let Some(path) = &at.rel else { unreachable!() };
        match at.root {
            Root::Stage => remove_item(&mut self.stage, path.text()),
            Root::Game => remove_item(&mut self.game, path.text()),
            Root::Keep => remove_item(&mut self.keep, path.text()),
        }
    }

    /// Puts a new file there, settled and firm.
    pub(crate) fn add_file(
        &mut self,
        alloc: Global,
        at: &Place,
        bytes: &[u8],
    ) -> Result<(), AllocError>
        requires { CanPut (disk_in self.old) (spot_of at.now) }
        ensures ok { OnOk result (disk_in self.new ≡ with_file (disk_in self.old) (spot_of at.now) bytes.now) }
        ensures err { OnErr result (disk_in self.new ≡ disk_in self.old) }
    {
        let number = self.files.len() as u64;
        self.files.push(MemFile::firm(alloc, bytes)?)?;
        if self.set_item(alloc, at, Item::File(number)).is_err() {
            self.files.pop();
            return Err(AllocError);
        }
        Ok(())
    }

    /// The number of the file at a place.
    pub(crate) fn file(&self, at: &Place) -> u64
        requires { IsFile (disk_in self.now) (spot_of at.now) }
        ensures { (disk_in self.now).now (spot_of at.now) ≡ file result }
    {
        match self.item(at) {
            Some(Item::File(number)) => number,
            _ => unreachable!(),
        }
    }

    /// Puts a second name of a file there, settled.
    pub(crate) fn add_link(
        &mut self,
        alloc: Global,
        from: &Place,
        to: &Place,
    ) -> Result<(), AllocError>
        requires source { IsFile (disk_in self.old) (spot_of from.now) }
        requires target { CanPut (disk_in self.old) (spot_of to.now) }
        ensures ok { let d = disk_in self.old in
            OnOk result (disk_in self.new ≡ with_link d (spot_of from.now) (spot_of to.now)) }
        ensures err { OnErr result (disk_in self.new ≡ disk_in self.old) }
    {
        let number = self.file(from);
        self.set_item(alloc, to, Item::File(number))
    }

    /// Puts a folder there.
    pub(crate) fn add_folder(&mut self, alloc: Global, at: &Place) -> Result<(), AllocError>
        requires { CanPut (disk_in self.old) (spot_of at.now) }
        ensures ok { OnOk result (disk_in self.new ≡ with_folder (disk_in self.old) (spot_of at.now)) }
        ensures err { OnErr result (disk_in self.new ≡ disk_in self.old) }
    {
        self.set_item(alloc, at, Item::Folder)
    }

    /// The entries of a folder, in the order of their names.
    pub(crate) fn list(&self, alloc: Global, folder: &Place) -> Result<Vec<Entry>, AllocError>
        ensures { let d = disk_in self.now in
            IfOk result (λ listed. IsListing d (spot_of folder.now) listed.items) }
    {
        match self.folders(folder.root).get(folder_text(folder)) {
            Some(entries) => entries.list(alloc),
            None => Ok(Vec::new(alloc)),
        }
    }

    /// The same disk.
    pub(crate) fn copy(&self) -> Result<MemDisk, AllocError>
        ensures { IfOk result (λ copy. disk_in copy ≡ disk_in self.now) }
    {
        Ok(MemDisk {
            stage: copy_folders(&self.stage)?,
            game: copy_folders(&self.game)?,
            keep: copy_folders(&self.keep)?,
            files: self.files.clone()?,
            pending: self.pending.clone()?,
        })
    }
}
