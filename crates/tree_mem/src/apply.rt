// The steps on a disk.
ghost use Rattle.std.specs.Prelude.{◌≡◌, false, OnOk, OnErr, length};
ghost use Rattle.tree_fs.specs.Calls.{CanLink, CanPut, CanRename, CanRemoveFolder};
ghost use Rattle.tree_fs.specs.Disk.{IsFile, IsValid, after, file, none, put, created, renamed, filled, made_firm, synced, is_one_file};
ghost use Rattle.tree_fs.specs.Parts.{bytes_at};
ghost use Rattle.tree_fs.specs.Spot.{spot_of};
ghost use Rattle.tree_mem.specs.CanDo.{CanDo};
ghost use Rattle.tree_mem.specs.Changed.{without_folder};
ghost use Rattle.tree_mem.specs.Disks.{disk_in, SameParts};

use crate::disk::{MemDisk, Past};
use crate::entries::Item;
use crate::file::MemFile;
use crate::text::lies_in;
use std::alloc::{AllocError, Global};
use tree_fs::{Op, Place};

impl MemDisk {
    // Gives a place the file with this number. What it held is pending.
    fn put_file(&mut self, alloc: Global, at: &Place, number: u64) -> Result<(), AllocError>
        requires { (disk_in self.old).folders (spot_of at.now) ≡ false }
        ensures ok { OnOk result (disk_in self.new ≡ put (disk_in self.old) (spot_of at.now) (file number)) }
        ensures err { OnErr result (SameParts self.old self.new) }
    {
        let past = Past {
            at: at.copy()?,
            item: self.item(at),
        };
        self.pending.push(past)?;
        if self.set_item(alloc, at, Item::File(number)).is_err() {
            self.pending.pop();
            return Err(AllocError);
        }
        Ok(())
    }

    // Gives a place the file of another one.
    fn link(&mut self, alloc: Global, from: &Place, to: &Place) -> Result<(), AllocError>
        requires { CanLink (disk_in self.old) (spot_of from.now) (spot_of to.now) }
        ensures ok { let d = disk_in self.old in
            OnOk result (disk_in self.new ≡ put d (spot_of to.now) (d.now (spot_of from.now))) }
        ensures err { OnErr result (disk_in self.new ≡ disk_in self.old) }
    {
        let number = self.file(from);
        self.put_file(alloc, to, number)
    }

    // Settles the entries of a folder.
    fn sync(&mut self, folder: &Place)
        ensures { disk_in self.new ≡ synced (disk_in self.old) (spot_of folder.now) }
    {
        self.pending.retain(|past| !lies_in(&past.at, folder));
    }

    // Takes its name from the file at a place.
    fn unlink(&mut self, at: &Place) -> Result<(), AllocError>
        requires { IsFile (disk_in self.old) (spot_of at.now) }
        ensures ok { OnOk result (disk_in self.new ≡ put (disk_in self.old) (spot_of at.now) none) }
        ensures err { OnErr result (disk_in self.new ≡ disk_in self.old) }
    {
        let past = Past {
            at: at.copy()?,
            item: self.item(at),
        };
        self.pending.push(past)?;
        self.remove_item(at);
        Ok(())
    }

    /// Whether two places name one file.
    pub(crate) fn same(&self, a: &Place, b: &Place) -> bool
        ensures { let values = (disk_in self.now).now in
            result ≡ is_one_file (values (spot_of a.now)) (values (spot_of b.now)) }
    {
        match (self.item(a), self.item(b)) {
            (Some(Item::File(first)), Some(Item::File(second))) => first == second,
            _ => false,
        }
    }

    // Moves the file to another place, which doesn't name it yet.
    fn move_file(&mut self, alloc: Global, from: &Place, to: &Place) -> Result<(), AllocError>
        requires can { CanRename (disk_in self.old) (spot_of from.now) (spot_of to.now) }
        requires apart { let values = (disk_in self.old).now in
            is_one_file (values (spot_of from.now)) (values (spot_of to.now)) ≡ false }
        ensures ok { let d = disk_in self.old in
            OnOk result (disk_in self.new ≡ renamed d (spot_of from.now) (spot_of to.now)) }
        ensures err { OnErr result (disk_in self.new ≡ disk_in self.old) }
    {
        let number = self.file(from);
        let past = Past {
            at: from.copy()?,
            item: self.item(from),
        };
        self.pending.push(past)?;
        if self.put_file(alloc, to, number).is_err() {
            self.pending.pop();
            return Err(AllocError);
        }
        self.remove_item(from);
        Ok(())
    }

    fn rename(&mut self, alloc: Global, from: &Place, to: &Place) -> Result<(), AllocError>
        requires { CanRename (disk_in self.old) (spot_of from.now) (spot_of to.now) }
        ensures ok { let d = disk_in self.old in
            OnOk result (disk_in self.new ≡ renamed d (spot_of from.now) (spot_of to.now)) }
        ensures err { OnErr result (disk_in self.new ≡ disk_in self.old) }
    {
        if self.same(from, to) {
            return Ok(());
        }
        self.move_file(alloc, from, to)
    }

    // Puts a new file there, without bytes.
    fn create(&mut self, alloc: Global, at: &Place) -> Result<(), AllocError>
        requires { CanPut (disk_in self.old) (spot_of at.now) }
        ensures ok { OnOk result (disk_in self.new ≡ created (disk_in self.old) (spot_of at.now)) }
        ensures err { OnErr result (disk_in self.new ≡ disk_in self.old) }
    {
        let number = self.files.len() as u64;
        self.files.push(MemFile::empty(alloc))?;
        if self.put_file(alloc, at, number).is_err() {
            self.files.pop();
            return Err(AllocError);
        }
        Ok(())
    }

    /// The bytes of the file at a place.
    pub(crate) fn bytes(&self, at: &Place) -> &[u8]
        requires valid { IsValid (disk_in self.now) }
        requires file { IsFile (disk_in self.now) (spot_of at.now) }
        ensures { result.now ≡ bytes_at (disk_in self.now) (spot_of at.now) }
    {
        self.files[self.file(at) as usize].bytes()
    }

    // Gives the file at a place these bytes.
    fn fill(&mut self, alloc: Global, at: &Place, bytes: &[u8]) -> Result<(), AllocError>
        requires valid { IsValid (disk_in self.old) }
        requires file { IsFile (disk_in self.old) (spot_of at.now) }
        ensures ok { let d = disk_in self.old in
            OnOk result (disk_in self.new ≡ filled d (d.now (spot_of at.now)) bytes.now) }
        ensures err { OnErr result (disk_in self.new ≡ disk_in self.old) }
    {
        let bytes = Vec::from_clones(alloc, bytes)?;
        let number = self.file(at);
        let file = &mut self.files[number as usize];
        file.fill(bytes);
        Ok(())
    }

    // Makes the bytes of the file at a place stay.
    fn sync_file(&mut self, at: &Place)
        requires valid { IsValid (disk_in self.old) }
        requires file { IsFile (disk_in self.old) (spot_of at.now) }
        ensures { let d = disk_in self.old in
            disk_in self.new ≡ made_firm d (d.now (spot_of at.now)) }
    {
        let number = self.file(at);
        let file = &mut self.files[number as usize];
        file.make_firm();
    }

    /// Takes away a folder.
    pub(crate) fn remove_folder(&mut self, at: &Place)
        requires { CanRemoveFolder (disk_in self.old) (spot_of at.now) }
        ensures { disk_in self.new ≡ without_folder (disk_in self.old) (spot_of at.now) }
    {
        self.remove_item(at);
    }

    /// Does a step. After an error the disk is as before.
    pub(crate) fn apply(&mut self, alloc: Global, op: &Op) -> Result<(), AllocError>
        requires valid { IsValid (disk_in self.old) }
        requires can { CanDo (disk_in self.old) op.now }
        ensures ok { OnOk result (disk_in self.new ≡ after (disk_in self.old) op.now) }
        ensures err { OnErr result (disk_in self.new ≡ disk_in self.old) }
    {
        match op {
            Op::Link {
                from,
                to,
                done: true,
            } => self.link(alloc, from, to),
            Op::Unlink { at, done: true } => self.unlink(at),
            Op::Rename {
                from,
                to,
                done: true,
            } => self.rename(alloc, from, to),
            Op::Create { at, done: true } => self.create(alloc, at),
            Op::Fill {
                at,
                bytes,
                done: true,
            } => self.fill(alloc, at, bytes.as_slice()),
            Op::MakeFolder { at, done: true } => self.add_folder(alloc, at),
            Op::RemoveFolder { at, done: true } => {
                self.remove_folder(at);
                Ok(())
            }
            Op::SyncFolder { at, done: true } => {
                self.sync(at);
                Ok(())
            }
            Op::SyncFile { at, done: true } => {
                self.sync_file(at);
                Ok(())
            }
            _ => Ok(()),
        }
    }
}
