// The calls of the trait.
ghost use Rattle.std.specs.Prelude.{◌≡◌, ◌<◌, length, IfOk};
ghost use Rattle.std.proofs.Common.{subst};
ghost use Rattle.fault_count.specs.Causes.{HasCause};
ghost use Rattle.tree_fs.specs.declared.tree.TreeError.TheVariants.{Failed};
ghost use Rattle.tree_fs.specs.declared.op.Op.TheVariants.{Link, Unlink, Rename, MakeFolder, RemoveFolder, SyncFolder, SyncFile};
ghost use Rattle.tree_fs.specs.Calls.{AddsOne, AddsNew, IsFolder, CanLink, CanUnlink, CanRename, CanPut, CanMakeFolder, CanRemoveFolder};
ghost use Rattle.tree_fs.specs.Disk.{IsFile, IsValid, kind_of, is_one_file};
ghost use Rattle.tree_fs.specs.Listing.{IsListing};
ghost use Rattle.tree_fs.specs.Parts.{IsPart, bytes_at};
ghost use Rattle.tree_fs.specs.Spot.{spot_of};
ghost use Rattle.tree_fs.specs.Story.{disk_of};
ghost use Rattle.tree_mem.specs.Failing.{FailsAsPlanned, StepFails, NewFails};
ghost use Rattle.tree_mem.specs.MemStory.{mem_story, faults_of};

use crate::mem_tree::MemTree;
use tree_fs::{Entry, Kind, Op, Place, Tree, TreeError};

impl Tree for MemTree {
    ghost tells = { Unit {0} };

    ghost story = { mem_story };

    ghost faults = { faults_of };

    ghost valid = { λ m told. subst IsValid m.tells m.valid };

    fn kind(&mut self, at: &Place) -> Result<Kind, TreeError>
        ensures answer { IfOk result (λ k. k ≡ kind_of (disk_of (mem_story self.old)) (spot_of at.now)) }
        ensures same { mem_story self.new ≡ mem_story self.old }
        ensures cause { HasCause Failed (faults_of self.old) (faults_of self.new) result }
        ensures planned { FailsAsPlanned self.old self.new result }
    {
        let failure = self.next_failure();
        self.answer(failure)?;
        Ok(self.disk.kind(at))
    }

    fn size(&mut self, at: &Place) -> Result<u64, TreeError>
        requires { IsFile (disk_of (mem_story self.old)) (spot_of at.now) }
        ensures answer { let bytes = bytes_at (disk_of (mem_story self.old)) (spot_of at.now) in
            IfOk result (λ n. n ≡ length bytes) }
        ensures same { mem_story self.new ≡ mem_story self.old }
        ensures cause { HasCause Failed (faults_of self.old) (faults_of self.new) result }
        ensures planned { FailsAsPlanned self.old self.new result }
    {
        let failure = self.next_failure();
        self.answer(failure)?;
        Ok(self.disk.bytes(at).len() as u64)
    }

    fn read_part(&mut self, at: &Place, from: u64, most: u32) -> Result<Vec<u8>, TreeError>
        requires file { IsFile (disk_of (mem_story self.old)) (spot_of at.now) }
        requires some { 0 < most }
        ensures answer { let bytes = bytes_at (disk_of (mem_story self.old)) (spot_of at.now) in
            IfOk result (λ part. IsPart bytes from most part.items) }
        ensures same { mem_story self.new ≡ mem_story self.old }
        ensures cause { HasCause Failed (faults_of self.old) (faults_of self.new) result }
        ensures planned { FailsAsPlanned self.old self.new result }
    {
        let failure = self.next_failure();
        self.answer(failure)?;
        let bytes = self.disk.bytes(at);
        let start = bytes.len().min(from as usize);
        let len = (bytes.len() - start).min(most as usize);
        Ok(Vec::from_clones(self.alloc, &bytes[start..start + len])?)
    }

    fn list(&mut self, folder: &Place) -> Result<Vec<Entry>, TreeError>
        requires { IsFolder (disk_of (mem_story self.old)) (spot_of folder.now) }
        ensures answer { let d = disk_of (mem_story self.old) in
            IfOk result (λ entries. IsListing d (spot_of folder.now) entries.items) }
        ensures same { mem_story self.new ≡ mem_story self.old }
        ensures cause { HasCause Failed (faults_of self.old) (faults_of self.new) result }
        ensures planned { FailsAsPlanned self.old self.new result }
    {
        let failure = self.next_failure();
        self.answer(failure)?;
        Ok(self.disk.list(self.alloc, folder)?)
    }

    fn same(&mut self, a: &Place, b: &Place) -> Result<bool, TreeError>
        requires first { IsFile (disk_of (mem_story self.old)) (spot_of a.now) }
        requires second { IsFile (disk_of (mem_story self.old)) (spot_of b.now) }
        ensures answer { let values = (disk_of (mem_story self.old)).now in
            IfOk result (λ one. one ≡ is_one_file (values (spot_of a.now)) (values (spot_of b.now))) }
        ensures same { mem_story self.new ≡ mem_story self.old }
        ensures cause { HasCause Failed (faults_of self.old) (faults_of self.new) result }
        ensures planned { FailsAsPlanned self.old self.new result }
    {
        let failure = self.next_failure();
        self.answer(failure)?;
        Ok(self.disk.same(a, b))
    }

    fn link(&mut self, from: &Place, to: &Place) -> Result<(), TreeError>
        requires { CanLink (disk_of (mem_story self.old)) (spot_of from.now) (spot_of to.now) }
        ensures adds { AddsOne (Link from.now to.now) (mem_story self.old) (mem_story self.new) result }
        ensures cause { HasCause Failed (faults_of self.old) (faults_of self.new) result }
        ensures planned { StepFails (Link from.now to.now) self.old self.new result }
    {
        let failure = self.next_failure();
        let op = Op::Link {
            from: from.copy()?,
            to: to.copy()?,
            done: failure.unwrap_or(true),
        };
        self.step(op)?;
        self.answer(failure)
    }

    fn unlink(&mut self, at: &Place) -> Result<(), TreeError>
        requires { CanUnlink (disk_of (mem_story self.old)) (spot_of at.now) }
        ensures adds { AddsOne (Unlink at.now) (mem_story self.old) (mem_story self.new) result }
        ensures cause { HasCause Failed (faults_of self.old) (faults_of self.new) result }
        ensures planned { StepFails (Unlink at.now) self.old self.new result }
    {
        let failure = self.next_failure();
        let op = Op::Unlink {
            at: at.copy()?,
            done: failure.unwrap_or(true),
        };
        self.step(op)?;
        self.answer(failure)
    }

    fn rename(&mut self, from: &Place, to: &Place) -> Result<(), TreeError>
        requires { CanRename (disk_of (mem_story self.old)) (spot_of from.now) (spot_of to.now) }
        ensures adds { AddsOne (Rename from.now to.now) (mem_story self.old) (mem_story self.new) result }
        ensures cause { HasCause Failed (faults_of self.old) (faults_of self.new) result }
        ensures planned { StepFails (Rename from.now to.now) self.old self.new result }
    {
        let failure = self.next_failure();
        let op = Op::Rename {
            from: from.copy()?,
            to: to.copy()?,
            done: failure.unwrap_or(true),
        };
        self.step(op)?;
        self.answer(failure)
    }

    fn put_new(&mut self, at: &Place, bytes: &[u8]) -> Result<(), TreeError>
        requires { CanPut (disk_of (mem_story self.old)) (spot_of at.now) }
        ensures adds { AddsNew at.now bytes.now (mem_story self.old) (mem_story self.new) result }
        ensures cause { HasCause Failed (faults_of self.old) (faults_of self.new) result }
        ensures planned { NewFails at.now bytes.now self.old self.new result }
    {
        let failure = self.next_failure();
        if !failure.unwrap_or(true) {
            return self.answer(failure);
        }
        self.put_file(at, bytes)?;
        self.answer(failure)
    }

    fn make_folder(&mut self, at: &Place) -> Result<(), TreeError>
        requires { CanMakeFolder (disk_of (mem_story self.old)) (spot_of at.now) }
        ensures adds { AddsOne (MakeFolder at.now) (mem_story self.old) (mem_story self.new) result }
        ensures cause { HasCause Failed (faults_of self.old) (faults_of self.new) result }
        ensures planned { StepFails (MakeFolder at.now) self.old self.new result }
    {
        let failure = self.next_failure();
        let op = Op::MakeFolder {
            at: at.copy()?,
            done: failure.unwrap_or(true),
        };
        self.step(op)?;
        self.answer(failure)
    }

    fn remove_folder(&mut self, at: &Place) -> Result<(), TreeError>
        requires { CanRemoveFolder (disk_of (mem_story self.old)) (spot_of at.now) }
        ensures adds { AddsOne (RemoveFolder at.now) (mem_story self.old) (mem_story self.new) result }
        ensures cause { HasCause Failed (faults_of self.old) (faults_of self.new) result }
        ensures planned { StepFails (RemoveFolder at.now) self.old self.new result }
    {
        let failure = self.next_failure();
        let op = Op::RemoveFolder {
            at: at.copy()?,
            done: failure.unwrap_or(true),
        };
        self.step(op)?;
        self.answer(failure)
    }

    fn sync_folder(&mut self, at: &Place) -> Result<(), TreeError>
        requires { IsFolder (disk_of (mem_story self.old)) (spot_of at.now) }
        ensures adds { AddsOne (SyncFolder at.now) (mem_story self.old) (mem_story self.new) result }
        ensures cause { HasCause Failed (faults_of self.old) (faults_of self.new) result }
        ensures planned { StepFails (SyncFolder at.now) self.old self.new result }
    {
        let failure = self.next_failure();
        let op = Op::SyncFolder {
            at: at.copy()?,
            done: failure.unwrap_or(true),
        };
        self.step(op)?;
        self.answer(failure)
    }

    fn sync_file(&mut self, at: &Place) -> Result<(), TreeError>
        requires { IsFile (disk_of (mem_story self.old)) (spot_of at.now) }
        ensures adds { AddsOne (SyncFile at.now) (mem_story self.old) (mem_story self.new) result }
        ensures cause { HasCause Failed (faults_of self.old) (faults_of self.new) result }
        ensures planned { StepFails (SyncFile at.now) self.old self.new result }
    {
        let failure = self.next_failure();
        let op = Op::SyncFile {
            at: at.copy()?,
            done: failure.unwrap_or(true),
        };
        self.step(op)?;
        self.answer(failure)
    }
}
