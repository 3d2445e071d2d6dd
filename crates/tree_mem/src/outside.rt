// Changes by others.
ghost use Rattle.std.specs.Prelude.{◌≡◌, OnOk, OnErr};
ghost use Rattle.tree_fs.specs.Disk.{IsFile, IsValid};
ghost use Rattle.tree_fs.specs.Spot.{spot_of};
ghost use Rattle.tree_fs.specs.Story.{disk_of};
ghost use Rattle.tree_mem.specs.Changed.{edited, settled_at, without_file};
ghost use Rattle.tree_mem.specs.Disks.{disk_in};
ghost use Rattle.tree_mem.specs.MemStory.{mem_story, Begins, faults_of, KeepsPlan};
ghost use Rattle.tree_mem.specs.Outside.{CanChange, changed_by};

use crate::disk::MemDisk;
use crate::mem_tree::MemTree;
use crate::outside_step::OutsideStep;
use crate::text::is_one_place;
use std::alloc::{AllocError, Global};
use tree_fs::Place;

impl MemDisk {
    /// What a place holds now it holds after a stop too.
    pub(crate) fn settle(&mut self, at: &Place)
        ensures { disk_in self.new ≡ settled_at (disk_in self.old) (spot_of at.now) }
    {
        self.pending.retain(|past| !is_one_place(&past.at, at));
    }

    // Gives the file at a place other bytes, which stay.
    fn edit(&mut self, alloc: Global, at: &Place, bytes: &[u8]) -> Result<(), AllocError>
        requires valid { IsValid (disk_in self.old) }
        requires file { IsFile (disk_in self.old) (spot_of at.now) }
        ensures ok { let d = disk_in self.old in
            OnOk result (disk_in self.new ≡ edited d (d.now (spot_of at.now)) bytes.now) }
        ensures err { OnErr result (disk_in self.new ≡ disk_in self.old) }
    {
        let bytes = Vec::from_clones(alloc, bytes)?;
        let number = self.file(at);
        let file = &mut self.files[number as usize];
        file.edit(bytes);
        Ok(())
    }

    // Takes its name from the file at a place.
    fn remove(&mut self, at: &Place)
        requires { IsFile (disk_in self.old) (spot_of at.now) }
        ensures { disk_in self.new ≡ without_file (disk_in self.old) (spot_of at.now) }
    {
        self.remove_item(at);
    }

    fn change(&mut self, alloc: Global, step: &OutsideStep) -> Result<(), AllocError>
        requires valid { IsValid (disk_in self.old) }
        requires can { CanChange (disk_in self.old) step.now }
        ensures ok { OnOk result (disk_in self.new ≡ changed_by (disk_in self.old) step.now) }
        ensures err { OnErr result (disk_in self.new ≡ disk_in self.old) }
    {
        match step {
            OutsideStep::PutFile { at, bytes } => {
                self.add_file(alloc, at, bytes.as_slice())?;
                self.settle(at);
            }
            OutsideStep::EditFile { at, bytes } => self.edit(alloc, at, bytes.as_slice())?,
            OutsideStep::Remove { at } => {
                self.remove(at);
                self.settle(at);
            }
            OutsideStep::LinkFile { from, to } => {
                self.add_link(alloc, from, to)?;
                self.settle(to);
            }
            OutsideStep::MakeFolder { at } => {
                self.add_folder(alloc, at)?;
                self.settle(at);
            }
            OutsideStep::RemoveFolder { at } => {
                self.remove_folder(at);
                self.settle(at);
            }
        }
        Ok(())
    }
}

impl MemTree {
    /// Makes a change by others, and begins a new story at the changed disk. After an error the
    /// tree is as before.
    pub fn outside(&mut self, alloc: Global, step: &OutsideStep) -> Result<(), AllocError>
        requires { CanChange (disk_of (mem_story self.old)) step.now }
        ensures begins { OnOk result (Begins (changed_by (disk_of (mem_story self.old)) step.now) self.new) }
        ensures err { OnErr result (mem_story self.new ≡ mem_story self.old) }
        ensures faults { faults_of self.new ≡ faults_of self.old }
        ensures plan { KeepsPlan self.old self.new }
    {
        self.disk.change(alloc, step)?;
        self.start = None;
        self.ops.clear();
        Ok(())
    }
}
