// Worlds, put up by hand.
ghost use Rattle.std.specs.Prelude.{◌≡◌, [], IfOk, OnOk, OnErr};
ghost use Rattle.tree_fs.specs.Calls.{CanPut};
ghost use Rattle.tree_fs.specs.Disk.{IsFile};
ghost use Rattle.tree_fs.specs.Spot.{spot_of};
ghost use Rattle.tree_fs.specs.Story.{disk_of};
ghost use Rattle.tree_mem.specs.Changed.{empty_disk, with_file, with_link, with_folder, settled_at};
ghost use Rattle.tree_mem.specs.MemStory.{mem_story, Begins, faults_of, failures_of, calls_of, KeepsPlan};

use crate::disk::MemDisk;
use crate::mem_tree::MemTree;
use fault_count::FaultCount;
use std::alloc::{AllocError, Global};
use tree_fs::Place;

impl MemTree {
    /// The three roots, empty. No step was done, and no fault counted.
    pub fn new(alloc: Global) -> Result<MemTree, AllocError>
        ensures begins { IfOk result (λ tree. Begins empty_disk tree) }
        ensures faults { IfOk result (λ tree. faults_of tree ≡ 0) }
        ensures plan { IfOk result (λ tree. (failures_of tree ≡ []) × (calls_of tree ≡ 0)) }
    {
        Ok(MemTree {
            alloc,
            start: None,
            disk: MemDisk::new(alloc),
            ops: Vec::new(alloc),
            faults: FaultCount::new(),
            fails: Vec::new(alloc),
            calls: 0,
        })
    }

    /// Puts a file there, settled and firm, and begins a new story at this disk. After an error
    /// the tree is as before.
    pub fn add_file(&mut self, alloc: Global, at: &Place, bytes: &[u8]) -> Result<(), AllocError>
        requires { CanPut (disk_of (mem_story self.old)) (spot_of at.now) }
        ensures begins { let added = with_file (disk_of (mem_story self.old)) (spot_of at.now) bytes.now in
            OnOk result (Begins (settled_at added (spot_of at.now)) self.new) }
        ensures err { OnErr result (mem_story self.new ≡ mem_story self.old) }
        ensures faults { faults_of self.new ≡ faults_of self.old }
        ensures plan { KeepsPlan self.old self.new }
    {
        self.disk.add_file(alloc, at, bytes)?;
        self.disk.settle(at);
        self.start = None;
        self.ops.clear();
        Ok(())
    }

    /// Makes `to` a second name of the file `from`, settled, and begins a new story at this disk.
    /// After an error the tree is as before.
    pub fn link_file(&mut self, alloc: Global, from: &Place, to: &Place) -> Result<(), AllocError>
        requires source { IsFile (disk_of (mem_story self.old)) (spot_of from.now) }
        requires target { CanPut (disk_of (mem_story self.old)) (spot_of to.now) }
        ensures begins { let d = disk_of (mem_story self.old) in
            let added = with_link d (spot_of from.now) (spot_of to.now) in
            OnOk result (Begins (settled_at added (spot_of to.now)) self.new) }
        ensures err { OnErr result (mem_story self.new ≡ mem_story self.old) }
        ensures faults { faults_of self.new ≡ faults_of self.old }
        ensures plan { KeepsPlan self.old self.new }
    {
        self.disk.add_link(alloc, from, to)?;
        self.disk.settle(to);
        self.start = None;
        self.ops.clear();
        Ok(())
    }

    /// Puts a folder there, settled, and begins a new story at this disk. After an error the tree
    /// is as before.
    pub fn add_folder(&mut self, alloc: Global, at: &Place) -> Result<(), AllocError>
        requires { CanPut (disk_of (mem_story self.old)) (spot_of at.now) }
        ensures begins { let added = with_folder (disk_of (mem_story self.old)) (spot_of at.now) in
            OnOk result (Begins (settled_at added (spot_of at.now)) self.new) }
        ensures err { OnErr result (mem_story self.new ≡ mem_story self.old) }
        ensures faults { faults_of self.new ≡ faults_of self.old }
        ensures plan { KeepsPlan self.old self.new }
    {
        self.disk.add_folder(alloc, at)?;
        self.disk.settle(at);
        self.start = None;
        self.ops.clear();
        Ok(())
    }
}
