// The state of a tree in memory.
ghost use Rattle.std.specs.Prelude.{◌≡◌};
ghost use Rattle.tree_fs.specs.Disk.{IsValid, after_all};
ghost use Rattle.tree_mem.specs.Disks.{disk_in};
ghost use Rattle.tree_mem.specs.Starts.{start_in};

use crate::disk::MemDisk;
use crate::fail::FailAt;
use fault_count::FaultCount;
use std::alloc::Global;
use tree_fs::Op;

/// A file system in memory, which tells its story.
///
/// Its methods take memory from the allocator that it was made with.
#[derive(Drop)]
pub struct MemTree {
    pub(crate) alloc: Global,
    /// The disk that the story began with, if it isn't the present one.
    pub(crate) start: Option<MemDisk>,
    pub(crate) disk: MemDisk,
    pub(crate) ops: Vec<Op>,
    pub(crate) faults: FaultCount,
    /// The failures that are planned, and how many calls came since they were.
    pub(crate) fails: Vec<FailAt>,
    pub(crate) calls: u64,
    ghost tells: { disk_in disk ≡ after_all (start_in start disk) ops.items },
    ghost valid: { IsValid (disk_in disk) },
}
