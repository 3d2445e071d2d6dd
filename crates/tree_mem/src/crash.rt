// What a stop leaves, by choices.
ghost use Rattle.std.specs.Prelude.{◌≡◌, false, [], map, IfOk, OnOk, OnErr};
ghost use Rattle.tree_fs.specs.Disk.{Image};
ghost use Rattle.tree_fs.specs.Spot.{spot_of};
ghost use Rattle.tree_fs.specs.Story.{disk_of};
ghost use Rattle.tree_mem.specs.Crash.{IsCrash, picked};
ghost use Rattle.tree_mem.specs.Disks.{disk_in, item_of, is_folder, ItemSet, SameParts};
ghost use Rattle.tree_mem.specs.Groups.{GroupGrown, IsGrouped, item_with, number_in};
ghost use Rattle.tree_mem.specs.FileData.{file_left};
ghost use Rattle.tree_mem.specs.MemStory.{mem_story, faults_of, failures_of, calls_of};

use crate::disk::{MemDisk, Past};
use crate::entries::Item;
use crate::file::MemFile;
use crate::folders::copy_folders;
use crate::mem_tree::MemTree;
use fault_count::FaultCount;
use std::alloc::{AllocError, Global};
use std::collections::BTreeMap;
use tree_fs::Place;

// The files that places held, oldest first, by the place.
type Groups = BTreeMap<Place, Vec<Option<u64>>>;

// The number of the file that an item is, if it is one.
fn number_in(item: Option<Item>) -> Option<u64>
    ensures { result ≡ number_in item }
{
    match item {
        Some(Item::File(number)) => Some(number),
        _ => None,
    }
}

// The file that a choice picks, of those before and the last one.
fn picked(choice: Option<u32>, before: &[Option<u64>], last: Option<u64>) -> Option<u64>
    ensures { result ≡ picked choice before.now last }
{
    match choice {
        Some(choice) => {
            let index = choice as usize % (before.len() + 1);
            before.get(index).copied().unwrap_or(last)
        }
        None => last,
    }
}

// Puts what a place held last at the end of its group.
fn add_past(alloc: Global, groups: &mut Groups, past: &Past) -> Result<(), AllocError>
    ensures { OnOk result (GroupGrown groups.old groups.new past.now.at (number_in past.now.item)) }
{
    let number = number_in(past.item);
    match groups.get_mut(&past.at) {
        Some(group) => group.push(number)?,
        None => {
            let group = vec![in alloc; number]?;
            groups.insert(past.at.copy()?, group)?;
        }
    }
    Ok(())
}

impl MemDisk {
    fn is_folder(&self, at: &Place) -> bool
        ensures { result ≡ is_folder (item_of self.now (spot_of at.now)) }
    {
        matches!(self.item(at), Some(Item::Folder))
    }

    // The files that places held before, by the place, without those that are folders now.
    fn groups(&self, alloc: Global) -> Result<Groups, AllocError>
        ensures { IfOk result (λ groups. IsGrouped self.now self.now.pending.items groups) }
    {
        let mut groups = BTreeMap::new(alloc);
        for past in &self.pending {
            if !self.is_folder(&past.at) {
                add_past(alloc, &mut groups, past)?;
            }
        }
        Ok(groups)
    }

    // The files after a stop, where those that aren't firm keep their bytes or not.
    fn files_left(&self, alloc: Global, keeps: bool) -> Result<Vec<MemFile>, AllocError>
        ensures { IfOk result (λ files. files.items ≡ map (file_left keeps) self.now.files.items) }
    {
        let mut files = Vec::new(alloc);
        for file in &self.files {
            files.push(file.left(alloc, keeps)?)?;
        }
        Ok(files)
    }

    // The disk after a stop that leaves at each place its last value.
    fn settled(&self, alloc: Global, keeps: bool) -> Result<MemDisk, AllocError>
        ensures items { IfOk result (λ left. (q : _) → item_of left q ≡ item_of self.now q) }
        ensures files { IfOk result (λ left. left.files.items ≡ map (file_left keeps) self.now.files.items) }
        ensures pending { IfOk result (λ left. left.pending.items ≡ []) }
    {
        Ok(MemDisk {
            stage: copy_folders(&self.stage)?,
            game: copy_folders(&self.game)?,
            keep: copy_folders(&self.keep)?,
            files: self.files_left(alloc, keeps)?,
            pending: Vec::new(alloc),
        })
    }

    // Gives a place the file with this number, or none, settled.
    fn set_file(&mut self, alloc: Global, at: &Place, number: Option<u64>) -> Result<(), AllocError>
        requires { (disk_in self.old).folders (spot_of at.now) ≡ false }
        ensures ok { OnOk result (ItemSet self.old self.new (spot_of at.now) (item_with number)) }
        ensures err { OnErr result (SameParts self.old self.new) }
    {
        match number {
            Some(number) => self.set_item(alloc, at, Item::File(number)),
            None => {
                self.remove_item(at);
                Ok(())
            }
        }
    }

    // The disk that a stop leaves by these choices.
    fn crash(&self, alloc: Global, choices: &[u32]) -> Result<MemDisk, AllocError>
        ensures { IfOk result (λ left. IsCrash choices.now (disk_in self.now) (disk_in left)) }
    {
        let mut left = self.settled(alloc, choices.len() % 2 == 0)?;
        let groups = self.groups(alloc)?;
        for (number, (at, before)) in groups.iter().enumerate() {
            let choice = choices.get(number).copied();
            let file = picked(choice, before, number_in(self.item(at)));
            left.set_file(alloc, at, file)?;
        }
        Ok(left)
    }
}

impl MemTree {
    /// One of the disks that a stop may leave of the present one, in a tree whose story begins at
    /// it, with no failures planned.
    ///
    /// The choices are for the pending places that are no folders, in the byte order of their
    /// texts. Each picks, of the values that the place may hold, the oldest first and the present
    /// one last, that at its index modulo their count; a place without a choice keeps the last.
    /// A file that isn't firm keeps its bytes where the number of choices is even, and else has
    /// none.
    pub fn crash(&self, alloc: Global, choices: &[u32]) -> Result<MemTree, AllocError>
        ensures crashed { let present = disk_of (mem_story self.now) in
            IfOk result (λ left. IsCrash choices.now present (disk_of (mem_story left))) }
        ensures image { IfOk result (λ left. Image (disk_of (mem_story self.now)) (disk_of (mem_story left))) }
        ensures begins { IfOk result (λ left. (mem_story left).ops ≡ []) }
        ensures faults { IfOk result (λ left. faults_of left ≡ 0) }
        ensures plan { IfOk result (λ left. (failures_of left ≡ []) × (calls_of left ≡ 0)) }
    {
        Ok(MemTree {
            alloc,
            start: None,
            disk: self.disk.crash(alloc, choices)?,
            ops: Vec::new(alloc),
            faults: FaultCount::new(),
            fails: Vec::new(alloc),
            calls: 0,
        })
    }
}
