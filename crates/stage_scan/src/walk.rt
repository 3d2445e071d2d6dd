// A walk over what lies below a mod.
ghost use Rattle.std.specs.Prelude.{◌≡◌, ◌≤◌, ◌⊎◌, ◌+◌, ◌++◌, ◌∷◌, ℕ, [], IfOk, IfErr, IfSome, OnOk};
ghost use Rattle.std.specs.List.{AllByRecursion};
ghost use Rattle.rel_paths.specs.Names.{IsUserPath, IsFreePath};
ghost use Rattle.tree_fs.specs.declared.name.Kind.TheVariants.{Folder};
ghost use Rattle.tree_fs.specs.Spot.{names_below};
ghost use Rattle.tree_fs.specs.Places.{mod_spot};
ghost use Rattle.tree_fs.specs.Disk.{kind_of};
ghost use Rattle.tree_fs.specs.Story.{disk_of};
ghost use Rattle.fault_count.specs.Causes.{HasCause};
ghost use Rattle.tree_fs.specs.declared.tree.TreeError.TheVariants as tree_error;
ghost use Rattle.tree_fs.specs.Listing.{IsListing};
ghost use Rattle.stage_scan.specs.Walks.{inside, kind_inside, IsEntryFault, IsRefused};
ghost use Rattle.stage_scan.specs.Stack.{names_at, HasUserFolder, Entered, IsWalkAt};
ghost use Rattle.stage_scan.specs.declared.error.ScanError.TheVariants.{Failed};

use crate::ScanError;
use crate::pending::{Pending, folder_place, push_entries};
use rel_paths::{ModId, RelPath};
use std::alloc::Global;
use tree_fs::{Kind, Place, Tree, TreeError};

/// How far a walk has come.
#[derive(Drop)]
pub(crate) struct Walk {
    /// What is still to be looked at, the next one last.
    pub stack: Vec<Pending>,
    /// The paths of the files so far, in the order of the walk.
    pub files: Vec<RelPath>,
}

// Lists a folder, and puts its entries on the stack.
fn enter<T: Tree>(
    alloc: Global,
    tree: &mut T,
    id: &ModId,
    stack: &mut Vec<Pending>,
    folder: &Option<RelPath>,
) -> Result<(), TreeError>
    requires user { IfSome folder.now IsUserPath }
    requires told { T.tells → kind_inside (disk_of (T.story tree.old)) id.now (names_below folder.now) ≡ Folder }
    ensures put { OnOk result (Entered folder.now stack.old.items stack.new.items (λ entries. T.tells → IsListing (disk_of (T.story tree.old)) (inside id.now (names_below folder.now)) entries)) }
    ensures same { T.tells → T.story tree.new ≡ T.story tree.old }
    ensures cause { HasCause tree_error.Failed (T.faults tree.old) (T.faults tree.new) result }
{
    let place = folder_place(alloc, id, folder)?;
    let entries = tree.list(&place)?;
    push_entries(stack, folder, entries)?;
    Ok(())
}

/// The start of the walk over a mod's folder.
pub(crate) fn begin<T: Tree>(alloc: Global, tree: &mut T, id: &ModId) -> Result<Walk, ScanError>
    ensures told { T.tells → IfOk result (λ walk. (kind_of (disk_of (T.story tree.old)) (mod_spot id.now) ≡ Folder) × IsWalkAt (disk_of (T.story tree.old)) id.now walk.stack.items 0 walk.files.items) }
    ensures refused { T.tells → IfErr result (λ e. (most : ℕ) → IsRefused (disk_of (T.story tree.old)) id.now most e) }
    ensures users { IfOk result (λ walk. AllByRecursion HasUserFolder walk.stack.items) }
    ensures files { IfOk result (λ walk. walk.files.items ≡ []) }
    ensures same { T.tells → T.story tree.new ≡ T.story tree.old }
    ensures cause { HasCause Failed (T.faults tree.old) (T.faults tree.new) result }
{
    let root = Place::mod_folder(alloc, id)?;
    if tree.kind(&root)? != Kind::Folder {
        return Err(ScanError::NoFolder);
    }
    let mut walk = Walk {
        stack: Vec::new(alloc),
        files: Vec::new(alloc),
    };
    enter(alloc, tree, id, &mut walk.stack, &None)?;
    Ok(walk)
}

impl Walk {
    // Looks at the next entry.
    fn visit<T: Tree>(
        &mut self,
        alloc: Global,
        tree: &mut T,
        id: &ModId,
        next: Pending,
    ) -> Result<(), ScanError>
        requires user { HasUserFolder next }
        requires users { AllByRecursion HasUserFolder self.old.stack.items }
        requires files { AllByRecursion IsFreePath self.old.files.items }
        requires told { T.tells → next.entry.kind ≡ kind_inside (disk_of (T.story tree.old)) id.now (names_at next) }
        ensures walked { T.tells → OnOk result ((count : ℕ) → IsWalkAt (disk_of (T.story tree.old)) id.now (self.old.stack.items ++ next ∷ []) count self.old.files.items → IsWalkAt (disk_of (T.story tree.old)) id.now self.new.stack.items (count + 1) self.new.files.items) }
        ensures refused { IfErr result (λ e. (e ≡ Failed) ⊎ IsEntryFault id.now next.entry.kind (names_at next) e) }
        ensures users { OnOk result (AllByRecursion HasUserFolder self.new.stack.items) }
        ensures files { OnOk result (AllByRecursion IsFreePath self.new.files.items) }
        ensures same { T.tells → T.story tree.new ≡ T.story tree.old }
        ensures cause { HasCause Failed (T.faults tree.old) (T.faults tree.new) result }
    {
        let kind = next.entry.kind;
        let path = next.sound_path(alloc, id)?;
        if kind == Kind::Folder {
            enter(alloc, tree, id, &mut self.stack, &Some(path))?;
            return Ok(());
        }
        if kind == Kind::File {
            self.files.push(path)?;
            return Ok(());
        }
        Ok(())
    }

    /// Looks at all entries, and counts them.
    pub(crate) fn walk<T: Tree>(
        &mut self,
        alloc: Global,
        tree: &mut T,
        id: &ModId,
        most: u32,
    ) -> Result<u32, ScanError>
        requires users { AllByRecursion HasUserFolder self.old.stack.items }
        requires files { AllByRecursion IsFreePath self.old.files.items }
        requires folder { T.tells → kind_of (disk_of (T.story tree.old)) (mod_spot id.now) ≡ Folder }
        requires told { T.tells → IsWalkAt (disk_of (T.story tree.old)) id.now self.old.stack.items 0 self.old.files.items }
        ensures ok { T.tells → IfOk result (λ count. IsWalkAt (disk_of (T.story tree.old)) id.now [] count self.new.files.items) }
        ensures err { T.tells → IfErr result (IsRefused (disk_of (T.story tree.old)) id.now most) }
        ensures within { IfOk result (λ count. count ≤ most) }
        ensures files { OnOk result (AllByRecursion IsFreePath self.new.files.items) }
        ensures same { T.tells → T.story tree.new ≡ T.story tree.old }
        ensures cause { HasCause Failed (T.faults tree.old) (T.faults tree.new) result }
    {
        for count in 0..most {
            let Some(next) = self.stack.pop() else {
                return Ok(count);
            };
            self.visit(alloc, tree, id, next)?;
        }
        if self.stack.is_empty() {
            Ok(most)
        } else {
            Err(ScanError::TooMany)
        }
    }
}
