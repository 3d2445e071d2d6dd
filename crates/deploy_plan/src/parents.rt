// The folders above the paths of a walk, each looked at once.
ghost use Rattle.std.specs.Prelude.{◌≡◌, ◌++◌, ◌∷◌, [], ◌⊎◌, IfOk, IfErr, OnOk, IfSome, true, false, if◌then◌else◌};
ghost use Rattle.std.specs.List.{AllByRecursion, Contains};
ghost use Rattle.fault_count.specs.Causes.{HasCause};
ghost use Rattle.rel_paths.specs.Names.{IsFreePath};
ghost use Rattle.tree_fs.specs.Spot.{parent};
ghost use Rattle.tree_fs.specs.Places.{game_spot};
ghost use Rattle.tree_fs.specs.Disk.{kind_of};
ghost use Rattle.tree_fs.specs.Story.{disk_of};
ghost use Rattle.plan_model.specs.Rows.{IsFolderOrAbsent};
ghost use Rattle.deploy_plan.specs.declared.error.PlanError.TheVariants.{Failed};
ghost use Rattle.deploy_plan.specs.declared.parents.Seen.{Seen};
ghost use Rattle.deploy_plan.specs.Refusals.{HasOpenParents};
ghost use Rattle.deploy_plan.specs.Parents.{AreSeen, IsSeen, LooksUpTo, IsBlockedUpTo, IsOpenUpTo};

use crate::PlanError;
use rel_paths::RelPath;
use std::alloc::{AllocError, Global};
use tree_fs::{Kind, Place, Tree};

/// A folder above a path that was looked at, and whether it is there.
#[derive(Drop)]
pub(crate) struct Seen {
    path: RelPath,
    is_there: bool,
}

/// What was found of the folders above the paths so far.
#[derive(Drop)]
pub(crate) struct Parents {
    // Those above the last path, from the outermost in.
    above: Vec<Seen>,
    /// Those that are missing.
    pub missing: Vec<RelPath>,
}

// Whether a folder is at this path. Something else is in the way.
fn is_folder<T: Tree>(alloc: Global, tree: &mut T, path: &RelPath) -> Result<bool, PlanError>
    requires { T.tells → HasOpenParents (disk_of (T.story tree.old)) (game_spot path.now) }
    ensures answer { T.tells →
        IfOk result (λ yes. yes ≡ (disk_of (T.story tree.old)).folders (game_spot path.now)) }
    ensures open { T.tells →
        OnOk result (IsFolderOrAbsent (disk_of (T.story tree.old)) (game_spot path.now)) }
    ensures refused { T.tells →
        IfErr result (IsBlockedUpTo (disk_of (T.story tree.old)) (game_spot path.now)) }
    ensures same { T.tells → T.story tree.new ≡ T.story tree.old }
    ensures cause { HasCause Failed (T.faults tree.old) (T.faults tree.new) result }
{
    let place = Place::game(alloc, path)?;
    match tree.kind(&place)? {
        Kind::Folder => Ok(true),
        Kind::Absent => Ok(false),
        Kind::File | Kind::Other => Err(PlanError::Blocked(place)),
    }
}

// The same where it is known whether the folder that it lies in is there.
fn is_folder_in<T: Tree>(
    alloc: Global,
    tree: &mut T,
    path: &RelPath,
    is_open: bool,
) -> Result<bool, PlanError>
    requires parents { T.tells → HasOpenParents (disk_of (T.story tree.old)) (game_spot path.now) }
    requires told { T.tells →
        is_open ≡ (disk_of (T.story tree.old)).folders (parent (game_spot path.now)) }
    ensures answer { T.tells →
        IfOk result (λ yes. yes ≡ (disk_of (T.story tree.old)).folders (game_spot path.now)) }
    ensures open { T.tells →
        OnOk result (IsFolderOrAbsent (disk_of (T.story tree.old)) (game_spot path.now)) }
    ensures refused { T.tells →
        IfErr result (IsBlockedUpTo (disk_of (T.story tree.old)) (game_spot path.now)) }
    ensures same { T.tells → T.story tree.new ≡ T.story tree.old }
    ensures cause { HasCause Failed (T.faults tree.old) (T.faults tree.new) result }
{
    if is_open {
        is_folder(alloc, tree, path)
    } else {
        Ok(false)
    }
}

impl Parents {
    /// Nothing was looked at so far.
    pub(crate) fn new(alloc: Global) -> Parents
        ensures above { result.above.items ≡ [] }
        ensures missing { result.missing.items ≡ [] }
    {
        Parents {
            above: Vec::new(alloc),
            missing: Vec::new(alloc),
        }
    }

    // Forgets the folders that aren't this one and aren't above it.
    fn leave(&mut self, path: &RelPath)
        ensures missing { self.new.missing ≡ self.old.missing }
        ensures above { (seen : Seen) → Contains self.new.above.items seen → Contains self.old.above.items
            seen }
    {
        while let Some(seen) = self.above.last() {
            if path.starts_with(&seen.path) {
                return;
            }
            self.above.pop();
        }
    }

    // What was found of this folder, where it is the last one.
    fn seen(&self, path: &RelPath) -> Option<bool>
        ensures { IfSome result (λ is_there. Contains self.now.above.items
            (record { path = path.now; is_there = is_there })) }
    {
        match self.above.last() {
            Some(seen) => {
                if seen.path == *path {
                    Some(seen.is_there)
                } else {
                    None
                }
            }
            None => None,
        }
    }

    fn note(&mut self, path: &RelPath, is_there: bool) -> Result<(), AllocError>
        ensures above { OnOk result (self.new.above.items ≡ self.old.above.items ++ record
            { path = path.now; is_there = is_there } ∷ []) }
        ensures missing { OnOk result (self.new.missing.items
            ≡ (if is_there then self.old.missing.items else self.old.missing.items ++ path.now
            ∷ [])) }
    {
        if !is_there {
            self.missing.push(path.copy()?)?;
        }
        let path = path.copy()?;
        self.above.push(Seen { path, is_there })?;
        Ok(())
    }

    // Whether this folder is there. Something else in its place, or in that of a folder above it,
    // is in the way.
    #[cycle(parents)]
    fn has_folder<T: Tree>(
        &mut self,
        alloc: Global,
        tree: &mut T,
        path: &RelPath,
    ) -> Result<bool, PlanError>
        requires { T.tells → AreSeen (disk_of (T.story tree.old)) self.old }
        ensures answer { T.tells →
            IfOk result (λ yes. yes ≡ (disk_of (T.story tree.old)).folders (game_spot path.now)) }
        ensures looks { T.tells →
            OnOk result (LooksUpTo (disk_of (T.story tree.old)) (game_spot path.now) self.old
            self.new) }
        ensures free { OnOk result (IsFreePath path.now
            → AllByRecursion IsFreePath self.old.missing.items → AllByRecursion IsFreePath
            self.new.missing.items) }
        ensures refused { T.tells →
            IfErr result (IsBlockedUpTo (disk_of (T.story tree.old)) (game_spot path.now)) }
        ensures same { T.tells → T.story tree.new ≡ T.story tree.old }
        ensures cause { HasCause Failed (T.faults tree.old) (T.faults tree.new) result }
    {
        self.leave(path);
        if let Some(is_there) = self.seen(path) {
            return Ok(is_there);
        }
        let is_open = self.has_parents(alloc, tree, path)?;
        let is_there = is_folder_in(alloc, tree, path, is_open)?;
        self.note(path, is_there)?;
        Ok(is_there)
    }

    /// Whether the folder that this path lies in is there. Something else in its place, or in that
    /// of a folder above it, is in the way, the outermost one first.
    #[cycle(parents)]
    pub(crate) fn has_parents<T: Tree>(
        &mut self,
        alloc: Global,
        tree: &mut T,
        path: &RelPath,
    ) -> Result<bool, PlanError>
        requires { T.tells → AreSeen (disk_of (T.story tree.old)) self.old }
        ensures answer { T.tells →
            IfOk result (λ yes. yes ≡ (disk_of (T.story tree.old)).folders
            (parent (game_spot path.now))) }
        ensures looks { T.tells →
            OnOk result (LooksUpTo (disk_of (T.story tree.old)) (parent (game_spot path.now))
            self.old self.new) }
        ensures free { OnOk result (IsFreePath path.now
            → AllByRecursion IsFreePath self.old.missing.items → AllByRecursion IsFreePath
            self.new.missing.items) }
        ensures refused { T.tells →
            IfErr result (IsBlockedUpTo (disk_of (T.story tree.old))
            (parent (game_spot path.now))) }
        ensures same { T.tells → T.story tree.new ≡ T.story tree.old }
        ensures cause { HasCause Failed (T.faults tree.old) (T.faults tree.new) result }
    {
        match path.parent(alloc)? {
            None => Ok(true),
            Some(above) => self.has_folder(alloc, tree, &above),
        }
    }
}
