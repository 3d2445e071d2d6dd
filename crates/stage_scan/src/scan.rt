// The scan of a mod.
ghost use Rattle.std.specs.Prelude.{◌≡◌, ◌≤◌, IfOk, IfErr};
ghost use Rattle.std.specs.List.{AllByRecursion};
ghost use Rattle.tree_fs.specs.Story.{disk_of};
ghost use Rattle.fault_count.specs.Causes.{HasCause};
ghost use Rattle.stage_scan.specs.declared.error.ScanError.TheVariants.{Failed};
ghost use Rattle.rel_paths.specs.Names.{IsFreePath};
ghost use Rattle.stage_scan.specs.Files.{AreInPathOrder};
ghost use Rattle.stage_scan.specs.Walks.{IsScan, IsRefused};

use crate::walk::begin;
use crate::{Files, ScanError};
use rel_paths::ModId;
use std::alloc::Global;
use tree_fs::Tree;

/// What a mod has.
#[derive(Drop)]
pub struct Scan {
    pub mod_id: ModId,
    /// The paths of its files.
    pub files: Files,
    /// How many files and folders it has.
    pub entries: u32,
}

/// Scans the folder of a mod, `stage/<id>`, which may have at most so many entries.
///
/// It asks for one listing of each folder.
pub fn scan_mod<T: Tree>(
    alloc: Global,
    tree: &mut T,
    id: &ModId,
    most: u32,
) -> Result<Scan, ScanError>
    ensures answer { T.tells → IfOk result (IsScan (disk_of (T.story tree.old)) id.now) }
    ensures refused { T.tells → IfErr result (IsRefused (disk_of (T.story tree.old)) id.now most) }
    ensures within { IfOk result (λ scan. scan.entries ≤ most) }
    ensures order { IfOk result (λ scan. AreInPathOrder scan.files) }
    ensures free { IfOk result (λ scan. AllByRecursion IsFreePath scan.files) }
    ensures id { IfOk result (λ scan. scan.mod_id ≡ id.now) }
    ensures same { T.tells → T.story tree.new ≡ T.story tree.old }
    ensures cause { HasCause Failed (T.faults tree.old) (T.faults tree.new) result }
{
    let mod_id = id.copy()?;
    let mut walk = begin(alloc, tree, id)?;
    let entries = walk.walk(alloc, tree, id, most)?;
    let files = Files::sorted(walk.files)?;
    Ok(Scan {
        mod_id,
        files,
        entries,
    })
}
