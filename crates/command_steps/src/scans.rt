// The scans of the enabled mods.
ghost use Rattle.std.specs.Prelude.{◌≡◌, ◌⊎◌, ◌≤◌, ◌∷◌, [], IfOk, IfErr, map};
ghost use Rattle.fault_count.specs.Causes.{HasCause};
ghost use Rattle.tree_fs.specs.Story.{disk_of};
ghost use Rattle.profile_toml.specs.Records.{ProfileData};
ghost use Rattle.stage_scan.specs.Walks.{IsScan};
ghost use Rattle.command_steps.specs.declared.stop.Stop.TheVariants.{TreeFault, Memory};
ghost use Rattle.command_steps.specs.Profiles.{HasProfile, enabled_ids};
ghost use Rattle.command_steps.specs.Scans.{AreScans, IsTurned};
ghost use Rattle.command_steps.specs.Steps.{scans};
ghost use Rattle.command_steps.specs.Stops.{scan_stop};
ghost use Rattle.command_steps.specs.Orders.{Takes};

use crate::{Limits, Stop};
use answer_lines::{Refusal, ScanRefusal};
use rel_paths::ModId;
use stage_scan::{Scan, ScanError, scan_mod};
use std::alloc::Global;
use tree_fs::Tree;

// What stops a command at this fault of a mod, where all mods may have so many entries.
fn stop_of(error: ScanError, id: &ModId, most: u32) -> Stop
    ensures { (result ≡ scan_stop id.now most error) ⊎ (result ≡ Memory) }
{
    Stop::Refused(Refusal::Scan(match error {
        ScanError::NoFolder => match id.copy() {
            Ok(id) => ScanRefusal::NoFolder(id),
            Err(_) => return Stop::Memory,
        },
        ScanError::TooMany => ScanRefusal::TooManyEntries(most),
        ScanError::BadEntry { folder, name } => ScanRefusal::BadEntry { folder, name },
        ScanError::OddEntry { folder, name } => ScanRefusal::OddEntry { folder, name },
        ScanError::Reserved(place) => ScanRefusal::Reserved(place),
        ScanError::Failed => return Stop::TreeFault,
        ScanError::Memory => return Stop::Memory,
    }))
}

// Scans a mod, which may have as many entries as are left of the limit.
fn scan_next<T: Tree>(
    alloc: Global,
    tree: &mut T,
    id: &ModId,
    most: u32,
    left: u32,
) -> Result<Scan, Stop>
    ensures answer { T.tells → IfOk result (IsScan (disk_of (T.story tree.old)) id.now) }
    ensures stopped { T.tells →
        IfErr result (IsTurned (disk_of (T.story tree.old)) id.now most left) }
    ensures within { IfOk result (λ scan. scan.entries ≤ left) }
    ensures id { IfOk result (λ scan. scan.mod_id ≡ id.now) }
    ensures same { T.tells → T.story tree.new ≡ T.story tree.old }
    ensures cause { HasCause TreeFault (T.faults tree.old) (T.faults tree.new) result }
{
    match scan_mod(alloc, tree, id, left) {
        Ok(scan) => Ok(scan),
        Err(error) => Err(stop_of(error, id, most)),
    }
}

/// The scans of the enabled mods with these ids, in their order. The first fault of the first mod that
/// has one is told; all mods together may have `limits.entries` entries.
pub fn scan_enabled<T: Tree>(
    alloc: Global,
    tree: &mut T,
    ids: &[ModId],
    limits: &Limits,
) -> Result<Vec<Scan>, Stop>
    ensures takes { T.tells → (p : ProfileData)
        → HasProfile (disk_of (T.story tree.old)) p → ids.now ≡ enabled_ids p
        → Takes (scans ∷ []) limits.now (T.story tree.old) (T.story tree.new)
        (λ found. AreScans (disk_of (T.story tree.old)) ids.now found.items) result }
    ensures ids { IfOk result (λ found. map (λ s. s.mod_id) found.items ≡ ids.now) }
    ensures same { T.tells → T.story tree.new ≡ T.story tree.old }
    ensures cause { HasCause TreeFault (T.faults tree.old) (T.faults tree.new) result }
{
    let mut found = Vec::new(alloc);
    let mut left = limits.entries;
    for id in ids {
        let scan = scan_next(alloc, tree, id, limits.entries, left)?;
        left -= scan.entries;
        found.push(scan)?;
    }
    Ok(found)
}
