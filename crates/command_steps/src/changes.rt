// What others changed since the last deployment.
ghost use Rattle.std.specs.Prelude.{◌≡◌, ◌∷◌, [], IfOk};
ghost use Rattle.fault_count.specs.Causes.{HasCause};
ghost use Rattle.tree_fs.specs.Story.{disk_of};
ghost use Rattle.manifest_json.specs.Paths.{AreRising};
ghost use Rattle.change_detect.specs.Changes.{changes_by, change_paths};
ghost use Rattle.change_detect.specs.Classes.{class_of};
ghost use Rattle.desk_model.specs.Records.{rows_on};
ghost use Rattle.command_steps.specs.declared.limits.Limits.{Limits};
ghost use Rattle.command_steps.specs.declared.stop.Stop.TheVariants.{TreeFault};
ghost use Rattle.command_steps.specs.Manifests.{HasManifest};
ghost use Rattle.command_steps.specs.Steps.{changes};
ghost use Rattle.command_steps.specs.Orders.{Takes};

use crate::Stop;
use change_detect::{Change, all_changes};
use manifest_json::Manifest;
use std::alloc::Global;
use tree_fs::Tree;

/// The rows of the manifest that aren't what was deployed, in path order; none where there is no
/// manifest. `Blocked` tells the first place of a row at which a folder or something odd stands.
pub fn changes_of<T: Tree>(
    alloc: Global,
    tree: &mut T,
    there: &Option<Manifest>,
) -> Result<Vec<Change>, Stop>
    ensures takes { T.tells → HasManifest (disk_of (T.story tree.old)) there.now
        → (limits : Limits)
        → Takes (changes ∷ []) limits (T.story tree.old) (T.story tree.new)
        (λ found. found.items
        ≡ changes_by (class_of (disk_of (T.story tree.old))) (rows_on (disk_of (T.story tree.old))))
        result }
    ensures order { IfOk result (λ found. AreRising (change_paths found.items)) }
    ensures same { T.tells → T.story tree.new ≡ T.story tree.old }
    ensures cause { HasCause TreeFault (T.faults tree.old) (T.faults tree.new) result }
{
    match there {
        Some(old) => Ok(all_changes(alloc, tree, old)?),
        None => Ok(Vec::new(alloc)),
    }
}
