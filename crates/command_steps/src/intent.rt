// The intent that an earlier command left.
ghost use Rattle.std.specs.Prelude.{◌≡◌, ◌∷◌, [], IfOk, IfSome};
ghost use Rattle.fault_count.specs.Causes.{HasCause};
ghost use Rattle.tree_fs.specs.Story.{disk_of};
ghost use Rattle.desk_model.specs.Places.{intent_spot};
ghost use Rattle.intent_json.specs.Accepted.{IsAccepted};
ghost use Rattle.intent_journal.specs.Found.{IsFound};
ghost use Rattle.intent_journal.specs.Temps.{IsFileOrAbsent};
ghost use Rattle.command_steps.specs.declared.limits.Limits.{Limits};
ghost use Rattle.command_steps.specs.declared.stop.Stop.TheVariants.{TreeFault};
ghost use Rattle.command_steps.specs.Steps.{intent};
ghost use Rattle.command_steps.specs.Orders.{Takes};

use crate::Stop;
use intent_journal::find_intent;
use intent_json::Intent;
use std::alloc::Global;
use tree_fs::Tree;

/// The intent that stands on the disk, or none. `BadIntent` comes where a file is at its place whose
/// bytes are no intent.
pub fn intent_of<T: Tree>(alloc: Global, tree: &mut T) -> Result<Option<Intent>, Stop>
    requires { T.tells → IsFileOrAbsent (disk_of (T.story tree.old)) intent_spot }
    ensures takes { T.tells → (limits : Limits)
        → Takes (intent ∷ []) limits (T.story tree.old) (T.story tree.new)
        (IsFound (disk_of (T.story tree.old))) result }
    ensures accepted { IfOk result (λ found. IfSome found IsAccepted) }
    ensures same { T.tells → T.story tree.new ≡ T.story tree.old }
    ensures cause { HasCause TreeFault (T.faults tree.old) (T.faults tree.new) result }
{
    Ok(find_intent(alloc, tree)?)
}
