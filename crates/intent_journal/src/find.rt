// An intent that an earlier command left.
ghost use Rattle.std.specs.Prelude.{◌≡◌, None, Some, IfOk, IfErr, OnOk, IfSome};
ghost use Rattle.fault_count.specs.Causes.{HasCause};
ghost use Rattle.tree_fs.specs.declared.tree.TreeError.TheVariants.{Failed};
ghost use Rattle.tree_fs.specs.Story.{Along, disk_of};
ghost use Rattle.tree_fs.specs.Frames.{Syncs};
ghost use Rattle.intent_json.specs.Accepted.{IsAccepted};
ghost use Rattle.desk_model.specs.Places.{intent_spot};
ghost use Rattle.desk_model.specs.Standing.{Standing};
ghost use Rattle.intent_journal.specs.Temps.{IsFileOrAbsent};
ghost use Rattle.intent_journal.specs.Forms.{HoldsForm};
ghost use Rattle.intent_journal.specs.Found.{IsFound, IsNoIntent, IsThere};
ghost use Rattle.intent_journal.specs.Counts.{SyncsAtMost};

use crate::guards::open_intent;
use crate::temps::sync_root;
use crate::{IntentError, OpenIntent, control_bytes};
use intent_json::{Intent, read_intent};
use rel_paths::Control;
use std::alloc::Global;
use tree_fs::{Kind, Place, Root, Tree, TreeError};

/// The intent that stands on the disk, or none. `BadIntent` comes where the file's bytes are the
/// text of no intent whose plan passes the rules.
pub fn find_intent<T: Tree>(alloc: Global, tree: &mut T) -> Result<Option<Intent>, IntentError>
    requires { T.tells → IsFileOrAbsent (disk_of (T.story tree.old)) intent_spot }
    ensures found { T.tells → IfOk result (IsFound (disk_of (T.story tree.old))) }
    ensures accepted { IfOk result (λ found. IfSome found IsAccepted) }
    ensures bad { T.tells → IfErr result (λ e. e ≡ IntentError.BadIntent
        → IsNoIntent (disk_of (T.story tree.old))) }
    ensures same { T.tells → T.story tree.new ≡ T.story tree.old }
    ensures cause { HasCause IntentError.Failed (T.faults tree.old) (T.faults tree.new) result }
{
    if tree.kind(&Place::control(Control::Intent))? == Kind::Absent {
        return Ok(None);
    }
    let bytes = control_bytes(alloc, tree, Control::Intent)?;
    match read_intent(alloc, &bytes)? {
        Some(intent) => Ok(Some(intent)),
        None => Err(IntentError::BadIntent),
    }
}

/// The guard of the intent that stands there, for recovery: the intent is settled by a sync of
/// `keep`. It has to be the one that the file holds.
pub fn adopt_intent<T: Tree>(tree: &mut T, intent: &Intent) -> Result<OpenIntent, TreeError>
    requires { T.tells → IsThere intent.now (disk_of (T.story tree.old)) }
    ensures guard { IfOk result (λ guard. IsAccepted intent.now → guard ≡ intent.now) }
    ensures stops { T.tells →
        Along (Syncs (disk_of (T.story tree.old))) (T.story tree.old) (T.story tree.new) }
    ensures stands { T.tells → Standing (disk_of (T.story tree.old))
        → Along Standing (T.story tree.old) (T.story tree.new) }
    ensures done { T.tells →
        OnOk result (HoldsForm (Some intent.now) (disk_of (T.story tree.new))) }
    ensures syncs { T.tells → SyncsAtMost 1 (T.story tree.old) (T.story tree.new) }
    ensures cause { HasCause Failed (T.faults tree.old) (T.faults tree.new) result }
{
    sync_root(tree, Root::Keep)?;
    Ok(open_intent(intent.phase, &intent.plan))
}
