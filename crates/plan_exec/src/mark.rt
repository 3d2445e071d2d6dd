// The mark: the clear form of a plan takes the place of its set form.
ghost use Rattle.std.specs.Prelude.{◌≡◌, IfOk, IfErr, IfSome, OnOk, Some};
ghost use Rattle.tree_fs.specs.Story.{Along, disk_of};
ghost use Rattle.intent_json.specs.Forms.{set_form, clear_form};
ghost use Rattle.desk_model.specs.Stops.{Leads};
ghost use Rattle.intent_journal.specs.Causes.{HeldHasCause};
ghost use Rattle.intent_json.specs.Texts.{text_of};
ghost use Rattle.intent_journal.specs.declared.temp.Temp.TheVariants as temp;
ghost use Rattle.intent_journal.specs.Temps.{Beside, IsInstalled};
ghost use Rattle.intent_journal.specs.Counts.{SyncsAtMost};
ghost use Rattle.intent_journal.specs.Forms.{CanChange};
ghost use Rattle.plan_exec.specs.Ending.{HasForms};
ghost use Rattle.plan_exec.specs.Steps.{SetsReady, SetsDone, ClearsReady, ToOutcomeOf};

use intent_journal::{Held, OpenIntent, Ready, mark_clear};
use tree_fs::Tree;

// Once the saves and sets are done, the clear form takes the place of the set form. Every stop
// leads where the start leads, and at Ok the clears may run. The error holds the intent.
pub(crate) fn mark<T: Tree>(
    intent: OpenIntent,
    tree: &mut T,
    ready: &Ready,
) -> Result<OpenIntent, Held>
    requires guard { intent ≡ set_form ready.now }
    requires start { T.tells → CanChange (disk_of (T.story tree.old)) }
    ensures guard { IfOk result (λ cleared. cleared ≡ clear_form ready.now) }
    ensures stops { T.tells →
        SetsReady ready.now (disk_of (T.story tree.old)) →
        SetsDone ready.now (disk_of (T.story tree.old)) (disk_of (T.story tree.old)) → Along
        (Leads (ToOutcomeOf (disk_of (T.story tree.old)))) (T.story tree.old) (T.story tree.new) }
    ensures done { T.tells →
        SetsReady ready.now (disk_of (T.story tree.old)) →
        SetsDone ready.now (disk_of (T.story tree.old)) (disk_of (T.story tree.old)) →
        OnOk result (ClearsReady ready.now (disk_of (T.story tree.new))) }
    ensures only { T.tells →
        Along (Beside temp.Intent (disk_of (T.story tree.old)))
        (T.story tree.old) (T.story tree.new) }
    ensures installed { T.tells → OnOk result
        (IsInstalled temp.Intent (text_of (clear_form ready.now)) (disk_of (T.story tree.new))) }
    ensures temp { IfErr result (λ held. IfSome held.temp (λ which. which ≡ temp.Intent)) }
    ensures intent { IfErr result (λ held. held.intent ≡ Some intent) }
    ensures syncs { T.tells → SyncsAtMost 1 (T.story tree.old) (T.story tree.new) }
    ensures forms { T.tells → SetsReady ready.now (disk_of (T.story tree.old)) →
        SetsDone ready.now (disk_of (T.story tree.old)) (disk_of (T.story tree.old)) →
        Along (HasForms ready.now) (T.story tree.old) (T.story tree.new) }
    ensures cause { HeldHasCause (T.faults tree.old) (T.faults tree.new) result }
{
    mark_clear(intent, tree, ready)
}
