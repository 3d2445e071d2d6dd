// The plan of a settlement, or the first thing that refuses it.
ghost use Rattle.std.specs.Prelude.{◌≡◌, None, Some, IfOk, IfErr, OnOk};
ghost use Rattle.fault_count.specs.Causes.{HasCause};
ghost use Rattle.tree_fs.specs.Story.{disk_of};
ghost use Rattle.change_choices.specs.declared.choices.Choices.{Choices};
ghost use Rattle.change_choices.specs.Choice.{choice};
ghost use Rattle.change_detect.specs.Changes.{changes_by};
ghost use Rattle.change_detect.specs.Classes.{class_of};
ghost use Rattle.change_detect.specs.Refusals.{first_blocked};
ghost use Rattle.move_plan.specs.Sound.{SoundPlan};
ghost use Rattle.intent_json.specs.declared.intent.Phase.TheVariants as phase;
ghost use Rattle.desk_model.specs.Settled.{Settled};
ghost use Rattle.desk_model.specs.Outcome.{outcome_by};
ghost use Rattle.plan_model.specs.Rows.{old_of};
ghost use Rattle.change_settle.specs.declared.error.SettleError.TheVariants.{Failed};
ghost use Rattle.change_settle.specs.Decides.{GivesChoice, GivesSome};
ghost use Rattle.change_settle.specs.Plans.{IsSettlePlan};
ghost use Rattle.change_settle.specs.Refusals.{NoRefusal, IsSettleRefusal};

use crate::aside::aside_for;
use crate::looks::look_at;
use crate::places::{folders_above, in_order};
use crate::plan::plan_of;
use crate::tasks::tasks;
use crate::walk::{restored_places, steps};
use crate::{Decider, SettleError};
use change_choices::{Action, Class};
use change_detect::Change;
use manifest_json::Manifest;
use move_plan::Plan;
use std::alloc::Global;
use tree_fs::Tree;

/// The plan of a settlement: what leads from the disk as it is to the one on which each change is
/// answered by the decider's action, and every row is clean. `changes` is what `all_changes` gives.
///
/// It looks once at each folder above what is put back, then, row by row, at the backup place of
/// each shadowed row that goes, then at `keep/aside` where a file is to be set aside. It lists each
/// own folder below which no file stays, and reads the file of each row that stays and isn't clean.
/// It writes nothing.
pub fn settle_plan<T: Tree, F: Fn(&str, Class) -> Action>(
    alloc: Global,
    tree: &mut T,
    old: &Manifest,
    changes: &[Change],
    decider: &Decider<F>,
) -> Result<Plan, SettleError>
    requires callable { F.IsAlwaysCallable decider.now.choose }
    requires answers { GivesSome (F.post decider.now.choose) }
    requires changes { T.tells →
        changes.now ≡ changes_by (class_of (disk_of (T.story tree.old))) old.now.rows }
    requires told { T.tells → first_blocked (disk_of (T.story tree.old)) old.now.rows ≡ None }
    ensures planned { T.tells →
        (choices : Choices) → GivesChoice (F.post decider.now.choose) choices
        → IfOk result (IsSettlePlan (choice choices) (disk_of (T.story tree.old)) old.now) }
    ensures passes { T.tells →
        (choices : Choices) → GivesChoice (F.post decider.now.choose) choices
        → OnOk result (NoRefusal (choice choices) (disk_of (T.story tree.old)) old.now.rows) }
    ensures sound { T.tells → IfOk result (SoundPlan (disk_of (T.story tree.old))) }
    ensures leads { T.tells →
        let a = disk_of (T.story tree.old) in
        (choices : Choices) → GivesChoice (F.post decider.now.choose) choices
        → old.now ≡ old_of a → IfOk result (λ plan.
        Settled a (choice choices)
        (outcome_by a (Some (record { phase = phase.Set; plan = plan })))) }
    ensures refused { T.tells →
        (choices : Choices) → GivesChoice (F.post decider.now.choose) choices
        → IfErr result
        (IsSettleRefusal (choice choices) (disk_of (T.story tree.old)) old.now.rows) }
    ensures same { T.tells → T.story tree.new ≡ T.story tree.old }
    ensures cause { HasCause Failed (T.faults tree.old) (T.faults tree.new) result }
{
    let _ = old.folders.as_slice();
    let rows = old.rows.as_slice();
    let tasks = tasks(alloc, rows, changes, decider)?;
    let restored = restored_places(alloc, &tasks)?;
    let above = folders_above(alloc, &restored)?;
    let looked = look_at(alloc, tree, &above)?;
    let blocked = in_order(looked.blocked)?;
    let steps = steps(alloc, tree, &blocked, &tasks)?;
    let aside = aside_for(alloc, tree, &steps)?;
    let missing = looked.missing;
    let plan = plan_of(
        alloc,
        tree,
        old,
        &steps,
        missing,
        aside.number,
        aside.is_there,
    )?;
    Ok(plan)
}
