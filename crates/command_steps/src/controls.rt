// The control places, an intent that was left, and the barrier.
ghost use Rattle.std.specs.Prelude.{◌≡◌, ◌∷◌, [], OnOk};
ghost use Rattle.fault_count.specs.Causes.{HasCause};
ghost use Rattle.tree_fs.specs.declared.name.Kind.TheVariants.{Absent};
ghost use Rattle.tree_fs.specs.declared.place.Root.TheVariants.{Keep};
ghost use Rattle.tree_fs.specs.Spot.{root_spot};
ghost use Rattle.tree_fs.specs.Disk.{kind_of};
ghost use Rattle.tree_fs.specs.Frames.{EntriesSettled};
ghost use Rattle.tree_fs.specs.Story.{Along, disk_of};
ghost use Rattle.intent_journal.specs.declared.temp.Temp.{Temp};
ghost use Rattle.intent_journal.specs.Counts.{SyncsAtMost};
ghost use Rattle.intent_journal.specs.Sweeps.{Sweeps};
ghost use Rattle.intent_journal.specs.Temps.{temp_spot, IsFileOrAbsent};
ghost use Rattle.command_steps.specs.declared.limits.Limits.{Limits};
ghost use Rattle.command_steps.specs.declared.stop.Stop.TheVariants.{TreeFault};
ghost use Rattle.command_steps.specs.Steps.{fine, no_intent, barrier, Nothing};
ghost use Rattle.command_steps.specs.Orders.{Takes, guards, start, change_start, recover_start};

use crate::Stop;
use answer_lines::{PlanRefusal, Refusal};
use intent_journal::sweep_temps;
use rel_paths::Control;
use tree_fs::{Kind, Place, Tree};

// That nothing but a file stands at a control place.
fn check_fine<T: Tree>(tree: &mut T, which: &Control) -> Result<(), Stop>
    ensures takes { T.tells → (limits : Limits)
        → Takes (fine which.now ∷ []) limits (T.story tree.old) (T.story tree.new) Nothing result }
    ensures same { T.tells → T.story tree.new ≡ T.story tree.old }
    ensures cause { HasCause TreeFault (T.faults tree.old) (T.faults tree.new) result }
{
    let place = Place::control(*which);
    match tree.kind(&place)? {
        Kind::Absent => Ok(()),
        Kind::File => Ok(()),
        _ => Err(Stop::Refused(Refusal::Plan(PlanRefusal::Blocked(place)))),
    }
}

/// That nothing but files stand at the control places. The first at which something else does is
/// told as `Blocked`.
pub fn check_controls<T: Tree>(tree: &mut T) -> Result<(), Stop>
    ensures takes { T.tells → (limits : Limits)
        → Takes guards limits (T.story tree.old) (T.story tree.new) Nothing result }
    ensures same { T.tells → T.story tree.new ≡ T.story tree.old }
    ensures cause { HasCause TreeFault (T.faults tree.old) (T.faults tree.new) result }
{
    for which in Control::in_order() {
        check_fine(tree, which)?;
    }
    Ok(())
}

/// That no command was stopped before: no file stands at the intent's place.
pub fn check_no_intent<T: Tree>(tree: &mut T) -> Result<(), Stop>
    ensures takes { T.tells → (limits : Limits)
        → Takes (no_intent ∷ []) limits (T.story tree.old) (T.story tree.new) Nothing result }
    ensures same { T.tells → T.story tree.new ≡ T.story tree.old }
    ensures cause { HasCause TreeFault (T.faults tree.old) (T.faults tree.new) result }
{
    match tree.kind(&Place::control(Control::Intent))? {
        Kind::File => Err(Stop::RecoverFirst),
        _ => Ok(()),
    }
}

/// What a command that only looks takes first: the control places, then that no command was stopped
/// before.
pub fn check_start<T: Tree>(tree: &mut T) -> Result<(), Stop>
    ensures takes { T.tells → (limits : Limits)
        → Takes start limits (T.story tree.old) (T.story tree.new) Nothing result }
    ensures same { T.tells → T.story tree.new ≡ T.story tree.old }
    ensures cause { HasCause TreeFault (T.faults tree.old) (T.faults tree.new) result }
{
    check_controls(tree)?;
    check_no_intent(tree)
}

/// The barrier: old temps are taken away, and `keep` is settled.
pub fn run_barrier<T: Tree>(tree: &mut T) -> Result<(), Stop>
    requires { T.tells → (which : Temp)
        → IsFileOrAbsent (disk_of (T.story tree.old)) (temp_spot which) }
    ensures takes { T.tells → (limits : Limits)
        → Takes (barrier ∷ []) limits (T.story tree.old) (T.story tree.new) Nothing result }
    ensures stops { T.tells →
        Along (Sweeps (disk_of (T.story tree.old))) (T.story tree.old) (T.story tree.new) }
    ensures gone { T.tells → OnOk result ((which : Temp)
        → kind_of (disk_of (T.story tree.new)) (temp_spot which) ≡ Absent) }
    ensures settled { T.tells →
        OnOk result (EntriesSettled (disk_of (T.story tree.new)) (root_spot Keep)) }
    ensures syncs { T.tells → SyncsAtMost 1 (T.story tree.old) (T.story tree.new) }
    ensures cause { HasCause TreeFault (T.faults tree.old) (T.faults tree.new) result }
{
    Ok(sweep_temps(tree)?)
}

/// What a command that changes something takes first: what one that looks does, then the barrier.
pub fn start_change<T: Tree>(tree: &mut T) -> Result<(), Stop>
    ensures takes { T.tells → (limits : Limits)
        → Takes change_start limits (T.story tree.old) (T.story tree.new) Nothing result }
    ensures stops { T.tells →
        Along (Sweeps (disk_of (T.story tree.old))) (T.story tree.old) (T.story tree.new) }
    ensures gone { T.tells → OnOk result ((which : Temp)
        → kind_of (disk_of (T.story tree.new)) (temp_spot which) ≡ Absent) }
    ensures settled { T.tells →
        OnOk result (EntriesSettled (disk_of (T.story tree.new)) (root_spot Keep)) }
    ensures syncs { T.tells → SyncsAtMost 1 (T.story tree.old) (T.story tree.new) }
    ensures cause { HasCause TreeFault (T.faults tree.old) (T.faults tree.new) result }
{
    check_start(tree)?;
    run_barrier(tree)
}

/// What a recovery takes first: the control places, then the barrier.
pub fn start_recovery<T: Tree>(tree: &mut T) -> Result<(), Stop>
    ensures takes { T.tells → (limits : Limits)
        → Takes recover_start limits (T.story tree.old) (T.story tree.new) Nothing result }
    ensures stops { T.tells →
        Along (Sweeps (disk_of (T.story tree.old))) (T.story tree.old) (T.story tree.new) }
    ensures gone { T.tells → OnOk result ((which : Temp)
        → kind_of (disk_of (T.story tree.new)) (temp_spot which) ≡ Absent) }
    ensures settled { T.tells →
        OnOk result (EntriesSettled (disk_of (T.story tree.new)) (root_spot Keep)) }
    ensures syncs { T.tells → SyncsAtMost 1 (T.story tree.old) (T.story tree.new) }
    ensures cause { HasCause TreeFault (T.faults tree.old) (T.faults tree.new) result }
{
    check_controls(tree)?;
    run_barrier(tree)
}
