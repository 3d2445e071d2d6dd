// `recover`: carries what a stopped command has begun to its end.
ghost use Rattle.std.specs.Prelude.{◌≡◌, ◌⊎◌, IfOk, IfErr, IfSome, OnOk};
ghost use Rattle.fault_count.specs.Causes.{HasCause};
ghost use Rattle.tree_fs.specs.Story.{disk_of};
ghost use Rattle.intent_json.specs.Accepted.{IsAccepted};
ghost use Rattle.desk_model.specs.Places.{manifest_spot};
ghost use Rattle.intent_journal.specs.declared.temp.Temp.TheVariants as temp;
ghost use Rattle.intent_journal.specs.Forms.{CanChange};
ghost use Rattle.intent_journal.specs.Found.{IsFound};
ghost use Rattle.intent_journal.specs.Temps.{temp_spot, IsFileOrAbsent};
ghost use Rattle.plan_exec.specs.Ending.{IsEnd};
ghost use Rattle.recover_run.specs.Recovery.{IsSwept};
ghost use Rattle.command_steps.specs.declared.limits.Limits.{Limits};
ghost use Rattle.command_steps.specs.Stops.{IsFault};
ghost use Rattle.deploy_engine.specs.Carried.{Carried};
ghost use Rattle.deploy_engine.specs.RecoverWork.{recover_work, recover_stop, recovery_line, IsStuck, Resumes};

use crate::commands::Report;
use answer_lines::{FixedLine, PlanRefusal, RecoveryRefusal, Refusal, Totals, total_lines};
use command_steps::{Stop, intent_of, start_recovery};
use intent_json::Intent;
use recover_run::{RecoverError, resume};
use std::alloc::{AllocError, Global};
use tree_fs::Tree;

// Why the command stops where recovery does.
fn recover_stop(error: RecoverError) -> Stop
    ensures { result ≡ recover_stop error }
{
    match error {
        RecoverError::BadIntent => Stop::Refused(Refusal::Recovery(RecoveryRefusal::BadIntent)),
        RecoverError::SourceGone(place) => {
            Stop::Refused(Refusal::Recovery(RecoveryRefusal::SourceGone(place)))
        }
        RecoverError::Blocked(place) => Stop::Refused(Refusal::Plan(PlanRefusal::Blocked(place))),
        RecoverError::Failed => Stop::TreeFault,
        RecoverError::Memory => Stop::Memory,
    }
}

// The line of an intent that stands, or that none does.
fn recovery_text(alloc: Global, found: &Option<Intent>) -> Result<Vec<u8>, AllocError>
    ensures { IfOk result (λ line. line.items ≡ recovery_line found.now) }
{
    match found {
        Some(intent) => total_lines(
            alloc,
            &Totals::Recovered {
                sets: intent.plan.sets.as_slice().len() as u64,
                clears: intent.plan.clears.as_slice().len() as u64,
            },
        ),
        None => Vec::from_clones(alloc, FixedLine::NothingToRecover.text().as_bytes()),
    }
}

// An intent that was found is carried to its end.
fn resume_found<T: Tree>(alloc: Global, tree: &mut T, found: Option<Intent>) -> Result<(), Stop>
    requires accepted { IfSome found IsAccepted }
    requires found { T.tells → IsFound (disk_of (T.story tree.old)) found }
    requires start { T.tells → CanChange (disk_of (T.story tree.old)) }
    requires temp { T.tells → IsFileOrAbsent
        (disk_of (T.story tree.old)) (temp_spot temp.Manifest) }
    requires place { T.tells → IsFileOrAbsent (disk_of (T.story tree.old)) manifest_spot }
    ensures resumes { T.tells → Resumes (T.story tree.old) (T.story tree.new) }
    ensures ends { T.tells → OnOk result (IsSwept (disk_of (T.story tree.old)) →
        IsEnd (disk_of (T.story tree.old)) (disk_of (T.story tree.new))) }
    ensures stuck { T.tells → IfErr result (λ stop. IsFault stop
        ⊎ IsStuck (disk_of (T.story tree.old)) stop) }
    ensures cause { HasCause Stop.TreeFault (T.faults tree.old) (T.faults tree.new) result }
{
    match found {
        Some(intent) => match resume(alloc, tree, intent) {
            Ok(_) => Ok(()),
            Err(error) => Err(recover_stop(error)),
        },
        None => Ok(()),
    }
}

pub(crate) fn recover_left<T: Tree>(alloc: Global, tree: &mut T) -> Result<Report, Stop>
    ensures carried { T.tells → (limits : Limits) →
        Carried recover_work limits (T.story tree.old) (T.story tree.new) result }
    ensures cause { HasCause Stop.TreeFault (T.faults tree.old) (T.faults tree.new) result }
{
    start_recovery(tree)?;
    let found = intent_of(alloc, tree)?;
    let lines = recovery_text(alloc, &found)?;
    resume_found(alloc, tree, found)?;
    Ok(Report {
        lines,
        changes: false,
    })
}
