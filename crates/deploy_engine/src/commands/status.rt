// `status`: tells how much is deployed, and which intent stands.
ghost use Rattle.std.specs.Prelude.{◌≡◌};
ghost use Rattle.fault_count.specs.Causes.{HasCause};
ghost use Rattle.deploy_engine.specs.StatusWork.{files_in, folders_in, state_of, status_work};
ghost use Rattle.deploy_engine.specs.Carried.{Carried};

use crate::Limits;
use crate::commands::Report;
use answer_lines::{IntentState, Totals, total_lines};
use command_steps::{Stop, check_controls, intent_of, manifest_of};
use intent_json::{Intent, Phase};
use manifest_json::Manifest;
use std::alloc::Global;
use tree_fs::Tree;

pub(crate) fn tell_status<T: Tree>(
    alloc: Global,
    limits: &Limits,
    tree: &mut T,
) -> Result<Report, Stop>
    ensures carried { T.tells →
        Carried status_work limits.now (T.story tree.old) (T.story tree.new) result }
    ensures cause { HasCause Stop.TreeFault (T.faults tree.old) (T.faults tree.new) result }
{
    check_controls(tree)?;
    let there = manifest_of(alloc, tree, limits)?;
    let found = intent_of(alloc, tree)?;
    let lines = total_lines(alloc, &totals_of(&there, &found))?;
    Ok(Report {
        lines,
        changes: false,
    })
}

fn totals_of(there: &Option<Manifest>, found: &Option<Intent>) -> Totals
    ensures { result
        ≡ Totals.Status (files_in there.now) (folders_in there.now) (state_of found.now) }
{
    Totals::Status {
        files: files_in(there),
        folders: folders_in(there),
        intent: state_of(found),
    }
}

fn files_in(there: &Option<Manifest>) -> u64
    ensures { result ≡ files_in there.now }
{
    match there {
        Some(manifest) => manifest.rows.as_slice().len() as u64,
        None => 0,
    }
}

fn folders_in(there: &Option<Manifest>) -> u64
    ensures { result ≡ folders_in there.now }
{
    match there {
        Some(manifest) => manifest.folders.as_slice().len() as u64,
        None => 0,
    }
}

fn state_of(found: &Option<Intent>) -> IntentState
    ensures { result ≡ state_of found.now }
{
    match found {
        None => IntentState::None,
        Some(intent) => match intent.phase {
            Phase::Set => IntentState::Set,
            Phase::Clear => IntentState::Clear,
        },
    }
}
