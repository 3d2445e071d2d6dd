// A tour over a disk: its mods are looked at, deployed, checked and purged, and what each of these
// finds is counted.
ghost use Rattle.std.specs.Prelude.{◌≡◌, IfOk, IfErr, length};
ghost use Rattle.fault_count.specs.Causes.{HasCause};
ghost use Rattle.tree_fs.specs.Story.{disk_of};
ghost use Rattle.tree_mem.specs.MemStory.{mem_story, faults_of};
ghost use Rattle.desk_model.specs.Outcome.{recorded_or_none};
ghost use Rattle.desk_model.specs.Records.{own_of};
ghost use Rattle.command_steps.specs.Found.{IsWhole};
ghost use Rattle.command_steps.specs.Orders.{Takes};
ghost use Rattle.deploy_engine.specs.Answers.{answer_of};
ghost use Rattle.deploy_engine.specs.ConflictsWork.{conflicts_work};
ghost use Rattle.deploy_engine.specs.SampleWork.{usual_limits};
ghost use Rattle.deploy_engine.specs.Tours.{IsSeen, SeesMods, IsTour, StopsTour};

use crate::commands::check::find_changes;
use crate::commands::conflicts::report_of;
use crate::commands::deploy::deploy_mods;
use crate::commands::purge::purge;
use crate::{Answer, Limits};
use change_detect::Change;
use command_steps::{Looked, Stop, check_start, look_at_winners};
use conflict_report::{Report, Why};
use manifest_json::Manifest;
use std::alloc::{AllocError, Global};
use tour_counts::{Tour, count_decided, count_files, count_scanned};
use tree_fs::{Root, Tree};
use tree_mem::MemTree;

// What a look at the mods counted.
#[derive(Clone, Copy)]
pub(crate) struct Seen {
    pub mods: u64,
    pub files: u64,
    pub winners: u64,
    pub by_override: u64,
    pub by_rule: u64,
    pub by_position: u64,
    pub pairs: u64,
}

fn count_seen(look: &Looked, report: &Report) -> Result<Seen, AllocError>
    ensures { IfOk result (IsSeen look.now report.now) }
{
    let paths = report.paths.as_slice();
    let files = count_scanned(look.scans.as_slice())?;
    Ok(Seen {
        mods: look.ids.as_slice().len() as u64,
        files,
        winners: look.wins.as_slice().len() as u64,
        by_override: count_decided(paths, Why::Override),
        by_rule: count_decided(paths, Why::Rule),
        by_position: count_decided(paths, Why::Position),
        pairs: report.pairs.as_slice().len() as u64,
    })
}

// What `winners` and `conflicts` do, by one look.
fn look_around<T: Tree>(alloc: Global, limits: &Limits, tree: &mut T) -> Result<Seen, Stop>
    ensures takes { T.tells → Takes conflicts_work.steps limits.now
        (T.story tree.old) (T.story tree.new) (SeesMods (disk_of (T.story tree.old))) result }
    ensures same { T.tells → T.story tree.new ≡ T.story tree.old }
    ensures cause { HasCause Stop.TreeFault (T.faults tree.old) (T.faults tree.new) result }
{
    check_start(tree)?;
    let look = look_at_winners(alloc, tree, limits)?;
    let report = report_of(alloc, &look)?;
    let seen = count_seen(&look, &report)?;
    Ok(seen)
}

// How many folders a manifest lists.
fn count_folders(there: &Option<Manifest>) -> u64
    ensures { result ≡ length (own_of (recorded_or_none there.now)) }
{
    match there {
        Some(manifest) => manifest.folders.as_slice().len() as u64,
        None => 0,
    }
}

fn count_changes(changes: &[Change]) -> u64
    ensures { result ≡ length changes.now }
{
    changes.len() as u64
}

/// Looks at the mods, deploys them, checks the deployment and purges it.
pub(crate) fn take_tour<T: Tree>(alloc: Global, limits: &Limits, tree: &mut T) -> Result<Tour, Stop>
    ensures tours { T.tells →
        IfOk result (IsTour limits.now (T.story tree.old) (T.story tree.new)) }
    ensures stopped { T.tells →
        IfErr result (StopsTour limits.now (T.story tree.old) (T.story tree.new)) }
    ensures cause { HasCause Stop.TreeFault (T.faults tree.old) (T.faults tree.new) result }
{
    let seen = look_around(alloc, limits, tree)?;
    let deployment = deploy_mods(alloc, limits, tree)?;
    let checked = find_changes(alloc, limits, tree)?;
    purge(alloc, limits, tree)?;
    let plain = count_files(alloc, tree, Root::Game)?;
    Ok(Tour {
        mods: seen.mods,
        files: seen.files,
        winners: seen.winners,
        by_override: seen.by_override,
        by_rule: seen.by_rule,
        by_position: seen.by_position,
        pairs: seen.pairs,
        saved: deployment.saves,
        folders: count_folders(&checked.there),
        changes: count_changes(checked.changes.as_slice()),
        plain,
    })
}

/// Does on a world what `winners`, `conflicts`, `deploy`, `check` and `purge` do with the usual
/// limits, one after the other and without printing, and counts what they find.
///
/// The error is the first of their answers that is `Refused`, `RecoverFirst`, `TreeFault` or
/// `Memory`; the commands before it are done.
pub fn tour(alloc: Global, world: &mut MemTree) -> Result<Tour, Answer>
    ensures tours { IfOk result (IsTour usual_limits (mem_story world.old) (mem_story world.new)) }
    ensures stopped { IfErr result (λ answer. (stop : Stop) × (answer ≡ answer_of stop)
        × StopsTour usual_limits (mem_story world.old) (mem_story world.new) stop) }
    ensures cause { HasCause Answer.TreeFault (faults_of world.old) (faults_of world.new) result }
{
    match take_tour(alloc, &Limits::usual(), world) {
        Ok(tour) => Ok(tour),
        Err(stop) => Err(answer_of(stop)),
    }
}

fn answer_of(stop: Stop) -> Answer
    ensures { result ≡ answer_of stop }
{
    match stop {
        Stop::Refused(refusal) => Answer::Refused(refusal),
        Stop::RecoverFirst => Answer::RecoverFirst,
        Stop::TreeFault => Answer::TreeFault,
        Stop::Memory => Answer::Memory,
    }
}
