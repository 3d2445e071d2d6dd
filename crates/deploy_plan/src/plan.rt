// The plan of a deployment.
ghost use Rattle.std.specs.Prelude.{◌≡◌, ◌++◌, IfOk, map};
ghost use Rattle.std.specs.List.{AllByRecursion};
ghost use Rattle.rel_paths.specs.Names.{IsFreePath};
ghost use Rattle.tree_fs.specs.Calls.{HasCause};
ghost use Rattle.tree_fs.specs.Story.{disk_of};
ghost use Rattle.stage_scan.specs.Files.{HasSamePaths};
ghost use Rattle.manifest_json.specs.Paths.{AreRising};
ghost use Rattle.deploy_plan.specs.Walk.{merged};
ghost use Rattle.deploy_plan.specs.Missing.{AreNoted};
ghost use Rattle.deploy_plan.specs.Plans.{CanDeploy, DeployPlan};
ghost use Rattle.deploy_plan.specs.Told.{AreGoodWins, IsGoodCase, case_seen, step_win, told, told_win_of, win_seen};

use crate::cases::PathCase;
use crate::folders::emptied_paths;
use crate::lists::{clears_of, saves_of, sets_of};
use crate::rows::rows_of;
use crate::wins::Won;
use manifest_json::{Manifest, Paths, Rows};
use move_plan::{Places, Plan, Saves, Sets};
use plan_lists::{game_places, in_order, own_folders};
use rel_paths::RelPath;
use std::alloc::{AllocError, Global};
use tree_fs::{Tree, TreeError};

fn joined(mut kept: Vec<RelPath>, made: &[RelPath]) -> Result<Vec<RelPath>, AllocError>
    ensures { IfOk result (λ all. all.items ≡ kept.items ++ made.now) }
{
    for path in made {
        kept.push(path.copy()?)?;
    }
    Ok(kept)
}

// The own folders after: those that stay, and those that are made.
fn own_after(kept: Vec<RelPath>, made: &[RelPath]) -> Result<Paths, AllocError>
    requires kept { AllByRecursion IsFreePath kept.items }
    requires made { AllByRecursion IsFreePath made.now }
    ensures rise { IfOk result (λ own. AreRising own) }
    ensures same { IfOk result (λ own. HasSamePaths (kept.items ++ made.now) own) }
{
    let all = in_order(joined(kept, made)?)?;
    Ok(Paths::new(all))
}

/// The plan of a deployment where nothing is in the way of its paths.
pub(crate) fn plan_of<T: Tree>(
    alloc: Global,
    tree: &mut T,
    old: &Manifest,
    wins: &[Won],
    cases: &[PathCase],
    missing: Vec<RelPath>,
) -> Result<Plan, TreeError>
    requires wins { AreGoodWins (map win_seen wins.now) }
    requires good { AllByRecursion (λ c. IsGoodCase (case_seen c)) cases.now }
    requires kept { map (λ c. told_win_of (case_seen c)) cases.now
        ≡ map step_win (merged old.now.rows (map win_seen wins.now)) }
    requires free { AllByRecursion IsFreePath missing.items }
    requires can { T.tells →
        CanDeploy (disk_of (T.story tree.old)) old.now (map win_seen wins.now) }
    requires cases { T.tells →
        let a = disk_of (T.story tree.old) in
        map case_seen cases.now ≡ map (told a) (merged old.now.rows (map win_seen wins.now)) }
    requires noted { T.tells →
        AreNoted (disk_of (T.story tree.old)) (merged old.now.rows (map win_seen wins.now))
        missing.items }
    ensures planned { T.tells →
        IfOk result (DeployPlan (disk_of (T.story tree.old)) old.now (map win_seen wins.now)) }
    ensures same { T.tells → T.story tree.new ≡ T.story tree.old }
    ensures cause { HasCause (T.faults tree.old) (T.faults tree.new) result }
{
    let sets = sets_of(alloc, cases)?;
    let saves = saves_of(alloc, cases)?;
    let clears = clears_of(alloc, cases)?;
    let made = in_order(missing)?;
    let folders = game_places(alloc, &made)?;
    let emptied = in_order(emptied_paths(alloc, cases)?)?;
    let own = own_folders(alloc, tree, old.folders.as_slice(), wins, &emptied)?;
    let folders_off = game_places(alloc, &own.off)?;
    let next = own_after(own.kept, &made)?;
    let rows = Rows::new(rows_of(alloc, tree, cases)?);
    Ok(Plan {
        folders: Places::new(folders),
        saves: Saves::new(saves),
        sets: Sets::new(sets),
        manifest: Some(Manifest {
            rows,
            folders: next,
        }),
        clears: Places::new(clears),
        folders_off: Places::new(folders_off),
    })
}
