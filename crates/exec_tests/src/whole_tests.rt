// Plans that are carried out whole.
use crate::carrying::{carry_out, failing_at};
use crate::deployments::{
    COVERING, Deployment, FIRST, MAKING, TAKING_OFF, UNCOVERING, desk_text, world_before,
};
use crate::manifests::written_out;
use crate::plans::ready;
use plan_exec::ExecError;
use std::process::Abort;
use test_worlds::{count_steps, steps_of, world};
use tree_mem::MemTree;

const BEGIN: &str = "create keep/intent.tmp
fill keep/intent.tmp
firm keep/intent.tmp
rename keep/intent.tmp keep/intent.json
sync keep
";

// The clear form takes the place of the set form.
const MARK: &str = BEGIN;

const MANIFEST: &str = "create keep/manifest.tmp
fill keep/manifest.tmp
firm keep/manifest.tmp
rename keep/manifest.tmp game/vortex.deployment.json
sync game
sync keep
";

const NO_MANIFEST: &str = "unlink game/vortex.deployment.json
sync game
sync keep
";

const END: &str = "unlink keep/intent.json
sync keep
";

// The steps that were made are these, one piece after the other.
fn check_steps(rt: &(impl AllocGlobal + Abort), tree: &MemTree, pieces: &[&str]) {
    let mut wanted = String::new(rt.alloc());
    for piece in pieces {
        wanted.push_str(*piece).expect(rt, "memory");
    }
    let made = steps_of(rt.alloc(), tree).expect(rt, "memory");
    assert_eq!(rt; made.as_str(), wanted.as_str());
}

// The desk of a disk is the new one.
fn check_desk(rt: &(impl AllocGlobal + Abort), deployment: &Deployment, tree: &mut MemTree) {
    let desk = desk_text(rt, tree);
    let wanted = written_out(rt, deployment.new);
    assert_eq!(rt; desk.as_str(), wanted.as_str());
}

// A deployment makes these steps. Its desk is the new one then, also after a stop.
fn check(rt: &(impl AllocGlobal + Abort), deployment: &Deployment, pieces: &[&str]) {
    let mut tree = world_before(rt, deployment);
    carry_out(rt, &mut tree, &ready(rt, deployment.plan), u64::MAX);
    check_steps(rt, &tree, pieces);
    check_desk(rt, deployment, &mut tree);
    let mut stopped = tree.crash(rt.alloc(), &[0, 0, 0]).expect(rt, "memory");
    check_desk(rt, deployment, &mut stopped);
}

#[test]
fn a_first_deployment_links_its_file(rt: HostRuntime) {
    let sets = "link stage/b/x.txt game/x.txt
sync game
";
    check(&rt, &FIRST, &[BEGIN, sets, MARK, MANIFEST, END]);
}

#[test]
fn a_file_of_the_game_is_saved_before_it_is_covered(rt: HostRuntime) {
    let saves = "link game/x.txt game/x.txt.vortex_backup
sync game
";
    let sets = "unlink game/x.txt
link stage/b/x.txt game/x.txt
sync game
";
    check(&rt, &COVERING, &[BEGIN, saves, sets, MARK, MANIFEST, END]);
}

#[test]
fn a_covered_file_comes_back_before_its_backup_goes(rt: HostRuntime) {
    let sets = "unlink game/x.txt
link game/x.txt.vortex_backup game/x.txt
sync game
";
    let clears = "unlink game/x.txt.vortex_backup
sync game
";
    let pieces = [BEGIN, sets, MARK, NO_MANIFEST, clears, END];
    check(&rt, &UNCOVERING, &pieces);
}

#[test]
fn a_folder_is_made_before_its_file_is_linked(rt: HostRuntime) {
    let sets = "make game/d
link stage/a/d/x.txt game/d/x.txt
sync game/d
";
    check(&rt, &MAKING, &[BEGIN, sets, MARK, MANIFEST, END]);
}

#[test]
fn a_folder_goes_once_its_file_is_gone(rt: HostRuntime) {
    let sets = "unlink game/d/x.txt
sync game/d
";
    let off = "sync game/d
remove game/d
";
    check(&rt, &TAKING_OFF, &[BEGIN, sets, MARK, MANIFEST, off, END]);
}

// What can't be done ends the plan there, and its intent stays for recovery.
#[test]
fn a_source_that_is_gone_leaves_the_intent(rt: HostRuntime) {
    let mut tree = world(rt.alloc(), "stage/b").expect(&rt, "a world");
    let ready = ready(&rt, FIRST.plan);
    match failing_at(&rt, &mut tree, &ready, u64::MAX, false) {
        Ok(()) => panic!(&rt; "it is carried out"),
        Err(error) => assert!(&rt; is_gone(&rt, &error, "stage/b/x.txt"), "{error}"),
    }
    check_steps(&rt, &tree, &[BEGIN]);
}

fn is_gone(rt: &(impl AllocGlobal + Abort), error: &ExecError, wanted: &str) -> bool {
    match error {
        ExecError::SourceGone(place) => {
            place.text(rt.alloc()).expect(rt, "memory").as_str() == wanted
        }
        _ => false,
    }
}

// A thousand lines, each with its number between the first two texts and behind them.
fn numbered(rt: &(impl AllocGlobal + Abort), front: &str, mid: &str, end: &str) -> String {
    let mut text = String::new(rt.alloc());
    for number in 1000..2000 {
        let line = format!(in rt.alloc(); "{front}{number}{mid}{number}{end}\n");
        text.push_str(line.expect(rt, "memory").as_str())
            .expect(rt, "memory");
    }
    text
}

// At most five calls a file, and fifty besides.
#[test]
fn a_thousand_files_in_one_folder_take_few_calls_and_syncs(rt: HostRuntime) {
    let mut plan = numbered(&rt, "set game/d/", " stage/a/d/", "");
    plan.push_str("folder game/d\nmanifest EMPTY")
        .expect(&rt, "memory");
    let lines = numbered(&rt, "stage/a/d/", " = \"", "\"");
    let mut tree = world(rt.alloc(), lines.as_str()).expect(&rt, "a world");
    carry_out(&rt, &mut tree, &ready(&rt, plan.as_str()), 5050);
    assert_eq!(&rt; count_steps(&tree, "link"), 1000);
    assert!(&rt; count_steps(&tree, "sync") <= 16);
}
