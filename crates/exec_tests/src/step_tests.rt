// The steps of a plan, each by itself.
use crate::looks::need_open_places;
use crate::plans::ready;
use intent_journal::Ready;
use plan_exec::{ExecError, do_clears, do_saves, do_sets, make_folders, put_manifest};
use std::process::Abort;
use test_worlds::{fail_call, steps_of, world};
use tree_mem::MemTree;

// A step of a plan.
#[derive(Clone, Copy)]
enum Step {
    Folders,
    Saves,
    Sets,
    Manifest,
    Clears,
}

fn done(
    rt: &(impl AllocGlobal + Abort),
    step: Step,
    tree: &mut MemTree,
    plan: &str,
) -> Result<(), ExecError> {
    let ready = ready(rt, plan);
    match step {
        Step::Folders => make_folders(tree, &ready),
        Step::Saves => do_saves(tree, &ready),
        Step::Sets => do_sets(tree, &ready),
        Step::Manifest => put_its_manifest(rt, tree, &ready),
        Step::Clears => do_clears(tree, &ready),
    }
}

fn put_its_manifest(
    rt: &(impl AllocGlobal + Abort),
    tree: &mut MemTree,
    ready: &Ready,
) -> Result<(), ExecError> {
    need_open_places(tree).expect(rt, "open places");
    put_manifest(tree, ready)
}

fn answer(rt: &(impl AllocGlobal + Abort), outcome: Result<(), ExecError>) -> String {
    match outcome {
        Ok(()) => format!(in rt.alloc(); "done").expect(rt, "memory"),
        Err(e) => format!(in rt.alloc(); "{e}").expect(rt, "memory"),
    }
}

// What a step of a plan answers on a world, and its steps there.
fn check(
    rt: &(impl AllocGlobal + Abort),
    step: Step,
    lines: &str,
    plan: &str,
    wanted: &str,
    steps: &str,
) {
    let mut tree = world(rt.alloc(), lines).expect(rt, "a world");
    let found = answer(rt, done(rt, step, &mut tree, plan));
    assert_eq!(rt; found.as_str(), wanted);
    let made = steps_of(rt.alloc(), &tree).expect(rt, "memory");
    assert_eq!(rt; made.as_str(), steps);
}

const FOLDERS: &str = "folder game/d\nfolder game/d/e";

const DEEP: &str = "folder game/d/e";

#[test]
fn folders_are_made_where_none_is(rt: HostRuntime) {
    for (lines, plan, wanted, steps) in [
        ("", FOLDERS, "done", "make game/d\nmake game/d/e\n"),
        ("game/d", FOLDERS, "done", "make game/d/e\n"),
        ("game/d/e", FOLDERS, "done", ""),
        ("game/d = \"g\"", FOLDERS, "game/d is in the way", ""),
        ("game/d/e = \"g\"", FOLDERS, "game/d/e is in the way", ""),
        // a folder whose parent is none
        ("", DEEP, "game/d is in the way", ""),
        ("game/d = \"g\"", DEEP, "game/d is in the way", ""),
    ] {
        check(&rt, Step::Folders, lines, plan, wanted, steps);
    }
}

const SAVE: &str = "save game/x game/x.vortex_backup
set game/x stage/b/x game/x.vortex_backup";

const TWO_SAVES: &str = "save game/x game/x.vortex_backup
save game/y game/y.vortex_backup
set game/x stage/b/x game/x.vortex_backup
set game/y - game/y.vortex_backup";

const ASIDE: &str = "save game/x keep/aside/1/game/x
set game/x stage/b/x keep/aside/1/game/x";

#[test]
fn saves_are_linked_where_nothing_stands(rt: HostRuntime) {
    for (lines, plan, wanted, steps) in [
        (
            "game/x = \"g\"",
            SAVE,
            "done",
            "link game/x game/x.vortex_backup\nsync game\n",
        ),
        // a destination that is a file needs no source
        ("game/x.vortex_backup = \"g\"", SAVE, "done", "sync game\n"),
        ("", SAVE, "game/x is no file", ""),
        ("game/x", SAVE, "game/x is no file", ""),
        // the source is looked at before the place, and the place before its parent
        ("game/x.vortex_backup", SAVE, "game/x is no file", ""),
        (
            "game/x = \"g\"\ngame/x.vortex_backup",
            SAVE,
            "game/x.vortex_backup is in the way",
            "",
        ),
        (
            "game/x = \"g\"",
            ASIDE,
            "keep/aside/1/game is in the way",
            "",
        ),
        (
            "game/x = \"g\"\nkeep/aside/1/game",
            ASIDE,
            "done",
            "link game/x keep/aside/1/game/x\nsync keep/aside/1/game\n",
        ),
        // the saves in front are done
        (
            "game/x = \"g\"",
            TWO_SAVES,
            "game/y is no file",
            "link game/x game/x.vortex_backup\n",
        ),
        // one sync for both
        (
            "game/x = \"g\"\ngame/y = \"h\"",
            TWO_SAVES,
            "done",
            "link game/x game/x.vortex_backup\nlink game/y game/y.vortex_backup\nsync game\n",
        ),
    ] {
        check(&rt, Step::Saves, lines, plan, wanted, steps);
    }
}

const SET: &str = "set game/d/x stage/b/x";

const GONE: &str = "set game/d/x -";

const THREE: &str = "set game/d/x stage/b/x\nset game/d/y -\nset game/z stage/b/z";

#[test]
fn sets_give_each_place_its_file(rt: HostRuntime) {
    for (lines, plan, wanted, steps) in [
        (
            "stage/b/x = \"abc\"\ngame/d",
            SET,
            "done",
            "link stage/b/x game/d/x\nsync game/d\n",
        ),
        (
            "stage/b/x = \"abc\"\ngame/d/x = \"g\"",
            SET,
            "done",
            "unlink game/d/x\nlink stage/b/x game/d/x\nsync game/d\n",
        ),
        (
            "game/d/x = \"g\"",
            GONE,
            "done",
            "unlink game/d/x\nsync game/d\n",
        ),
        ("game/d", GONE, "done", "sync game/d\n"),
        // a place that is no folder isn't synced
        ("", GONE, "done", ""),
        ("", SET, "stage/b/x is no file", ""),
        ("game/d/x", SET, "stage/b/x is no file", ""),
        ("game/d/x", GONE, "game/d/x is in the way", ""),
        (
            "stage/b/x = \"abc\"\ngame/d/x",
            SET,
            "game/d/x is in the way",
            "",
        ),
        ("stage/b/x = \"abc\"", SET, "game/d is in the way", ""),
        (
            "stage/b/x = \"abc\"\ngame/d = \"g\"",
            SET,
            "game/d is in the way",
            "",
        ),
        // each folder is synced once, after all sets
        (
            "stage/b/x = \"abc\"\nstage/b/z = \"\"\ngame/d/y = \"g\"\ngame/z = \"g\"",
            THREE,
            "done",
            "link stage/b/x game/d/x
unlink game/d/y
unlink game/z
link stage/b/z game/z
sync game
sync game/d
",
        ),
        // the sets in front are done
        (
            "stage/b/x = \"abc\"\ngame/d/y = \"g\"",
            THREE,
            "stage/b/z is no file",
            "link stage/b/x game/d/x\nunlink game/d/y\n",
        ),
    ] {
        check(&rt, Step::Sets, lines, plan, wanted, steps);
    }
}

const NEW_MANIFEST: &str = "create keep/manifest.tmp
fill keep/manifest.tmp
firm keep/manifest.tmp
rename keep/manifest.tmp game/vortex.deployment.json
sync game
sync keep
";

const RENEWED_MANIFEST: &str = "unlink keep/manifest.tmp
create keep/manifest.tmp
fill keep/manifest.tmp
firm keep/manifest.tmp
rename keep/manifest.tmp game/vortex.deployment.json
sync game
sync keep
";

const MANIFEST: &str = "game/vortex.deployment.json = \"{}\"";

const OLD_TEMP: &str = "game/vortex.deployment.json = \"{}\"\nkeep/manifest.tmp = \"{\"";

#[test]
fn a_manifest_comes_by_its_temp_or_goes(rt: HostRuntime) {
    for (lines, plan, steps) in [
        ("", "manifest EMPTY", NEW_MANIFEST),
        (MANIFEST, "manifest EMPTY", NEW_MANIFEST),
        (OLD_TEMP, "manifest EMPTY", RENEWED_MANIFEST),
        ("", "", "sync game\nsync keep\n"),
        (
            MANIFEST,
            "",
            "unlink game/vortex.deployment.json\nsync game\nsync keep\n",
        ),
    ] {
        check(&rt, Step::Manifest, lines, plan, "done", steps);
    }
}

const CLEARS: &str = "clear game/x.vortex_backup\nclear keep/aside/1/game/x";

#[test]
fn clears_take_each_file(rt: HostRuntime) {
    for (lines, wanted, steps) in [
        (
            "game/x.vortex_backup = \"g\"\nkeep/aside/1/game/x = \"h\"",
            "done",
            "unlink game/x.vortex_backup
unlink keep/aside/1/game/x
sync game
sync keep/aside/1/game
",
        ),
        ("", "done", "sync game\n"),
        (
            "game/x.vortex_backup",
            "game/x.vortex_backup is in the way",
            "",
        ),
        (
            "game/x.vortex_backup = \"g\"\nkeep/aside/1/game/x",
            "keep/aside/1/game/x is in the way",
            "unlink game/x.vortex_backup\n",
        ),
    ] {
        check(&rt, Step::Clears, lines, CLEARS, wanted, steps);
    }
}

const OFF: &str = "remove game/d/e\nremove game/d";

#[test]
fn folders_go_where_they_are_empty(rt: HostRuntime) {
    for (lines, steps) in [
        (
            "game/d/e",
            "sync game/d/e\nremove game/d/e\nsync game/d\nremove game/d\n",
        ),
        ("game/d", "sync game/d\nremove game/d\n"),
        ("", ""),
        // what others put there keeps it
        ("game/d/e/y = \"y\"", ""),
        (
            "game/d/e\ngame/d/y = \"y\"",
            "sync game/d/e\nremove game/d/e\n",
        ),
        ("game/d = \"g\"", ""),
    ] {
        check(&rt, Step::Clears, lines, OFF, "done", steps);
    }
}

// The steps of a set over a file where this call fails, done or not.
fn check_fault(rt: &(impl AllocGlobal + Abort), call: u64, was_done: bool, steps: &str) {
    let lines = "stage/b/x = \"abc\"\ngame/d/x = \"g\"";
    let mut tree = world(rt.alloc(), lines).expect(rt, "a world");
    fail_call(rt.alloc(), &mut tree, call, was_done).expect(rt, "memory");
    let found = answer(rt, done(rt, Step::Sets, &mut tree, SET));
    assert_eq!(rt; found.as_str(), "the file system failed");
    let made = steps_of(rt.alloc(), &tree).expect(rt, "memory");
    assert_eq!(rt; made.as_str(), steps);
}

// The source, the place, its parent, the unlink, the link, the folder and its sync.
#[test]
fn a_fault_ends_a_step(rt: HostRuntime) {
    for (call, was_done, steps) in [
        (0, false, ""),
        (1, false, ""),
        (2, false, ""),
        (3, false, "unlink game/d/x (not done)\n"),
        (3, true, "unlink game/d/x\n"),
        (
            4,
            false,
            "unlink game/d/x\nlink stage/b/x game/d/x (not done)\n",
        ),
        (4, true, "unlink game/d/x\nlink stage/b/x game/d/x\n"),
        (5, false, "unlink game/d/x\nlink stage/b/x game/d/x\n"),
        (
            6,
            false,
            "unlink game/d/x\nlink stage/b/x game/d/x\nsync game/d (not done)\n",
        ),
        (
            6,
            true,
            "unlink game/d/x\nlink stage/b/x game/d/x\nsync game/d\n",
        ),
    ] {
        check_fault(&rt, call, was_done, steps);
    }
}
