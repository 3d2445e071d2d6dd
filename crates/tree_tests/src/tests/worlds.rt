// Calls on small worlds, and a large one.
use std::process::Abort;
use test_worlds::{
    WorldError, bytes_of, edit_outside, fail_call, is_same_file, link, listed, make_folder,
    put_new, put_outside, remove_folder, remove_outside, rename, shown, size_of, steps_of,
    sync_file, sync_folder, unlink, world,
};
use tree_fs::{Tree, TreeError};
use tree_mem::MemTree;

fn small_world(rt: &(impl AllocGlobal + Abort)) -> MemTree {
    world(
        rt.alloc(),
        "stage/b/x = \"one\"
         stage/b/x.d/
         stage/a.txt = \"two\"
         stage/b/w = stage/b/x",
    )
    .expect(rt, "a world")
}

fn check_shown(rt: &(impl AllocGlobal + Abort), tree: &mut MemTree, folder: &str, wanted: &str) {
    let found = shown(rt.alloc(), tree, folder).expect(rt, "a text");
    assert_eq!(rt; found.as_str(), wanted);
}

fn check_steps(rt: &(impl AllocGlobal + Abort), tree: &MemTree, wanted: &str) {
    let found = steps_of(rt.alloc(), tree).expect(rt, "a text");
    assert_eq!(rt; found.as_str(), wanted);
}

const STAGE: &str = "stage/a.txt = \"two\"
stage/b/
stage/b/w = \"one\"
stage/b/x = \"one\"
stage/b/x.d/
";

#[test]
fn a_world_is_built_and_listed(rt: HostRuntime) {
    let mut tree = small_world(&rt);
    check_shown(&rt, &mut tree, "stage", STAGE);
    check_shown(&rt, &mut tree, "game", "");
    check_steps(&rt, &tree, "");
}

// Whether the place is a name of the file `stage/b/x`.
fn check_same(rt: &(impl AllocGlobal + Abort), tree: &mut MemTree, at: &str, wanted: bool) {
    let same = is_same_file(rt.alloc(), tree, "stage/b/x", at);
    assert_eq!(rt; same.expect(rt, "an answer"), wanted);
}

#[test]
fn two_names_are_of_one_file_or_two(rt: HostRuntime) {
    let mut tree = small_world(&rt);
    check_same(&rt, &mut tree, "stage/b/w", true);
    check_same(&rt, &mut tree, "stage/a.txt", false);
    unlink(rt.alloc(), &mut tree, "stage/b/x").expect(&rt, "a step");
    let kept = bytes_of(rt.alloc(), &mut tree, "stage/b/w").expect(&rt, "bytes");
    assert_eq!(&rt; kept.as_slice(), b"one".as_slice());
}

#[test]
fn a_rename_of_two_names_of_one_file_keeps_both(rt: HostRuntime) {
    let mut tree = small_world(&rt);
    rename(rt.alloc(), &mut tree, "stage/b/w", "stage/b/x").expect(&rt, "a step");
    check_shown(&rt, &mut tree, "stage", STAGE);
    rename(rt.alloc(), &mut tree, "stage/a.txt", "stage/b/x").expect(&rt, "a step");
    let left = "stage/b/\nstage/b/w = \"one\"\nstage/b/x = \"two\"\nstage/b/x.d/\n";
    check_shown(&rt, &mut tree, "stage", left);
}

#[test]
fn others_change_a_file_under_all_its_names(rt: HostRuntime) {
    let mut tree = small_world(&rt);
    edit_outside(rt.alloc(), &mut tree, "stage/b/w", b"other").expect(&rt, "a change");
    remove_outside(rt.alloc(), &mut tree, "stage/a.txt").expect(&rt, "a change");
    put_outside(rt.alloc(), &mut tree, "stage/n", b"new").expect(&rt, "a change");
    let left = "stage/b/
stage/b/w = \"other\"
stage/b/x = \"other\"
stage/b/x.d/
stage/n = \"new\"
";
    check_shown(&rt, &mut tree, "stage", left);
    check_steps(&rt, &tree, "");
}

#[test]
fn a_file_is_made_synced_and_unlinked(rt: HostRuntime) {
    let mut tree = small_world(&rt);
    put_new(rt.alloc(), &mut tree, "game/n", b"bytes").expect(&rt, "a step");
    sync_file(rt.alloc(), &mut tree, "game/n").expect(&rt, "a step");
    let size = size_of(rt.alloc(), &mut tree, "game/n").expect(&rt, "a size");
    assert_eq!(&rt; size, 5);
    unlink(rt.alloc(), &mut tree, "game/n").expect(&rt, "a step");
    check_shown(&rt, &mut tree, "game", "");
    let steps = "create game/n\nfill game/n\nfirm game/n\nunlink game/n\n";
    check_steps(&rt, &tree, steps);
}

#[test]
fn a_folder_is_made_and_removed(rt: HostRuntime) {
    let mut tree = small_world(&rt);
    make_folder(rt.alloc(), &mut tree, "game/f").expect(&rt, "a step");
    check_shown(&rt, &mut tree, "game", "game/f/\n");
    remove_folder(rt.alloc(), &mut tree, "game/f").expect(&rt, "a step");
    check_shown(&rt, &mut tree, "game", "");
}

// The link is made, and fails.
fn check_link_fails(rt: &(impl AllocGlobal + Abort), tree: &mut MemTree) {
    let linked = link(rt.alloc(), tree, "stage/b/x", "game/y");
    assert_eq!(rt; linked.err(), Some(WorldError::Call(TreeError::Failed)));
}

// A link of which the fourth call fails, which is the link itself, behind three looks.
fn check_failed_link(rt: &(impl AllocGlobal + Abort), done: bool, steps: &str, game: &str) {
    let mut tree = small_world(rt);
    fail_call(rt.alloc(), &mut tree, 3, done).expect(rt, "a plan");
    check_link_fails(rt, &mut tree);
    check_steps(rt, &tree, steps);
    check_shown(rt, &mut tree, "game", game);
}

#[test]
fn a_call_fails_as_planned(rt: HostRuntime) {
    let done = "link stage/b/x game/y\n";
    check_failed_link(&rt, true, done, "game/y = \"one\"\n");
    let not_done = "link stage/b/x game/y (not done)\n";
    check_failed_link(&rt, false, not_done, "");
}

#[test]
fn forgetting_is_no_counted_call(rt: HostRuntime) {
    let mut tree = small_world(&rt);
    fail_call(rt.alloc(), &mut tree, 3, true).expect(&rt, "a plan");
    tree.forget();
    check_link_fails(&rt, &mut tree);
}

// A mod with a hundred files.
fn add_mod(rt: &(impl AllocGlobal + Abort), lines: &mut String, number: u32) {
    for file in 0..100 {
        let line = format!(in rt.alloc(); "stage/mod {number}/file {file} = \"bytes\"\n");
        let line = line.expect(rt, "memory");
        lines.push_str(line.as_str()).expect(rt, "memory");
    }
}

fn large_world(rt: &(impl AllocGlobal + Abort)) -> MemTree {
    let mut lines = String::new(rt.alloc());
    for number in 0..100 {
        add_mod(rt, &mut lines, number);
    }
    world(rt.alloc(), lines.as_str()).expect(rt, "a world")
}

// Links each file of a mod.
fn link_all(rt: &(impl AllocGlobal + Abort), tree: &mut MemTree, name: &str) {
    let above = format!(in rt.alloc(); "stage/{name}").expect(rt, "memory");
    let files = listed(rt.alloc(), tree, above.as_str()).expect(rt, "a listing");
    for file in &files {
        let from = format!(in rt.alloc(); "{above}/{}", file.name.text()).expect(rt, "memory");
        let to = format!(in rt.alloc(); "game/{name} {}", file.name.text()).expect(rt, "memory");
        link(rt.alloc(), tree, from.as_str(), to.as_str()).expect(rt, "a step");
    }
}

#[test]
fn a_large_world_takes_seconds(rt: HostRuntime) {
    let mut tree = large_world(&rt);
    let mods = listed(rt.alloc(), &mut tree, "stage").expect(&rt, "a listing");
    for entry in &mods {
        link_all(&rt, &mut tree, entry.name.text());
    }
    sync_folder(rt.alloc(), &mut tree, "game").expect(&rt, "a step");
    let linked = listed(rt.alloc(), &mut tree, "game").expect(&rt, "a listing");
    assert_eq!(&rt; linked.len(), 10_000);
    assert_eq!(&rt; tree.ops().len(), 10_001);
}
