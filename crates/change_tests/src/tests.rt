// Changes by others on a disk in memory.
use change_detect::{Change, ChangeError, all_changes, quick_changes};
use manifest_json::{Manifest, read_manifest};
use std::process::Abort;
use test_worlds::{add, edit_outside, fail_call, put_outside, remove_outside, world};
use tree_mem::MemTree;

// The digest of no bytes.
const OF_NONE: &str = "e3b0c44298fc1c149afbf4c8996fb92427ae41e4649b934ca495991b7852b855";

// That of "abc".
const OF_ABC: &str = "ba7816bf8f01cfea414140de5dae2223b00361a396177a9cb410ff61f20015ad";

// That of 65,537 times the letter a.
const OF_LETTERS: &str = "008ffc88d3c96a9f307524eb361e47c5222a887fc45fa0c1fb8d429c5c23b430";

// A row of the mod `b`, as JSON.
fn row_text(rt: &(impl AllocGlobal + Abort), path: &str, source: &str, digest: &str) -> String {
    let names = format!(in rt.alloc(); "\"mod\":\"b\",\"path\":\"{path}\",\"source\":\"{source}\"");
    let names = names.expect(rt, "memory");
    let row = format!(in rt.alloc(); "{{\"digest\":\"{digest}\",{names},\"shadowed\":false}}");
    row.expect(rt, "memory")
}

// The manifest with these rows.
fn manifest_of(rt: &(impl AllocGlobal + Abort), rows: &str) -> Manifest {
    let text = format!(in rt.alloc(); "{{\"files\":[{rows}],\"folders\":[],\"version\":2}}");
    let text = text.expect(rt, "memory");
    read_manifest(rt.alloc(), text.as_bytes()).expect(rt, "a manifest")
}

// The manifest with one row.
fn one_row(rt: &(impl AllocGlobal + Abort), path: &str, source: &str, digest: &str) -> Manifest {
    let row = row_text(rt, path, source, digest);
    manifest_of(rt, row.as_str())
}

// Each change's class and path.
fn list_text(rt: &(impl AllocGlobal + Abort), changes: &[Change]) -> String {
    let mut text = String::new(rt.alloc());
    for change in changes {
        text.push_str(change.class.name()).expect(rt, "memory");
        text.push(' ').expect(rt, "memory");
        text.push_str(change.path.text()).expect(rt, "memory");
        text.push('\n').expect(rt, "memory");
    }
    text
}

fn answer_text(
    rt: &(impl AllocGlobal + Abort),
    answer: Result<Vec<Change>, ChangeError>,
) -> String {
    match answer {
        Ok(changes) => list_text(rt, &changes),
        Err(e) => format!(in rt.alloc(); "{e:?}").expect(rt, "memory"),
    }
}

fn check_quick(rt: &(impl AllocGlobal + Abort), tree: &mut MemTree, old: &Manifest, wanted: &str) {
    let answer = quick_changes(rt.alloc(), tree, old);
    let found = answer_text(rt, answer);
    assert_eq!(rt; found.as_str(), wanted);
}

fn check_whole(rt: &(impl AllocGlobal + Abort), tree: &mut MemTree, old: &Manifest, wanted: &str) {
    let answer = all_changes(rt.alloc(), tree, old);
    let found = answer_text(rt, answer);
    assert_eq!(rt; found.as_str(), wanted);
}

// Both tests answer so.
fn check_both(rt: &(impl AllocGlobal + Abort), tree: &mut MemTree, old: &Manifest, wanted: &str) {
    check_quick(rt, tree, old, wanted);
    check_whole(rt, tree, old, wanted);
}

// Both tests answer so in this world.
fn check_world(rt: &(impl AllocGlobal + Abort), lines: &str, old: &Manifest, wanted: &str) {
    let mut tree = world(rt.alloc(), lines).expect(rt, "a world");
    check_both(rt, &mut tree, old, wanted);
}

// The row's path is `d/x`, its source `s`.
#[test]
fn a_class_goes_by_what_stands_at_the_two_places(rt: HostRuntime) {
    let old = one_row(&rt, "d/x", "s", OF_ABC);
    for (lines, wanted) in [
        ("stage/b/s = \"abc\"\ngame/d/x = stage/b/s", ""),
        ("stage/b/s = \"abc\"\ngame/d/x = \"abc\"", "Replaced d/x\n"),
        ("stage/b/s = \"abc\"\ngame/d/x = \"new\"", "Replaced d/x\n"),
        ("stage/b/s = \"new\"\ngame/d/x = \"abc\"", "Replaced d/x\n"),
        ("stage/b/s = \"abc\"", "Deleted d/x\n"),
        ("stage/b/s = \"abc\"\ngame/d = \"\"", "Deleted d/x\n"),
        ("game/d/x = \"abc\"", "SourceDeleted d/x\n"),
        ("game/d/x = \"abc\"\nstage/b = \"\"", "SourceDeleted d/x\n"),
        (
            "stage/b/d/x = \"abc\"\ngame/d/x = stage/b/d/x",
            "SourceDeleted d/x\n",
        ),
        ("", "Gone d/x\n"),
        ("stage/b/d/x = \"abc\"\ngame/s = stage/b/d/x", "Gone d/x\n"),
    ] {
        check_world(&rt, lines, &old, wanted);
    }
}

#[test]
fn a_folder_is_in_the_way(rt: HostRuntime) {
    let old = one_row(&rt, "d/x", "s", OF_ABC);
    for (lines, wanted) in [
        ("game/d/x/", "Blocked(game/d/x)"),
        ("game/d/x/\nstage/b/s = \"abc\"", "Blocked(game/d/x)"),
        ("game/d/x/\nstage/b/s/", "Blocked(game/d/x)"),
        ("stage/b/s/", "Blocked(stage/b/s)"),
        ("game/d/x = \"abc\"\nstage/b/s/", "Blocked(stage/b/s)"),
    ] {
        check_world(&rt, lines, &old, wanted);
    }
}

// Rows with these paths, each with its path as its source.
fn many_rows(rt: &(impl AllocGlobal + Abort), paths: &[&str]) -> Manifest {
    let mut rows = String::new(rt.alloc());
    for path in paths {
        if !rows.is_empty() {
            rows.push(',').expect(rt, "memory");
        }
        let row = row_text(rt, path, path, OF_ABC);
        rows.push_str(row.as_str()).expect(rt, "memory");
    }
    manifest_of(rt, rows.as_str())
}

const PATHS: [&str; 6] = ["a", "b", "c", "d", "e", "f"];

const OF_EACH_CLASS: &str = "stage/b/a = \"abc\"
game/a = \"abc\"
stage/b/b = \"ABC\"
game/b = stage/b/b
stage/b/c = \"abc\"
game/c = stage/b/c
stage/b/d = \"abc\"
game/e = \"abc\"";

#[test]
fn changes_come_in_path_order(rt: HostRuntime) {
    let old = many_rows(&rt, &PATHS);
    let mut tree = world(rt.alloc(), OF_EACH_CLASS).expect(&rt, "a world");
    let quick = "Replaced a\nDeleted d\nSourceDeleted e\nGone f\n";
    check_quick(&rt, &mut tree, &old, quick);
    let whole = "Replaced a\nChanged b\nDeleted d\nSourceDeleted e\nGone f\n";
    check_whole(&rt, &mut tree, &old, whole);
}

#[test]
fn without_rows_nothing_is_changed(rt: HostRuntime) {
    let old = manifest_of(&rt, "");
    check_world(&rt, OF_EACH_CLASS, &old, "");
}

#[test]
fn the_first_row_in_the_way_is_told(rt: HostRuntime) {
    let old = many_rows(&rt, &PATHS);
    for (lines, wanted) in [
        ("game/f/\ngame/b/", "Blocked(game/b)"),
        ("game/c/\nstage/b/b/", "Blocked(stage/b/b)"),
        ("stage/b/f/", "Blocked(stage/b/f)"),
    ] {
        check_world(&rt, lines, &old, wanted);
    }
}

const DEPLOYED: &str = "stage/a/x.txt = \"A\"
stage/b/x.txt = \"abc\"
game/x.txt = stage/b/x.txt";

fn deployed(rt: &(impl AllocGlobal + Abort)) -> MemTree {
    world(rt.alloc(), DEPLOYED).expect(rt, "a world")
}

#[test]
fn an_equal_copy_is_another_file(rt: HostRuntime) {
    let old = one_row(&rt, "x.txt", "x.txt", OF_ABC);
    let mut tree = deployed(&rt);
    check_both(&rt, &mut tree, &old, "");
    remove_outside(rt.alloc(), &mut tree, "game/x.txt").expect(&rt, "a change");
    put_outside(rt.alloc(), &mut tree, "game/x.txt", b"abc").expect(&rt, "a change");
    check_both(&rt, &mut tree, &old, "Replaced x.txt\n");
}

#[test]
fn only_the_whole_test_finds_an_edit_in_place(rt: HostRuntime) {
    let old = one_row(&rt, "x.txt", "x.txt", OF_ABC);
    let mut tree = deployed(&rt);
    edit_outside(rt.alloc(), &mut tree, "game/x.txt", b"").expect(&rt, "a change");
    check_quick(&rt, &mut tree, &old, "");
    check_whole(&rt, &mut tree, &old, "Changed x.txt\n");
    let new = one_row(&rt, "x.txt", "x.txt", OF_NONE);
    check_both(&rt, &mut tree, &new, "");
}

#[test]
fn what_was_removed_is_told_by_its_place(rt: HostRuntime) {
    let old = one_row(&rt, "x.txt", "x.txt", OF_ABC);
    let mut tree = deployed(&rt);
    remove_outside(rt.alloc(), &mut tree, "stage/b/x.txt").expect(&rt, "a change");
    check_both(&rt, &mut tree, &old, "SourceDeleted x.txt\n");
    remove_outside(rt.alloc(), &mut tree, "game/x.txt").expect(&rt, "a change");
    check_both(&rt, &mut tree, &old, "Gone x.txt\n");
}

#[test]
fn a_folder_in_place_of_a_file_is_told(rt: HostRuntime) {
    let old = one_row(&rt, "x.txt", "x.txt", OF_ABC);
    let mut tree = deployed(&rt);
    remove_outside(rt.alloc(), &mut tree, "game/x.txt").expect(&rt, "a change");
    add(rt.alloc(), &mut tree, "game/x.txt/").expect(&rt, "a folder");
    check_both(&rt, &mut tree, &old, "Blocked(game/x.txt)");
}

fn plan_fault(rt: &(impl AllocGlobal + Abort), tree: &mut MemTree, call: u64) {
    fail_call(rt.alloc(), tree, call, false).expect(rt, "memory");
}

// The quick test makes so many calls, and fails where one of them does.
fn check_quick_calls(rt: &(impl AllocGlobal + Abort), lines: &str, calls: u64, wanted: &str) {
    let old = one_row(rt, "x", "x", OF_ABC);
    let mut tree = world(rt.alloc(), lines).expect(rt, "a world");
    for call in 0..calls {
        plan_fault(rt, &mut tree, call);
        check_quick(rt, &mut tree, &old, "Failed");
    }
    plan_fault(rt, &mut tree, calls);
    check_quick(rt, &mut tree, &old, wanted);
}

#[test]
fn the_quick_test_makes_three_calls_at_most(rt: HostRuntime) {
    check_quick_calls(&rt, "stage/b/x = \"abc\"\ngame/x = stage/b/x", 3, "");
    check_quick_calls(
        &rt,
        "stage/b/x = \"abc\"\ngame/x = \"abc\"",
        3,
        "Replaced x\n",
    );
    check_quick_calls(&rt, "stage/b/x = \"abc\"", 2, "Deleted x\n");
    check_quick_calls(&rt, "game/x/", 1, "Blocked(game/x)");
}

// So does the whole one.
fn check_whole_calls(
    rt: &(impl AllocGlobal + Abort),
    old: &Manifest,
    lines: &str,
    calls: u64,
    wanted: &str,
) {
    let mut tree = world(rt.alloc(), lines).expect(rt, "a world");
    for call in 0..calls {
        plan_fault(rt, &mut tree, call);
        check_whole(rt, &mut tree, old, "Failed");
    }
    plan_fault(rt, &mut tree, calls);
    check_whole(rt, &mut tree, old, wanted);
}

// It asks for a file's size besides, and for each piece once.
#[test]
fn only_one_file_with_two_names_is_read(rt: HostRuntime) {
    let old = one_row(&rt, "x", "x", OF_ABC);
    check_whole_calls(&rt, &old, "stage/b/x = \"abc\"\ngame/x = stage/b/x", 5, "");
    check_whole_calls(
        &rt,
        &old,
        "stage/b/x = \"\"\ngame/x = stage/b/x",
        4,
        "Changed x\n",
    );
    check_whole_calls(
        &rt,
        &old,
        "stage/b/x = \"\"\ngame/x = \"abc\"",
        3,
        "Replaced x\n",
    );
}

#[test]
fn a_long_file_is_read_in_two_pieces(rt: HostRuntime) {
    let old = one_row(&rt, "x", "x", OF_LETTERS);
    let letters = "a".repeat(rt.alloc(), 65_537).expect(&rt, "memory");
    let lines = format!(in rt.alloc(); "stage/b/x = \"{letters}\"\ngame/x = stage/b/x");
    let lines = lines.expect(&rt, "memory");
    check_whole_calls(&rt, &old, lines.as_str(), 6, "");
}
