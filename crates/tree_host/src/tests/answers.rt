// What each call answers on real folders, and does to them.
use super::recorded::{Record, Recorded};
use super::steps::{answer, enter, leave, place, run};
use crate::HostTree;
use std::alloc::Global;
use std::fs;
use std::os::unix::fs::{MetadataExt, symlink};
use std::process::Abort;
use tree_fs::Tree;

// A file, a folder with a file, a link to each of the two, and a link to nothing.
const STAGE: &str = "
    stage/
    stage/d/
    stage/d/x = abc
    stage/file = A
    stage/to_folder -> d
    stage/to_file -> file
    stage/to_nothing -> nowhere";

fn host(rt: HostRuntime, stop: &impl Abort, base: &str) -> HostTree<HostRuntime> {
    HostTree::open(rt, rt.alloc(), base).expect(stop, "memory")
}

fn is_there(rt: HostRuntime, path: &str) -> bool {
    fs::symlink_metadata(&rt, path).is_ok()
}

#[test]
fn the_first_call_makes_the_missing_roots(rt: HostRuntime) {
    enter(rt, &rt, "host_roots", "base/");
    let mut tree = host(rt, &rt, "base");
    assert!(&rt; !is_there(rt, "base/stage"), "to open touches nothing");
    run(rt.alloc(), &rt, &mut tree, "kind keep | Folder");
    for root in ["base/stage", "base/game", "base/keep"] {
        assert!(&rt; is_there(rt, root), "{root}");
    }
    leave(rt, &rt, "host_roots");
}

#[test]
fn a_root_may_be_a_link_to_a_folder_and_to_nothing_else(rt: HostRuntime) {
    let world = "
        real/
        real/x = abc
        game -> real
        stage = no folder";
    enter(rt, &rt, "host_root_links", world);
    let mut tree = host(rt, &rt, "");
    run(rt.alloc(), &rt, &mut tree, "sync_folder game | Failed");
    fs::remove_file(&rt, "stage").expect(&rt, "a file");
    let steps = "
        sync_folder game | ()
        kind game | Folder
        kind game/x | File
        list game | x File";
    run(rt.alloc(), &rt, &mut tree, steps);
    assert_eq!(&rt; tree.faults.get(), 1);
    leave(rt, &rt, "host_root_links");
}

#[test]
fn no_root_may_be_another_one_or_lie_in_it(rt: HostRuntime) {
    let world = "
        stage/
        stage/m/
        stage/m/d/
        real/";
    for (root, target, steps) in [
        ("game", "stage", "kind game/x | Failed"),
        ("keep", "stage/m", "kind game/x | Failed"),
        ("keep", "stage/m/d", "kind game/x | Failed"),
        ("game", "..", "kind game/x | Failed"),
        ("game", ".", "kind game/x | Failed"),
        ("game", "real", "kind game/x | Absent"),
    ] {
        enter(rt, &rt, "host_apart", world);
        symlink(&rt, target, root).expect(&rt, "a link");
        run(rt.alloc(), &rt, &mut host(rt, &rt, "."), steps);
        leave(rt, &rt, "host_apart");
    }
}

#[test]
fn a_link_is_other_and_nothing_lies_below_it(rt: HostRuntime) {
    enter(rt, &rt, "host_kinds", STAGE);
    let mut tree = host(rt, &rt, ".");
    let steps = "
        kind stage/file | File
        kind stage/d | Folder
        kind stage/d/x | File
        kind stage/d/y | Absent
        kind stage/e/x | Absent
        kind stage/file/x | Absent
        kind stage/to_folder | Other
        kind stage/to_file | Other
        kind stage/to_nothing | Other
        kind stage/to_folder/x | Absent
        kind stage/to_folder/e/x | Absent";
    run(rt.alloc(), &rt, &mut tree, steps);
    assert_eq!(&rt; tree.faults.get(), 0);
    leave(rt, &rt, "host_kinds");
}

#[test]
fn a_listing_is_sorted_and_follows_no_link(rt: HostRuntime) {
    enter(rt, &rt, "host_list", STAGE);
    let mut tree = host(rt, &rt, ".");
    let steps = "
        list stage | d Folder, file File, to_file Other, to_folder Other, to_nothing Other
        list stage/d | x File
        list game |
        list stage/to_folder | Failed
        list stage/to_folder/e | Failed
        list stage/file | Failed
        list stage/e | Failed";
    run(rt.alloc(), &rt, &mut tree, steps);
    assert_eq!(&rt; tree.faults.get(), 4);
    leave(rt, &rt, "host_list");
}

#[test]
fn a_link_is_a_second_name_of_one_file_and_overwrites_nothing(rt: HostRuntime) {
    enter(rt, &rt, "host_link", STAGE);
    let steps = "
        link stage/d/x game/x | ()
        sync_folder game | ()
        link stage/file game/x | Failed";
    run(rt.alloc(), &rt, &mut host(rt, &rt, "."), steps);
    let staged = fs::metadata(&rt, "stage/d/x").expect(&rt, "a file");
    let linked = fs::metadata(&rt, "game/x").expect(&rt, "a file");
    assert_eq!(&rt; linked.ino(), staged.ino());
    leave(rt, &rt, "host_link");
}

#[test]
fn a_file_is_read_part_by_part(rt: HostRuntime) {
    enter(rt, &rt, "host_parts", STAGE);
    let mut tree = host(rt, &rt, ".");
    let at = place(rt.alloc(), &rt, "stage/d/x");
    for (from, most, wanted) in [
        (0, 2, "ab"),
        (2, 2, "c"),
        (1, 1, "b"),
        (3, 9, ""),
        (u64::MAX, 9, ""),
    ] {
        let part = tree.read_part(&at, from, most).expect(&rt, "a part");
        assert_eq!(&rt; part.as_slice(), wanted.as_bytes(), "at {from}");
    }
    leave(rt, &rt, "host_parts");
}

#[test]
fn one_file_is_told_by_its_numbers_or_its_bytes(rt: HostRuntime) {
    let world = "
        stage/
        stage/x = abc
        game/
        game/copy = abc
        game/other = abd";
    enter(rt, &rt, "host_same", world);
    fs::hard_link(&rt, "stage/x", "game/link").expect(&rt, "a link");
    let by_numbers = "
        same game/link stage/x | true
        same game/copy stage/x | false
        same game/other stage/x | false";
    run(rt.alloc(), &rt, &mut host(rt, &rt, "."), by_numbers);
    let by_bytes = "
        same game/link stage/x | true
        same game/copy stage/x | true
        same game/other stage/x | false";
    let record = Record::new(rt, None, true);
    let mut tree = HostTree::open(Recorded(&record), rt.alloc(), ".").expect(&rt, "memory");
    run(rt.alloc(), &rt, &mut tree, by_bytes);
    leave(rt, &rt, "host_same");
}

#[test]
fn files_and_folders_come_move_and_go(rt: HostRuntime) {
    enter(rt, &rt, "host_changes", "");
    // Nothing is overwritten, no folder is renamed, nor removed where it isn't empty.
    let steps = "
        make_folder keep/d | ()
        put_new keep/d/one | ()
        put_new keep/d/one | Failed
        sync_file keep/d/one | ()
        rename keep/d/one keep/d/two | ()
        read keep/d/two | [110, 101, 119]
        rename keep/d keep/e | Failed
        remove_folder keep/d | Failed
        unlink keep/d/two | ()
        sync_folder keep/d | ()
        remove_folder keep/d | ()
        kind keep/d | Absent";
    run(rt.alloc(), &rt, &mut host(rt, &rt, "."), steps);
    assert!(&rt; !is_there(rt, "keep/d"));
    leave(rt, &rt, "host_changes");
}

#[test]
fn a_folder_that_others_made_a_link_is_forgotten(rt: HostRuntime) {
    enter(rt, &rt, "host_forgets", STAGE);
    let mut tree = host(rt, &rt, ".");
    run(rt.alloc(), &rt, &mut tree, "kind stage/d/x | File");
    fs::rename(&rt, "stage/d", "other").expect(&rt, "a folder");
    symlink(&rt, "../other", "stage/d").expect(&rt, "a link");
    let steps = "
        forget | ()
        kind stage/d/x | Absent
        unlink stage/d/x | Failed";
    run(rt.alloc(), &rt, &mut tree, steps);
    assert!(&rt; is_there(rt, "other/x"));
    leave(rt, &rt, "host_forgets");
}

fn fails(alloc: Global, stop: &impl Abort, tree: &mut HostTree<HostRuntime>, step: &str) -> bool {
    answer(alloc, stop, tree, step).as_str() == "Failed"
}

#[test]
fn no_call_goes_through_a_link_or_changes_a_root(rt: HostRuntime) {
    enter(rt, &rt, "host_through", STAGE);
    let mut tree = host(rt, &rt, ".");
    let steps = "
        link stage/file stage/to_folder/z | Failed
        rename stage/file stage/to_folder/z | Failed";
    run(rt.alloc(), &rt, &mut tree, steps);
    let calls = "size read list same link unlink rename put_new make_folder remove_folder \
        sync_folder sync_file";
    for call in calls.split(' ') {
        for at in ["stage/to_folder/x", "stage/to_folder/y", "stage/file/x"] {
            let step = format!(in rt.alloc(); "{call} {at} game/free").expect(&rt, "memory");
            assert!(&rt;
                fails(rt.alloc(), &rt, &mut tree, step.as_str()),
                "{call} {at}"
            );
        }
    }
    let steps = "
        size stage | Failed
        unlink stage | Failed
        link stage game/free | Failed
        rename stage game/free | Failed
        make_folder stage | Failed
        remove_folder stage | Failed
        sync_file stage | Failed";
    run(rt.alloc(), &rt, &mut tree, steps);
    leave(rt, &rt, "host_through");
}
