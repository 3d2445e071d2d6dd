// Where files are kept, and the next number for what is set aside.
use backup_keep::{aside_place, backup_place, next_aside};
use rel_paths::{ModId, RelPath};
use std::process::Abort;
use test_worlds::{fail_call, world};
use tree_fs::Place;
use tree_mem::MemTree;

// A text that is exactly that of the place.
fn check_place(rt: &(impl AllocGlobal + Abort), place: &Place, wanted: &str) {
    let text = place.text(rt.alloc()).expect(rt, "memory");
    assert_eq!(rt; text.as_str(), wanted);
}

fn check_backup(rt: &(impl AllocGlobal + Abort), path: &str, wanted: &str) {
    let path = RelPath::parse(rt.alloc(), path).expect(rt, "a path");
    let backup = backup_place(rt.alloc(), &path).expect(rt, "memory");
    check_place(rt, &backup, wanted);
}

#[test]
fn a_backup_stands_beside_its_file(rt: HostRuntime) {
    for (path, wanted) in [
        ("x", "game/x.vortex_backup"),
        ("d/e.txt", "game/d/e.txt.vortex_backup"),
        ("d.e/f g", "game/d.e/f g.vortex_backup"),
    ] {
        check_backup(&rt, path, wanted);
    }
}

fn check_game_aside(rt: &(impl AllocGlobal + Abort), number: u32, path: &str, wanted: &str) {
    let path = RelPath::parse(rt.alloc(), path).expect(rt, "a path");
    let at = Place::game(rt.alloc(), &path).expect(rt, "memory");
    let aside = aside_place(rt.alloc(), number, &at).expect(rt, "memory");
    check_place(rt, &aside, wanted);
}

fn check_mod_aside(
    rt: &(impl AllocGlobal + Abort),
    number: u32,
    id: &str,
    path: &str,
    wanted: &str,
) {
    let id = ModId::parse(rt.alloc(), id).expect(rt, "an id");
    let path = RelPath::parse(rt.alloc(), path).expect(rt, "a path");
    let at = Place::staged(rt.alloc(), &id, &path).expect(rt, "memory");
    let aside = aside_place(rt.alloc(), number, &at).expect(rt, "memory");
    check_place(rt, &aside, wanted);
}

#[test]
fn what_is_set_aside_keeps_its_place_below_a_number(rt: HostRuntime) {
    for (number, path, wanted) in [
        (1, "x", "keep/aside/1/game/x"),
        (10, "d/e.txt", "keep/aside/10/game/d/e.txt"),
        (u32::MAX, "x", "keep/aside/4294967295/game/x"),
    ] {
        check_game_aside(&rt, number, path, wanted);
    }
    check_mod_aside(&rt, 7, "b", "x.txt", "keep/aside/7/stage/b/x.txt");
    check_mod_aside(&rt, 8, "My Mod", "d/e", "keep/aside/8/stage/My Mod/d/e");
}

// What the next number of this tree is.
fn check_next(rt: &(impl AllocGlobal + Abort), tree: &mut MemTree, wanted: &str) {
    let next = next_aside(rt.alloc(), tree);
    let text = format!(in rt.alloc(); "{next:?}").expect(rt, "memory");
    assert_eq!(rt; text.as_str(), wanted);
}

fn check_world(rt: &(impl AllocGlobal + Abort), lines: &str, wanted: &str) {
    let mut tree = world(rt.alloc(), lines).expect(rt, "a world");
    check_next(rt, &mut tree, wanted);
}

#[test]
fn the_next_number_is_above_the_greatest(rt: HostRuntime) {
    for (lines, wanted) in [
        ("", "Ok(1)"),
        ("keep/aside/", "Ok(1)"),
        (
            "keep/aside/1/\nkeep/aside/07/\nkeep/aside/12/\nkeep/aside/x/",
            "Ok(13)",
        ),
        ("keep/aside/9/game/x = \"\"\nkeep/aside/2/", "Ok(10)"),
        ("keep/aside/3 = \"\"", "Ok(4)"),
        (
            "keep/aside/0/\nkeep/aside/007/\nkeep/aside/+7/\nkeep/aside/-7/\nkeep/aside/7 /\nkeep/aside/7x/",
            "Ok(1)",
        ),
        (
            "keep/aside/4294967296/\nkeep/aside/4294967294/",
            "Ok(4294967295)",
        ),
        ("keep/aside/4294967295/\nkeep/aside/1/", "Err(AsideFull)"),
        ("keep/aside = \"\"", "Err(Blocked(keep/aside))"),
    ] {
        check_world(&rt, lines, wanted);
    }
}

#[test]
fn a_failing_look_is_told(rt: HostRuntime) {
    let mut tree = world(rt.alloc(), "keep/aside/4/").expect(&rt, "a world");
    for (call, wanted) in [(0, "Err(Failed)"), (1, "Err(Failed)"), (2, "Ok(5)")] {
        fail_call(rt.alloc(), &mut tree, call, false).expect(&rt, "memory");
        check_next(&rt, &mut tree, wanted);
    }
}
