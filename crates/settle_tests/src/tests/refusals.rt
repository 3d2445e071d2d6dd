// Why there is no plan.
use super::settling::{check, check_answer, manifest, planned_within};
use change_settle::SettleError;
use std::process::Abort;
use test_worlds::world;

#[test]
fn what_is_above_a_file_that_is_put_back_is_told(rt: HostRuntime) {
    for (lines, wanted) in [
        // above the link, the outermost one
        ("stage/b/d/e/x = \"abc\"\ngame/d = \"\"", "Blocked(game/d)"),
        (
            "stage/b/d/e/x = \"abc\"\ngame/d/e = \"\"",
            "Blocked(game/d/e)",
        ),
        // above the staged file
        ("game/d/e/x = \"abc\"\nstage/b = \"\"", "Blocked(stage/b)"),
        (
            "game/d/e/x = \"abc\"\nstage/b/d/e = \"\"",
            "Blocked(stage/b/d/e)",
        ),
    ] {
        check_answer(&rt, lines, ("d/e/x", ""), wanted);
        check_answer(&rt, lines, ("*d/e/x", ""), wanted);
    }
    // a row that goes doesn't need them
    let lines = "stage/b/d/drop = \"abc\"\ngame/d = \"\"";
    check(&rt, lines, ("d/drop", ""), "files 0\n", ("", ""));
}

#[test]
fn a_folder_at_the_backup_place_of_a_row_that_goes_is_told(rt: HostRuntime) {
    for lines in [
        "stage/b/drop = \"abc\"\ngame/drop.vortex_backup/",
        "game/drop = \"abc\"\ngame/drop.vortex_backup/",
        "game/drop.vortex_backup/",
    ] {
        let wanted = "Blocked(game/drop.vortex_backup)";
        check_answer(&rt, lines, ("*drop", ""), wanted);
    }
    // where the row isn't shadowed it isn't looked at
    let lines = "game/drop.vortex_backup/";
    check(&rt, lines, ("drop", ""), "files 0\n", ("", ""));
    // nor where the row stays
    let lines = "stage/b/x = \"abc\"\ngame/x.vortex_backup/";
    let wanted = "set\tgame/x\tstage/b/x\nfiles 1\n";
    check(&rt, lines, ("*x", ""), wanted, ("*x", ""));
}

// The first row in whose way something is decides, and the place of what is set aside comes last.
#[test]
fn the_first_thing_in_the_way_is_told(rt: HostRuntime) {
    let lines = "game/a = \"new\"
stage/b/a = \"abc\"
game/drop.vortex_backup/
game/e = \"\"
stage/b/e/x = \"abc\"
game/z.vortex_backup/
keep/aside = \"\"";
    for (rows, wanted) in [
        ("a *drop e/x *z", "Blocked(game/drop.vortex_backup)"),
        ("a drop e/x *z", "Blocked(game/e)"),
        ("a drop *z", "Blocked(game/z.vortex_backup)"),
        ("a drop z", "Blocked(keep/aside)"),
    ] {
        check_answer(&rt, lines, (rows, ""), wanted);
    }
    let nothing = "files 0\n";
    check(&rt, lines, ("drop z", ""), nothing, ("", ""));
}

#[test]
fn numbers_of_what_is_set_aside_end(rt: HostRuntime) {
    let full = "game/drop = \"new\"\nkeep/aside/4294967295/";
    check_answer(&rt, full, ("drop", ""), "AsideFull");
    let last = "game/drop = \"new\"\nkeep/aside/4294967294/";
    let wanted = "folder\tkeep/aside/4294967295
folder\tkeep/aside/4294967295/game
save\tgame/drop\tkeep/aside/4294967295/game/drop
set\tgame/drop\t-
files 0
";
    check(&rt, last, ("drop", ""), wanted, ("", ""));
    // they aren't looked at where nothing is set aside
    check(
        &rt,
        "keep/aside/4294967295/",
        ("x", ""),
        "files 0\n",
        ("", ""),
    );
}

// Whether the call of this number is made. Then its fault is told.
fn is_made(rt: &(impl AllocGlobal + Abort), call: u64) -> bool {
    let lines = "game/drop = \"new\"
stage/b/e/x = \"abc\"
game/f/
keep/aside/";
    let mut tree = world(rt.alloc(), lines).expect(rt, "a world");
    let old = manifest(rt, ("drop e/x f/y", "f"));
    match planned_within(rt, &mut tree, &old, call) {
        Ok(_) => false,
        Err(e) => {
            assert_eq!(rt; e, SettleError::Failed);
            true
        }
    }
}

// One call looks at the folder above a file that is put back, others at `keep/aside` and at an own
// folder, and the last ones read a file.
#[test]
fn each_fault_of_the_tree_is_told(rt: HostRuntime) {
    for call in 0..5 {
        assert!(&rt; is_made(&rt, call));
    }
    for call in 5..20 {
        is_made(&rt, call);
    }
    assert!(&rt; !is_made(&rt, 20));
}
