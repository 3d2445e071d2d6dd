// Plans of purges on a disk in memory.
use manifest_json::{Manifest, read_manifest};
use move_plan::{Plan, plan_lines};
use purge_run::{PurgeError, purge_plan};
use std::process::Abort;
use test_worlds::{add, fail_call, put_outside, remove_outside, world};
use tree_mem::MemTree;

// The digest of "abc".
const OF_ABC: &str = "ba7816bf8f01cfea414140de5dae2223b00361a396177a9cb410ff61f20015ad";

// A row of the mod `b`, as JSON. A star before its path says that it is shadowed.
fn row_text(rt: &(impl AllocGlobal + Abort), row: &str) -> String {
    let (path, shadowed) = match row.strip_prefix("*") {
        Some(path) => (path, true),
        None => (row, false),
    };
    let names = format!(in rt.alloc(); "\"mod\":\"b\",\"path\":\"{path}\",\"shadowed\":{shadowed}");
    let names = names.expect(rt, "memory");
    format!(in rt.alloc(); "{{\"digest\":\"{OF_ABC}\",{names}}}").expect(rt, "memory")
}

// The texts of words, with commas between.
fn listed(rt: &(impl AllocGlobal + Abort), texts: &[String]) -> String {
    let mut all = String::new(rt.alloc());
    for text in texts {
        if !all.is_empty() {
            all.push(',').expect(rt, "memory");
        }
        all.push_str(text.as_str()).expect(rt, "memory");
    }
    all
}

// The manifest with these rows and own folders, which are words.
fn manifest(rt: &(impl AllocGlobal + Abort), rows: &str, folders: &str) -> Manifest {
    let mut files = Vec::new(rt.alloc());
    for row in rows.split_whitespace() {
        files.push(row_text(rt, row)).expect(rt, "memory");
    }
    let mut own = Vec::new(rt.alloc());
    for folder in folders.split_whitespace() {
        let text = format!(in rt.alloc(); "\"{folder}\"").expect(rt, "memory");
        own.push(text).expect(rt, "memory");
    }
    let files = listed(rt, &files);
    let own = listed(rt, &own);
    let text = format!(in rt.alloc(); "{{\"files\":[{files}],\"folders\":[{own}],\"version\":1}}");
    let text = text.expect(rt, "memory");
    read_manifest(rt.alloc(), text.as_bytes()).expect(rt, "a manifest")
}

fn plan_text(rt: &(impl AllocGlobal + Abort), plan: &Plan) -> String {
    let lines = plan_lines(rt.alloc(), plan).expect(rt, "memory");
    String::from_utf8(lines).expect(rt, "a text")
}

fn answer_text(rt: &(impl AllocGlobal + Abort), answer: Result<Plan, PurgeError>) -> String {
    match answer {
        Ok(plan) => plan_text(rt, &plan),
        Err(e) => format!(in rt.alloc(); "{e:?}").expect(rt, "memory"),
    }
}

// The answer for this manifest on a world.
fn check(rt: &(impl AllocGlobal + Abort), tree: &mut MemTree, old: &Manifest, wanted: &str) {
    let answer = purge_plan(rt.alloc(), tree, old);
    let found = answer_text(rt, answer);
    assert_eq!(rt; found.as_str(), wanted);
}

fn check_world(rt: &(impl AllocGlobal + Abort), lines: &str, old: &Manifest, wanted: &str) {
    let mut tree = world(rt.alloc(), lines).expect(rt, "a world");
    check(rt, &mut tree, old, wanted);
}

const DEPLOYED: &str = "stage/b/x.txt = \"abc\"
game/x.txt = stage/b/x.txt
game/x.txt.vortex_backup = \"game\"";

const GIVEN_BACK: &str = "set\tgame/x.txt\tgame/x.txt.vortex_backup
clear\tgame/x.txt.vortex_backup
files 0
";

const ASIDE_AND_BACK: &str = "folder\tkeep/aside
folder\tkeep/aside/1
folder\tkeep/aside/1/game
save\tgame/x.txt\tkeep/aside/1/game/x.txt
set\tgame/x.txt\tgame/x.txt.vortex_backup
clear\tgame/x.txt.vortex_backup
files 0
";

#[test]
fn without_a_manifest_nothing_is_purged(rt: HostRuntime) {
    let old = Manifest::empty(rt.alloc());
    for lines in ["", "game/q = \"q\"\nkeep/aside/4294967295/", DEPLOYED] {
        check_world(&rt, lines, &old, "files 0\n");
    }
}

#[test]
fn an_original_goes_back_to_its_path(rt: HostRuntime) {
    let old = manifest(&rt, "*x.txt", "");
    check_world(&rt, DEPLOYED, &old, GIVEN_BACK);
    // also where nothing stands there any more
    let lines = "stage/b/x.txt = \"abc\"\ngame/x.txt.vortex_backup = \"game\"";
    check_world(&rt, lines, &old, GIVEN_BACK);
}

#[test]
fn a_deployed_file_is_taken_off(rt: HostRuntime) {
    let old = manifest(&rt, "x.txt", "");
    // what stands at the backup place of a row that isn't shadowed belongs to others
    for lines in [
        "stage/b/x.txt = \"abc\"\ngame/x.txt = stage/b/x.txt",
        DEPLOYED,
    ] {
        check_world(&rt, lines, &old, "set\tgame/x.txt\t-\nfiles 0\n");
    }
    for lines in [
        "",
        "stage/b/x.txt = \"abc\"",
        "game/x.txt.vortex_backup = \"game\"",
    ] {
        check_world(&rt, lines, &old, "files 0\n");
    }
}

#[test]
fn a_file_that_others_put_over_a_link_is_set_aside(rt: HostRuntime) {
    let old = manifest(&rt, "*x.txt", "");
    let mut tree = world(rt.alloc(), DEPLOYED).expect(&rt, "a world");
    remove_outside(rt.alloc(), &mut tree, "game/x.txt").expect(&rt, "a change");
    put_outside(rt.alloc(), &mut tree, "game/x.txt", b"abc").expect(&rt, "a change");
    check(&rt, &mut tree, &old, ASIDE_AND_BACK);
}

const BACKUP: &str = "game/x.txt.vortex_backup = \"game\"\n";

#[test]
fn a_file_whose_staged_file_is_gone_is_set_aside(rt: HostRuntime) {
    let old = manifest(&rt, "*x.txt", "");
    for more in [
        "game/x.txt = \"abc\"",
        "game/x.txt = \"abc\"\nstage/b/x.txt/",
        "game/x.txt = \"abc\"\nstage/a/x.txt = game/x.txt",
    ] {
        let mut tree = world(rt.alloc(), BACKUP).expect(&rt, "a world");
        add(rt.alloc(), &mut tree, more).expect(&rt, "a world");
        check(&rt, &mut tree, &old, ASIDE_AND_BACK);
    }
}

const REPLACED: &str = "stage/b/x.txt = \"abc\"\ngame/x.txt = \"new\"\n";

#[test]
fn what_is_set_aside_has_the_next_number(rt: HostRuntime) {
    let old = manifest(&rt, "x.txt", "");
    for (more, wanted) in [
        (
            "keep/aside/",
            "folder\tkeep/aside/1
folder\tkeep/aside/1/game
save\tgame/x.txt\tkeep/aside/1/game/x.txt
set\tgame/x.txt\t-
files 0
",
        ),
        (
            "keep/aside/7/\nkeep/aside/12 = \"\"\nkeep/aside/013/",
            "folder\tkeep/aside/13
folder\tkeep/aside/13/game
save\tgame/x.txt\tkeep/aside/13/game/x.txt
set\tgame/x.txt\t-
files 0
",
        ),
        ("keep/aside/4294967295/", "AsideFull"),
        ("keep/aside = \"\"", "Blocked(keep/aside)"),
    ] {
        let mut tree = world(rt.alloc(), REPLACED).expect(&rt, "a world");
        add(rt.alloc(), &mut tree, more).expect(&rt, "a world");
        check(&rt, &mut tree, &old, wanted);
    }
}

#[test]
fn the_aside_folder_counts_only_where_a_file_is_set_aside(rt: HostRuntime) {
    let old = manifest(&rt, "x.txt", "");
    for more in ["keep/aside/4294967295/", "keep/aside = \"\""] {
        let mut tree = world(rt.alloc(), DEPLOYED).expect(&rt, "a world");
        add(rt.alloc(), &mut tree, more).expect(&rt, "a world");
        check(&rt, &mut tree, &old, "set\tgame/x.txt\t-\nfiles 0\n");
    }
}

#[test]
fn files_are_set_aside_under_one_number(rt: HostRuntime) {
    let old = manifest(&rt, "d-e/z d/e/y d/x", "");
    let lines = "game/d-e/z = \"1\"\ngame/d/e/y = \"2\"\ngame/d/x = \"3\"";
    let wanted = "folder\tkeep/aside
folder\tkeep/aside/1
folder\tkeep/aside/1/game
folder\tkeep/aside/1/game/d
folder\tkeep/aside/1/game/d-e
folder\tkeep/aside/1/game/d/e
save\tgame/d-e/z\tkeep/aside/1/game/d-e/z
save\tgame/d/e/y\tkeep/aside/1/game/d/e/y
save\tgame/d/x\tkeep/aside/1/game/d/x
set\tgame/d-e/z\t-
set\tgame/d/e/y\t-
set\tgame/d/x\t-
files 0
";
    check_world(&rt, lines, &old, wanted);
}

const IN_FOLDERS: &str = "stage/b/d/e/x = \"abc\"\ngame/d/e/x = stage/b/d/e/x\n";

#[test]
fn own_folders_that_are_left_empty_go(rt: HostRuntime) {
    for (row, folders, more, wanted) in [
        (
            "d/e/x",
            "d d/e",
            "",
            "set\tgame/d/e/x\t-\nremove\tgame/d/e\nremove\tgame/d\nfiles 0\n",
        ),
        // a folder of others, and one with a file of others
        (
            "d/e/x",
            "d/e",
            "",
            "set\tgame/d/e/x\t-\nremove\tgame/d/e\nfiles 0\n",
        ),
        (
            "d/e/x",
            "d d/e",
            "game/d/y = \"y\"",
            "set\tgame/d/e/x\t-\nremove\tgame/d/e\nfiles 0\n",
        ),
        (
            "d/e/x",
            "d d/e",
            "game/d/e/y = \"y\"",
            "set\tgame/d/e/x\t-\nfiles 0\n",
        ),
        (
            "d/e/x",
            "d d/e",
            "game/d/e/f/",
            "set\tgame/d/e/x\t-\nfiles 0\n",
        ),
        // one that gets an original
        (
            "*d/e/x",
            "d d/e",
            "game/d/e/x.vortex_backup = \"game\"",
            "set\tgame/d/e/x\tgame/d/e/x.vortex_backup\nclear\tgame/d/e/x.vortex_backup\nfiles 0\n",
        ),
        // one that is there no more
        (
            "d/e/x",
            "c d/e",
            "",
            "set\tgame/d/e/x\t-\nremove\tgame/d/e\nfiles 0\n",
        ),
    ] {
        let old = manifest(&rt, row, folders);
        let mut tree = world(rt.alloc(), IN_FOLDERS).expect(&rt, "a world");
        add(rt.alloc(), &mut tree, more).expect(&rt, "a world");
        check(&rt, &mut tree, &old, wanted);
    }
}

#[test]
fn the_first_place_in_the_way_is_told(rt: HostRuntime) {
    for (rows, lines, wanted) in [
        ("x", "game/x/", "Blocked(game/x)"),
        (
            "*x",
            "game/x.vortex_backup/",
            "Blocked(game/x.vortex_backup)",
        ),
        ("x", "game/x.vortex_backup/", "files 0\n"),
        ("*x", "game/x/\ngame/x.vortex_backup/", "Blocked(game/x)"),
        (
            "*x y",
            "game/y/\ngame/x.vortex_backup/",
            "Blocked(game/x.vortex_backup)",
        ),
        // rows come before the aside folder
        (
            "x y",
            "game/x = \"1\"\ngame/y/\nkeep/aside = \"\"",
            "Blocked(game/y)",
        ),
    ] {
        let old = manifest(&rt, rows, "");
        check_world(&rt, lines, &old, wanted);
    }
}

// It makes so many calls, and fails where one of them does.
fn check_calls(
    rt: &(impl AllocGlobal + Abort),
    lines: &str,
    old: &Manifest,
    calls: u64,
    wanted: &str,
) {
    let mut tree = world(rt.alloc(), lines).expect(rt, "a world");
    for call in 0..calls {
        fail_call(rt.alloc(), &mut tree, call, false).expect(rt, "memory");
        check(rt, &mut tree, old, "Failed");
    }
    fail_call(rt.alloc(), &mut tree, calls, false).expect(rt, "memory");
    check(rt, &mut tree, old, wanted);
}

#[test]
fn a_row_takes_four_calls_at_most(rt: HostRuntime) {
    let plain = manifest(&rt, "x.txt", "");
    let shadowed = manifest(&rt, "*x.txt", "");
    check_calls(&rt, DEPLOYED, &plain, 3, "set\tgame/x.txt\t-\nfiles 0\n");
    check_calls(&rt, DEPLOYED, &shadowed, 4, GIVEN_BACK);
    check_calls(&rt, "", &plain, 1, "files 0\n");
    // one more where a file is set aside
    check_calls(
        &rt,
        "game/x.txt = \"new\"\ngame/x.txt.vortex_backup = \"game\"",
        &shadowed,
        4,
        ASIDE_AND_BACK,
    );
}

#[test]
fn an_own_folder_takes_one_call_where_a_file_was_found_below_it(rt: HostRuntime) {
    let old = manifest(&rt, "d/e/x", "d d/e");
    let gone = "remove\tgame/d/e\nremove\tgame/d\nfiles 0\n";
    let wanted = format!(in rt.alloc(); "set\tgame/d/e/x\t-\n{gone}").expect(&rt, "memory");
    check_calls(&rt, IN_FOLDERS, &old, 5, wanted.as_str());
    // otherwise it is looked whether it is there
    check_calls(&rt, "game/d/e/", &old, 5, gone);
    check_calls(&rt, "game/d/", &old, 4, "remove\tgame/d\nfiles 0\n");
}
