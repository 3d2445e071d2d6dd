// What is planned for each path, by its old row and its winner.
use super::deploying::{OF_A, OF_ABC, OF_NONE, check, check_tree, manifest, planned_within};
use move_plan::is_idle;
use std::process::Abort;
use test_worlds::{edit_outside, world};

const EMPTY: &str = "{\"files\":[],\"folders\":[],\"version\":2}";

// A row, as JSON.
fn row(
    rt: &(impl AllocGlobal + Abort),
    id: &str,
    path: &str,
    source: &str,
    digest: &str,
    shadowed: bool,
) -> String {
    let names = format!(in rt.alloc(); "\"mod\":\"{id}\",\"path\":\"{path}\"").expect(rt, "memory");
    let rest = format!(in rt.alloc(); "\"shadowed\":{shadowed},\"source\":\"{source}\"");
    let rest = rest.expect(rt, "memory");
    format!(in rt.alloc(); "{{\"digest\":\"{digest}\",{names},{rest}}}").expect(rt, "memory")
}

// The text of a manifest with these rows and folders.
fn text_of(rt: &(impl AllocGlobal + Abort), rows: &str, folders: &str) -> String {
    let text = format!(in rt.alloc();
        "{{\"files\":[{rows}],\"folders\":[{folders}],\"version\":2}}"
    );
    text.expect(rt, "memory")
}

// The text of a manifest with one row, whose source is its path.
fn one_row(
    rt: &(impl AllocGlobal + Abort),
    id: &str,
    path: &str,
    digest: &str,
    shadowed: bool,
) -> String {
    text_of(rt, row(rt, id, path, path, digest, shadowed).as_str(), "")
}

// A plan's lines, and then its manifest.
fn plan(rt: &(impl AllocGlobal + Abort), lines: &str, manifest: &str) -> String {
    format!(in rt.alloc(); "{lines}{manifest}").expect(rt, "memory")
}

const BOTH: [(&str, bool); 2] = [("a", false), ("b", false)];

const ONLY_A: [(&str, bool); 1] = [("a", false)];

const ONLY_B: [(&str, bool); 1] = [("b", false)];

const TWO_MODS: &str = "stage/a/x.txt = \"A\"\nstage/b/x.txt = \"abc\"\n";

#[test]
fn nothing_is_planned_for_no_mods(rt: HostRuntime) {
    check(&rt, "", &[], EMPTY, plan(&rt, "files 0\n", EMPTY).as_str());
}

#[test]
fn the_last_mod_is_set(rt: HostRuntime) {
    let new = one_row(&rt, "b", "x.txt", OF_ABC, false);
    let wanted = plan(
        &rt,
        "set\tgame/x.txt\tstage/b/x.txt\nfiles 1\n",
        new.as_str(),
    );
    check(&rt, TWO_MODS, BOTH.as_slice(), EMPTY, wanted.as_str());
}

#[test]
fn a_game_file_is_saved_before_it_is_covered(rt: HostRuntime) {
    let world = format!(in rt.alloc(); "{TWO_MODS}game/x.txt = \"game\"").expect(&rt, "memory");
    let new = one_row(&rt, "b", "x.txt", OF_ABC, true);
    let lines = "save\tgame/x.txt\tgame/x.txt.vortex_backup
set\tgame/x.txt\tstage/b/x.txt
files 1
";
    let wanted = plan(&rt, lines, new.as_str());
    check(&rt, world.as_str(), BOTH.as_slice(), EMPTY, wanted.as_str());
}

const DEPLOYED: &str = "stage/a/x.txt = \"A\"
stage/b/x.txt = \"abc\"
game/x.txt = stage/b/x.txt
";

#[test]
fn what_is_deployed_is_left_alone(rt: HostRuntime) {
    let old = one_row(&rt, "b", "x.txt", OF_ABC, false);
    let wanted = plan(&rt, "files 1\n", old.as_str());
    check(
        &rt,
        DEPLOYED,
        BOTH.as_slice(),
        old.as_str(),
        wanted.as_str(),
    );
    let mut tree = world(rt.alloc(), DEPLOYED).expect(&rt, "a world");
    let old = manifest(&rt, old.as_str());
    let plan = planned_within(&rt, &mut tree, BOTH.as_slice(), &old, u64::MAX);
    let plan = plan.expect(&rt, "a plan");
    assert!(&rt; is_idle(&plan, Some(&old)));
}

// The digest that the row has stays, since only a whole look would find the edit.
#[test]
fn a_row_that_stays_keeps_its_digest(rt: HostRuntime) {
    let old = one_row(&rt, "b", "x.txt", OF_ABC, false);
    let mut tree = world(rt.alloc(), DEPLOYED).expect(&rt, "a world");
    edit_outside(rt.alloc(), &mut tree, "game/x.txt", b"").expect(&rt, "a change");
    let wanted = plan(&rt, "files 1\n", old.as_str());
    check_tree(
        &rt,
        &mut tree,
        BOTH.as_slice(),
        old.as_str(),
        wanted.as_str(),
    );
}

// The old row is the mod a's, and b wins its path now.
#[test]
fn another_mod_takes_over(rt: HostRuntime) {
    let world = "stage/a/x.txt = \"A\"
stage/b/x.txt = \"abc\"
game/x.txt = stage/a/x.txt
game/x.txt.vortex_backup = \"game\"
";
    for shadowed in [false, true] {
        let old = one_row(&rt, "a", "x.txt", OF_A, shadowed);
        let new = one_row(&rt, "b", "x.txt", OF_ABC, shadowed);
        let wanted = plan(
            &rt,
            "set\tgame/x.txt\tstage/b/x.txt\nfiles 1\n",
            new.as_str(),
        );
        check(&rt, world, BOTH.as_slice(), old.as_str(), wanted.as_str());
    }
}

const TWO_SOURCES: &str = "stage/a/x.txt = \"abc\"
stage/a/bin/x.txt = \"\"
game/bin/x.txt = stage/a/bin/x.txt
";

// The mod's base folder is taken on: its file `x.txt` comes to the path of `bin/x.txt`, and that
// one goes a folder deeper.
#[test]
fn another_source_is_a_change_as_another_mod_is(rt: HostRuntime) {
    let old_row = row(&rt, "a", "bin/x.txt", "bin/x.txt", OF_NONE, true);
    let old = text_of(&rt, old_row.as_str(), "\"bin\"");
    let deep = row(&rt, "a", "bin/bin/x.txt", "bin/x.txt", OF_NONE, false);
    let flat = row(&rt, "a", "bin/x.txt", "x.txt", OF_ABC, true);
    let rows = format!(in rt.alloc(); "{deep},{flat}").expect(&rt, "memory");
    let new = text_of(&rt, rows.as_str(), "\"bin\",\"bin/bin\"");
    let lines = "folder\tgame/bin/bin
set\tgame/bin/bin/x.txt\tstage/a/bin/x.txt
set\tgame/bin/x.txt\tstage/a/x.txt
files 2
";
    let wanted = plan(&rt, lines, new.as_str());
    check(
        &rt,
        TWO_SOURCES,
        &[("a", true)],
        old.as_str(),
        wanted.as_str(),
    );
}

#[test]
fn a_base_folder_is_taken_on_and_off(rt: HostRuntime) {
    let world = "stage/a/x.txt = \"abc\"";
    let based = row(&rt, "a", "bin/x.txt", "x.txt", OF_ABC, false);
    let based = text_of(&rt, based.as_str(), "\"bin\"");
    let on = "folder\tgame/bin\nset\tgame/bin/x.txt\tstage/a/x.txt\nfiles 1\n";
    let wanted = plan(&rt, on, based.as_str());
    check(&rt, world, &[("a", true)], EMPTY, wanted.as_str());
    let world = "stage/a/x.txt = \"abc\"\ngame/bin/x.txt = stage/a/x.txt";
    let off = "set\tgame/bin/x.txt\t-
set\tgame/x.txt\tstage/a/x.txt
remove\tgame/bin
files 1
";
    let wanted = plan(&rt, off, one_row(&rt, "a", "x.txt", OF_ABC, false).as_str());
    check(
        &rt,
        world,
        ONLY_A.as_slice(),
        based.as_str(),
        wanted.as_str(),
    );
}

#[test]
fn a_path_that_no_mod_wins_gets_its_original(rt: HostRuntime) {
    let linked = "stage/a/x.txt = \"A\"\ngame/x.txt = stage/a/x.txt\nstage/b/";
    let kept = "game/x.txt.vortex_backup = \"game\"";
    let both = format!(in rt.alloc(); "{linked}\n{kept}").expect(&rt, "memory");
    let taken = "set\tgame/x.txt\t-\nfiles 0\n";
    let given = "set\tgame/x.txt\tgame/x.txt.vortex_backup
clear\tgame/x.txt.vortex_backup
files 0
";
    for (world, shadowed, lines) in [
        (linked, false, taken),
        (linked, true, taken),
        (both.as_str(), false, taken),
        (both.as_str(), true, given),
    ] {
        let old = one_row(&rt, "a", "x.txt", OF_A, shadowed);
        let wanted = plan(&rt, lines, EMPTY);
        check(&rt, world, ONLY_B.as_slice(), old.as_str(), wanted.as_str());
    }
}

#[test]
fn an_own_folder_goes_where_nothing_is_left_in_it(rt: HostRuntime) {
    let staged = "stage/a/d/x.txt = \"abc\"\n";
    let old_row = row(&rt, "a", "d/x.txt", "d/x.txt", OF_ABC, false);
    let old = text_of(&rt, old_row.as_str(), "\"d\"");
    let made = "folder\tgame/d\nset\tgame/d/x.txt\tstage/a/d/x.txt\nfiles 1\n";
    let wanted = plan(&rt, made, old.as_str());
    check(&rt, staged, ONLY_A.as_slice(), EMPTY, wanted.as_str());
    let linked = format!(in rt.alloc(); "{staged}game/d/x.txt = stage/a/d/x.txt\n");
    let linked = linked.expect(&rt, "memory");
    let gone = plan(
        &rt,
        "set\tgame/d/x.txt\t-\nremove\tgame/d\nfiles 0\n",
        EMPTY,
    );
    check(&rt, linked.as_str(), &[], old.as_str(), gone.as_str());
    let others = format!(in rt.alloc(); "{linked}game/d/y = \"\"\n").expect(&rt, "memory");
    let kept = text_of(&rt, "", "\"d\"");
    let wanted = plan(&rt, "set\tgame/d/x.txt\t-\nfiles 0\n", kept.as_str());
    check(&rt, others.as_str(), &[], old.as_str(), wanted.as_str());
}

// Own folders go from the deepest on: `d/e` and `d` go, `f` stays since another mod needs it, and
// `g`, which others took away, leaves the list.
#[test]
fn own_folders_go_from_the_deepest_on(rt: HostRuntime) {
    let world = "stage/a/d/e/x = \"abc\"
game/d/e/x = stage/a/d/e/x
stage/b/f/y = \"abc\"
game/f/
";
    let old_row = row(&rt, "a", "d/e/x", "d/e/x", OF_ABC, false);
    let old = text_of(&rt, old_row.as_str(), "\"d\",\"d/e\",\"f\",\"g\"");
    let new_row = row(&rt, "b", "f/y", "f/y", OF_ABC, false);
    let new = text_of(&rt, new_row.as_str(), "\"f\"");
    let lines = "set\tgame/d/e/x\t-
set\tgame/f/y\tstage/b/f/y
remove\tgame/d/e
remove\tgame/d
files 1
";
    let wanted = plan(&rt, lines, new.as_str());
    check(&rt, world, ONLY_B.as_slice(), old.as_str(), wanted.as_str());
}
