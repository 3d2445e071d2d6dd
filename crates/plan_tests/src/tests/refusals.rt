// Why there is no plan.
use super::deploying::{OF_ABC, check};
use std::process::Abort;

const EMPTY: &str = "{\"files\":[],\"folders\":[],\"version\":2}";

// The text of a manifest with rows of the mod `a` at these paths, shadowed or not.
fn rows_of_a(rt: &(impl AllocGlobal + Abort), paths: &[&str], shadowed: bool) -> String {
    let mut rows = String::new(rt.alloc());
    for path in paths {
        let names = format!(in rt.alloc(); "\"mod\":\"a\",\"path\":\"{path}\"").expect(
            rt, "memory",
        );
        let rest = format!(in rt.alloc(); "\"shadowed\":{shadowed},\"source\":\"{path}\"");
        let rest = rest.expect(rt, "memory");
        let comma = if rows.is_empty() { "" } else { "," };
        let row = format!(in rt.alloc(); "{comma}{{\"digest\":\"{OF_ABC}\",{names},{rest}}}");
        rows.push_str(row.expect(rt, "memory").as_str())
            .expect(rt, "memory");
    }
    let text = format!(in rt.alloc(); "{{\"files\":[{rows}],\"folders\":[],\"version\":2}}");
    text.expect(rt, "memory")
}

const ONLY_B: [(&str, bool); 1] = [("b", false)];

// What refuses the deployment of the mod `b` over these rows of `a`.
fn check_over(
    rt: &(impl AllocGlobal + Abort),
    lines: &str,
    paths: &[&str],
    shadowed: bool,
    wanted: &str,
) {
    let old = rows_of_a(rt, paths, shadowed);
    check(rt, lines, ONLY_B.as_slice(), old.as_str(), wanted);
}

// What refuses the first deployment of the mod `b`.
fn check_first(rt: &(impl AllocGlobal + Abort), lines: &str, wanted: &str) {
    check(rt, lines, ONLY_B.as_slice(), EMPTY, wanted);
}

#[test]
fn a_taken_backup_place_is_told(rt: HostRuntime) {
    let covered = "stage/b/x.txt = \"abc\"\ngame/x.txt = \"game\"\n";
    for taken in [
        "game/x.txt.vortex_backup = \"k\"",
        "game/x.txt.vortex_backup/",
    ] {
        let world = format!(in rt.alloc(); "{covered}{taken}").expect(&rt, "memory");
        check_first(&rt, world.as_str(), "BackupTaken(x.txt)");
    }
}

#[test]
fn a_file_and_a_folder_of_one_path_are_turned(rt: HostRuntime) {
    let file = "stage/a/p = \"abc\"\ngame/p = stage/a/p\nstage/b/p/q = \"abc\"";
    check_over(&rt, file, &["p"], false, "Turned(p/q)");
    let folder = "stage/a/p/q = \"abc\"\ngame/p/q = stage/a/p/q\nstage/b/p = \"abc\"";
    check_over(&rt, folder, &["p/q"], false, "Turned(p)");
    let two = "stage/a/p = \"abc\"
game/p = stage/a/p
stage/a/r/s = \"abc\"
game/r/s = stage/a/r/s
stage/b/r = \"abc\"
stage/b/p/z = \"abc\"
stage/b/p/q/z = \"abc\"
";
    check_over(&rt, two, &["p", "r/s"], false, "Turned(p/q/z)");
}

// Names that merely begin alike lie apart.
#[test]
fn names_that_begin_alike_are_not_turned(rt: HostRuntime) {
    let world = "stage/a/p = \"abc\"
game/p = stage/a/p
stage/b/p-q = \"abc\"
stage/b/pq/x/
game/p-q/
";
    check_over(&rt, world, &["p"], false, "Blocked(game/p-q)");
}

#[test]
fn changes_are_told_by_the_first_and_their_count(rt: HostRuntime) {
    let replaced = "stage/a/x.txt = \"abc\"\ngame/x.txt = \"abc\"\nstage/b/";
    let one = "ChangesFound { first: x.txt, count: 1 }";
    check_over(&rt, replaced, &["x.txt"], false, one);
    let three = "stage/a/p = \"abc\"
game/p = stage/a/p
stage/a/q = \"abc\"
game/r = \"abc\"
stage/b/
";
    let wanted = "ChangesFound { first: q, count: 3 }";
    check_over(&rt, three, &["p", "q", "r", "s"], false, wanted);
}

// Both backup places are taken, and that of the second path comes first.
const TWO_TAKEN: &str = "stage/b/a = \"\"
stage/b/a! = \"\"
game/a = \"\"
game/a! = \"\"
game/a.vortex_backup/
game/a!.vortex_backup/
";

#[test]
fn what_is_in_the_way_is_told(rt: HostRuntime) {
    for (lines, wanted) in [
        // the outermost parent
        ("stage/b/d/e/x = \"abc\"\ngame/d = \"f\"", "Blocked(game/d)"),
        (
            "stage/b/d/e/x = \"abc\"\ngame/d/e = \"f\"",
            "Blocked(game/d/e)",
        ),
        // the place itself, whatever stands at its backup place
        ("stage/b/d/x = \"abc\"\ngame/d/x/", "Blocked(game/d/x)"),
        (
            "stage/b/x = \"abc\"\ngame/x/\ngame/x.vortex_backup = \"k\"",
            "Blocked(game/x)",
        ),
        // the least path, although another one comes first among the backups
        (TWO_TAKEN, "BackupTaken(a)"),
    ] {
        check_first(&rt, lines, wanted);
    }
}

#[test]
fn what_is_in_the_way_of_a_row_is_told(rt: HostRuntime) {
    let lost = "stage/a/x = \"abc\"\ngame/x = stage/a/x\nstage/b/\ngame/x.vortex_backup/";
    check_over(&rt, lost, &["x"], true, "Blocked(game/x.vortex_backup)");
    // a row's own place comes first, and before changes of other rows
    let taken = "stage/a/x = \"abc\"\ngame/x/\nstage/b/\ngame/x.vortex_backup/";
    check_over(&rt, taken, &["a", "x"], true, "Blocked(game/x)");
}

// Changes come before turned paths, and these before what is in the way.
#[test]
fn the_first_reason_is_told(rt: HostRuntime) {
    let lines = "stage/a/p = \"abc\"
game/p = stage/a/p
stage/b/p/q = \"abc\"
stage/b/x = \"abc\"
game/x/
";
    check_over(&rt, lines, &["p"], false, "Turned(p/q)");
    let changed = "ChangesFound { first: z, count: 1 }";
    check_over(&rt, lines, &["p", "z"], false, changed);
}
