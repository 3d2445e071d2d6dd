// The rules of plans, plans that move nothing, and the lines of plans.
use crate::manifests::one_row;
use crate::plans::{WHOLE, plan};
use manifest_json::Manifest;
use move_plan::{PlanFault, check_plan, is_idle, plan_lines};
use std::process::Abort;

fn fault(rt: &(impl AllocGlobal + Abort), lines: &str) -> Option<PlanFault> {
    check_plan(&plan(rt, lines, None)).err()
}

#[test]
fn each_rule_fails_at_its_first_entry(rt: HostRuntime) {
    for (lines, rule, index) in [
        // 1. each list rises by its places, and the folders to take off fall
        ("folder game/a\nfolder game/a", 1, 1),
        ("set game/a -\nset game/c -\nset game/b -", 1, 2),
        ("remove game/d/e\nremove game/d\nremove game/e", 1, 2),
        // 2. no root, no control place, nothing below one
        ("folder game", 2, 0),
        ("set game/a -\nset game/b keep/intent.json", 2, 1),
        ("clear keep/manifest.tmp/x", 2, 0),
        ("folder game/vortex.deployment.json/d", 2, 0),
        // 3. no set's source is a set's destination
        ("set game/x game/x", 3, 0),
        (
            "set game/a -\nset game/b stage/b/b\nset game/c game/a",
            3,
            2,
        ),
        // 4. no save's destination is a set's destination or source
        (
            "save game/x game/x.vortex_backup\nset game/x - game/x.vortex_backup\nset game/x.vortex_backup -",
            4,
            0,
        ),
        (
            "save game/x game/x.vortex_backup\nset game/y game/x.vortex_backup",
            4,
            0,
        ),
        // 5. no clear is a set's destination, and a save's destination and a clear keep a file
        ("save game/x game/y", 5, 0),
        ("clear keep/aside", 5, 0),
        ("clear keep/aside/1/x\nclear stage/a/x.vortex_backup", 5, 1),
        ("set keep/aside/1/x -\nclear keep/aside/1/x", 5, 0),
        // 6. beside saves and sets each clear is used
        (
            "set game/x keep/aside/1/a\nclear keep/aside/1/a\nclear keep/aside/1/b",
            6,
            1,
        ),
        // 7. each save's source is the destination of a set with this `back`
        (
            "save game/x game/x.vortex_backup\nset game/x stage/b/x",
            7,
            0,
        ),
        // 8. each `back` is saved, or lies in `stage` and is no set's destination
        ("set game/x stage/b/x game/x.vortex_backup", 8, 0),
        (
            "set game/w -\nset game/x stage/b/x stage/a/x\nset stage/a/x -",
            8,
            1,
        ),
        // 9. folders to make, destinations and clears lie apart; folders to take off are in `game`
        ("folder game/c\nfolder game/d\nset game/d stage/b/d", 9, 1),
        ("folder keep/aside/1\nclear keep/aside/1", 9, 0),
        ("set game/d stage/b/d\nset game/d/e/f stage/b/e", 9, 1),
        ("remove stage/a\nremove game/a", 9, 0),
    ] {
        assert_eq!(&rt;
            fault(&rt, lines),
            Some(PlanFault { rule, index }),
            "of {lines}"
        );
    }
}

#[test]
fn plans_that_break_no_rule_pass(rt: HostRuntime) {
    for lines in [
        "",
        WHOLE,
        "clear game/x.vortex_backup\nclear keep/aside/1/x",
        "set game/d stage/b/d\nset game/d.e stage/b/e",
        "folder game/d\nset game/d/x stage/b/x",
    ] {
        assert_eq!(&rt; fault(&rt, lines), None, "of {lines}");
    }
}

// Whether the plan of these lines without a manifest moves nothing where this one is there.
fn idles(rt: &(impl AllocGlobal + Abort), lines: &str, there: Option<&Manifest>) -> bool {
    is_idle(&plan(rt, lines, None), there)
}

#[test]
fn a_plan_with_any_step_is_not_idle(rt: HostRuntime) {
    for (lines, wanted) in [
        ("", true),
        ("folder game/d", true),
        ("save game/x game/x.vortex_backup", false),
        ("set game/x -", false),
        ("clear keep/aside/1/x", false),
        ("remove game/d", false),
    ] {
        assert_eq!(&rt; idles(&rt, lines, None), wanted, "of {lines}");
    }
}

#[test]
fn a_plan_with_another_manifest_is_not_idle(rt: HostRuntime) {
    let row = one_row(&rt);
    let none = Manifest::empty(rt.alloc());
    let keeps = plan(&rt, "", Some(one_row(&rt)));
    assert!(&rt; is_idle(&keeps, Some(&row)));
    assert!(&rt; !is_idle(&keeps, Some(&none)));
    assert!(&rt; !is_idle(&keeps, None));
    assert!(&rt; !idles(&rt, "", Some(&none)));
}

const LINES: &str = "folder\tgame/d
save\tgame/x.txt\tgame/x.txt.vortex_backup
set\tgame/d/y\tstage/b/d/y
set\tgame/e/f/z\t-
set\tgame/x.txt\tstage/b/x.txt
set\tgame/z\tgame/z.vortex_backup
clear\tgame/z.vortex_backup
remove\tgame/e/f
remove\tgame/e
files 1
";

#[test]
fn a_plan_is_printed_in_its_order(rt: HostRuntime) {
    let lines = plan_lines(rt.alloc(), &plan(&rt, WHOLE, Some(one_row(&rt))));
    assert!(&rt; lines.expect(&rt, "memory").as_slice() == LINES.as_bytes());
    let none = plan_lines(rt.alloc(), &plan(&rt, "", None));
    assert!(&rt; none.expect(&rt, "memory").as_slice() == "files 0\n".as_bytes());
}
