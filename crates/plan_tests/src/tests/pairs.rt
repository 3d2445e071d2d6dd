// Two paths in every pair of cases. The one path comes before the other, and its backup place comes
// behind the other's.
ghost use Rattle.std.specs.Prelude.{◌≤◌};

use super::deploying::{OF_ABC, check};
use std::process::Abort;

const FIRST: &str = "a";

const SECOND: &str = "a!";

// What is found of a path: whether it has an old row, whether the mod `b` has the file, and what
// stands in the game.
#[derive(Clone, Copy)]
enum Case {
    Untouched,
    Comes,
    Covers,
    Stays,
    Turns,
    Leaves,
    GivesBack,
}

const CASES: [Case; 7] = [
    Case::Untouched,
    Case::Comes,
    Case::Covers,
    Case::Stays,
    Case::Turns,
    Case::Leaves,
    Case::GivesBack,
];

fn owned(rt: &(impl AllocGlobal + Abort), text: &str) -> String {
    String::from_str(rt.alloc(), text).expect(rt, "memory")
}

// What lies on the disk for a path.
fn lines_of(rt: &(impl AllocGlobal + Abort), path: &str, case: Case) -> String {
    let won = format!(in rt.alloc(); "stage/b/{path} = \"abc\"\n").expect(rt, "memory");
    let lost = format!(in rt.alloc(); "stage/a/{path} = \"abc\"\ngame/{path} = stage/a/{path}\n");
    let lost = lost.expect(rt, "memory");
    match case {
        Case::Untouched => owned(rt, ""),
        Case::Comes => won,
        Case::Covers => format!(in rt.alloc(); "{won}game/{path} = \"g\"\n").expect(rt, "memory"),
        Case::Stays => {
            format!(in rt.alloc(); "{won}game/{path} = stage/b/{path}\n").expect(rt, "memory")
        }
        Case::Turns => format!(in rt.alloc(); "{won}{lost}").expect(rt, "memory"),
        Case::Leaves => lost,
        Case::GivesBack => {
            format!(in rt.alloc(); "{lost}game/{path}.vortex_backup = \"g\"\n").expect(rt, "memory")
        }
    }
}

// A row with a comma behind it.
fn row(rt: &(impl AllocGlobal + Abort), id: &str, path: &str, shadowed: bool) -> String {
    let names = format!(in rt.alloc(); "\"mod\":\"{id}\",\"path\":\"{path}\"").expect(rt, "memory");
    let rest = format!(in rt.alloc(); "\"shadowed\":{shadowed},\"source\":\"{path}\"");
    let rest = rest.expect(rt, "memory");
    format!(in rt.alloc(); "{{\"digest\":\"{OF_ABC}\",{names},{rest}}},").expect(rt, "memory")
}

// The old row of a path.
fn old_row(rt: &(impl AllocGlobal + Abort), path: &str, case: Case) -> String {
    match case {
        Case::Untouched | Case::Comes | Case::Covers => owned(rt, ""),
        Case::Stays => row(rt, "b", path, false),
        Case::Turns | Case::Leaves => row(rt, "a", path, false),
        Case::GivesBack => row(rt, "a", path, true),
    }
}

// The new row of a path.
fn new_row(rt: &(impl AllocGlobal + Abort), path: &str, case: Case) -> String {
    match case {
        Case::Untouched | Case::Leaves | Case::GivesBack => owned(rt, ""),
        Case::Comes | Case::Stays | Case::Turns => row(rt, "b", path, false),
        Case::Covers => row(rt, "b", path, true),
    }
}

fn count(case: Case) -> u32
    ensures { result ≤ 1 }
{
    match case {
        Case::Untouched | Case::Leaves | Case::GivesBack => 0,
        Case::Comes | Case::Covers | Case::Stays | Case::Turns => 1,
    }
}

fn save_line(rt: &(impl AllocGlobal + Abort), path: &str, case: Case) -> String {
    match case {
        Case::Covers => {
            let line = format!(in rt.alloc(); "save\tgame/{path}\tgame/{path}.vortex_backup\n");
            line.expect(rt, "memory")
        }
        _ => owned(rt, ""),
    }
}

fn set_line(rt: &(impl AllocGlobal + Abort), path: &str, case: Case) -> String {
    let line = match case {
        Case::Untouched | Case::Stays => return owned(rt, ""),
        Case::Comes | Case::Covers | Case::Turns => {
            format!(in rt.alloc(); "set\tgame/{path}\tstage/b/{path}\n")
        }
        Case::Leaves => format!(in rt.alloc(); "set\tgame/{path}\t-\n"),
        Case::GivesBack => {
            format!(in rt.alloc(); "set\tgame/{path}\tgame/{path}.vortex_backup\n")
        }
    };
    line.expect(rt, "memory")
}

fn clear_line(rt: &(impl AllocGlobal + Abort), path: &str, case: Case) -> String {
    match case {
        Case::GivesBack => {
            format!(in rt.alloc(); "clear\tgame/{path}.vortex_backup\n").expect(rt, "memory")
        }
        _ => owned(rt, ""),
    }
}

// The text of a manifest with these rows, each with a comma behind it.
fn manifest_text(rt: &(impl AllocGlobal + Abort), first: &str, second: &str) -> String {
    let rows = format!(in rt.alloc(); "{first}{second}").expect(rt, "memory");
    let rows = rows.as_str();
    let rows = rows.strip_suffix(',').unwrap_or(rows);
    let text = format!(in rt.alloc(); "{{\"files\":[{rows}],\"folders\":[],\"version\":2}}");
    text.expect(rt, "memory")
}

// The plan of the two paths: what is saved and cleared goes by backup places, what is set by paths.
fn plan_of(rt: &(impl AllocGlobal + Abort), first: Case, second: Case) -> String {
    let saves = save_line(rt, SECOND, second);
    let more_saves = save_line(rt, FIRST, first);
    let sets = set_line(rt, FIRST, first);
    let more_sets = set_line(rt, SECOND, second);
    let clears = clear_line(rt, SECOND, second);
    let more_clears = clear_line(rt, FIRST, first);
    let files = count(first) + count(second);
    let lines = format!(in rt.alloc(); "{saves}{more_saves}{sets}{more_sets}{clears}{more_clears}");
    let lines = lines.expect(rt, "memory");
    let rows = new_row(rt, FIRST, first);
    let more_rows = new_row(rt, SECOND, second);
    let text = manifest_text(rt, rows.as_str(), more_rows.as_str());
    format!(in rt.alloc(); "{lines}files {files}\n{text}").expect(rt, "memory")
}

fn check_pair(rt: &(impl AllocGlobal + Abort), first: Case, second: Case) {
    let one = lines_of(rt, FIRST, first);
    let other = lines_of(rt, SECOND, second);
    let world = format!(in rt.alloc(); "stage/b/\n{one}{other}").expect(rt, "memory");
    let row = old_row(rt, FIRST, first);
    let more = old_row(rt, SECOND, second);
    let old = manifest_text(rt, row.as_str(), more.as_str());
    let wanted = plan_of(rt, first, second);
    check(
        rt,
        world.as_str(),
        &[("b", false)],
        old.as_str(),
        wanted.as_str(),
    );
}

#[test]
fn each_pair_of_cases_is_planned(rt: HostRuntime) {
    for first in CASES {
        for second in CASES {
            check_pair(&rt, first, second);
        }
    }
}
