// The lines of small lists.
ghost use Rattle.std.specs.Prelude.{IsTrue};
ghost use Rattle.std.specs.List.{AllByRecursion};
ghost use Rattle.answer_lines.specs.Lists.{HasId, PathHasIds, PairHasIds, HasIds};

use super::values::{id, ids, path};
use answer_lines::{change_lines, conflict_lines, order_lines, winner_lines};
use change_detect::{Change, Class};
use conflict_report::{PathReport, Report, Why};
use rel_paths::ModId;
use std::process::Abort;
use winner_table::{By, WinRow};

// Whether each of the nodes has an id.
fn have_ids(ids: &[ModId], nodes: &[u32]) -> bool
    ensures { IsTrue result → AllByRecursion (HasId ids.now) nodes.now }
{
    for node in nodes {
        if *node as usize >= ids.len() {
            return false;
        }
    }
    true
}

fn path_has_ids(ids: &[ModId], report: &PathReport) -> bool
    ensures { IsTrue result → PathHasIds ids.now report.now }
{
    (report.winner as usize) < ids.len() && have_ids(ids, report.providers.as_slice())
}

fn paths_have_ids(ids: &[ModId], paths: &[PathReport]) -> bool
    ensures { IsTrue result → AllByRecursion (PathHasIds ids.now) paths.now }
{
    for report in paths {
        if !path_has_ids(ids, report) {
            return false;
        }
    }
    true
}

fn pairs_have_ids(ids: &[ModId], pairs: &[(u32, u32)]) -> bool
    ensures { IsTrue result → AllByRecursion (PairHasIds ids.now) pairs.now }
{
    for pair in pairs {
        if pair.0 as usize >= ids.len() || pair.1 as usize >= ids.len() {
            return false;
        }
    }
    true
}

// Whether each node that the report names has an id.
fn has_ids(ids: &[ModId], report: &Report) -> bool
    ensures { IsTrue result → HasIds ids.now report.now }
{
    paths_have_ids(ids, report.paths.as_slice()) && pairs_have_ids(ids, report.pairs.as_slice())
}

fn check_order(rt: &(impl AllocGlobal + Abort), texts: &[&str], order: &[u32], wanted: &str) {
    let ids = ids(rt, texts);
    assert!(rt; have_ids(ids.as_slice(), order));
    let lines = order_lines(rt.alloc(), ids.as_slice(), order).expect(rt, "memory");
    assert!(rt; lines.as_slice() == wanted.as_bytes());
}

#[test]
fn an_order_is_the_ids_of_its_nodes(rt: HostRuntime) {
    check_order(&rt, &["a", "b"], &[1, 0], "b\na\n");
    check_order(&rt, &["a", "b", "c"], &[2, 0, 1], "c\na\nb\n");
    check_order(&rt, &["a"], &[], "");
}

// Adds the row of a path that this mod wins.
fn add_win(
    rt: &(impl AllocGlobal + Abort),
    wins: &mut Vec<WinRow>,
    text: &str,
    winner: &str,
    by: By,
) {
    let row = WinRow {
        path: path(rt, text),
        mod_id: id(rt, winner),
        by,
    };
    assert!(rt; wins.push(row).is_ok());
}

#[test]
fn winners_are_path_id_and_what_decides(rt: HostRuntime) {
    let mut wins = Vec::new(rt.alloc());
    add_win(&rt, &mut wins, "x.txt", "b", By::Order);
    add_win(&rt, &mut wins, "y", "a", By::Order);
    let lines = winner_lines(rt.alloc(), wins.as_slice()).expect(&rt, "memory");
    assert!(&rt; lines.as_slice() == "x.txt\tb\torder\ny\ta\torder\n".as_bytes());
    add_win(&rt, &mut wins, "z/w", "a", By::Override);
    let more = winner_lines(rt.alloc(), wins.as_slice()).expect(&rt, "memory");
    let wanted = "x.txt\tb\torder\ny\ta\torder\nz/w\ta\toverride\n";
    assert!(&rt; more.as_slice() == wanted.as_bytes());
}

// Adds a path that these nodes provide.
fn add_path(
    rt: &(impl AllocGlobal + Abort),
    report: &mut Report,
    text: &str,
    providers: &[u32],
    winner: u32,
    why: Why,
) {
    let entry = PathReport {
        path: path(rt, text),
        providers: Vec::from_slice(rt.alloc(), providers).expect(rt, "memory"),
        winner,
        why,
    };
    assert!(rt; report.paths.push(entry).is_ok());
}

fn no_report(rt: &(impl AllocGlobal + Abort)) -> Report {
    Report {
        paths: Vec::new(rt.alloc()),
        pairs: Vec::new(rt.alloc()),
    }
}

fn check_conflicts(rt: &(impl AllocGlobal + Abort), texts: &[&str], report: &Report, wanted: &str) {
    let ids = ids(rt, texts);
    assert!(rt; has_ids(ids.as_slice(), report));
    let lines = conflict_lines(rt.alloc(), ids.as_slice(), report).expect(rt, "memory");
    assert!(rt; lines.as_slice() == wanted.as_bytes());
}

#[test]
fn a_conflict_has_its_providers_in_the_load_order(rt: HostRuntime) {
    let mut report = no_report(&rt);
    add_path(&rt, &mut report, "x.txt", &[0, 1], 1, Why::Position);
    assert!(&rt; report.pairs.push((0, 1)).is_ok());
    let wanted = "path\tx.txt\tb\tposition\ta\tb\npair\ta\tb\n";
    check_conflicts(&rt, &["a", "b"], &report, wanted);
}

#[test]
fn a_conflict_that_rules_decide_has_no_pair(rt: HostRuntime) {
    let mut report = no_report(&rt);
    add_path(&rt, &mut report, "x.txt", &[1, 0], 0, Why::Rule);
    let wanted = "path\tx.txt\ta\trule\tb\ta\n";
    check_conflicts(&rt, &["a", "b"], &report, wanted);
}

#[test]
fn all_paths_stand_before_all_pairs(rt: HostRuntime) {
    let mut report = no_report(&rt);
    add_path(&rt, &mut report, "p", &[0, 1, 2], 0, Why::Override);
    add_path(&rt, &mut report, "q", &[1, 2], 2, Why::Position);
    assert!(&rt; report.pairs.push((0, 2)).is_ok());
    assert!(&rt; report.pairs.push((1, 2)).is_ok());
    let paths = "path\tp\ta\toverride\ta\tb\tc\npath\tq\tc\tposition\tb\tc\n";
    let wanted = format!(in rt.alloc(); "{paths}pair\ta\tc\npair\tb\tc\n").expect(&rt, "memory");
    check_conflicts(&rt, &["a", "b", "c"], &report, wanted.as_str());
    check_conflicts(&rt, &[], &no_report(&rt), "");
}

fn add_change(
    rt: &(impl AllocGlobal + Abort),
    changes: &mut Vec<Change>,
    text: &str,
    class: Class,
) {
    let change = Change {
        path: path(rt, text),
        class,
    };
    assert!(rt; changes.push(change).is_ok());
}

fn check_changes(rt: &(impl AllocGlobal + Abort), changes: &[Change], wanted: &str) {
    let lines = change_lines(rt.alloc(), changes).expect(rt, "memory");
    assert!(rt; lines.as_slice() == wanted.as_bytes());
}

#[test]
fn changes_are_class_and_path_and_their_count(rt: HostRuntime) {
    let mut changes = Vec::new(rt.alloc());
    check_changes(&rt, changes.as_slice(), "changes 0\n");
    add_change(&rt, &mut changes, "x.txt", Class::Replaced);
    check_changes(&rt, changes.as_slice(), "Replaced\tx.txt\nchanges 1\n");
}

#[test]
fn each_class_has_its_name(rt: HostRuntime) {
    let mut changes = Vec::new(rt.alloc());
    add_change(&rt, &mut changes, "a", Class::Changed);
    add_change(&rt, &mut changes, "b/c", Class::Deleted);
    add_change(&rt, &mut changes, "d", Class::SourceDeleted);
    add_change(&rt, &mut changes, "e", Class::Gone);
    let wanted = "Changed\ta\nDeleted\tb/c\nSourceDeleted\td\nGone\te\nchanges 4\n";
    check_changes(&rt, changes.as_slice(), wanted);
}
