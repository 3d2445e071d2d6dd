// Reports of worlds that are written out.
ghost use Rattle.std.specs.Prelude.{◌≡◌, ◌<◌, length};
ghost use Rattle.load_order.specs.Orders.{IsLawful};

use super::worlds::{graph_of, need_each_once, overrides_of, scans_of, winners_of};
use conflict_report::{PathReport, Report, Why, conflicts};
use load_order::order;
use mod_rules::Graph;
use profile_toml::Override;
use stage_scan::Scan;
use std::process::Abort;

fn word_of(why: Why) -> &'static str {
    match why {
        Why::Override => "override",
        Why::Rule => "rule",
        Why::Position => "position",
    }
}

// The id of a node's mod.
fn id_of<'a>(rt: &(impl AllocGlobal + Abort), scans: &'a [Scan], node: u32) -> &'a str {
    scans.get(node as usize).expect(rt, "a scan").mod_id.text()
}

// Path, winner, reason and providers.
fn path_text(rt: &(impl AllocGlobal + Abort), scans: &[Scan], report: &PathReport) -> String {
    let winner = id_of(rt, scans, report.winner);
    let word = word_of(report.why);
    let mut text = format!(in rt.alloc(); "path {} {winner} {word}", report.path.text()).expect(
        rt, "memory",
    );
    for node in &report.providers {
        text.push(' ').expect(rt, "memory");
        text.push_str(id_of(rt, scans, *node)).expect(rt, "memory");
    }
    text
}

fn paths_text(rt: &(impl AllocGlobal + Abort), scans: &[Scan], paths: &[PathReport]) -> String {
    let mut text = String::new(rt.alloc());
    for report in paths {
        text.push_str(path_text(rt, scans, report).as_str())
            .expect(rt, "memory");
        text.push('\n').expect(rt, "memory");
    }
    text
}

fn pairs_text(rt: &(impl AllocGlobal + Abort), scans: &[Scan], pairs: &[(u32, u32)]) -> String {
    let mut text = String::new(rt.alloc());
    for (first, second) in pairs {
        let (a, b) = (id_of(rt, scans, *first), id_of(rt, scans, *second));
        let line = format!(in rt.alloc(); "pair {a} {b}\n").expect(rt, "memory");
        text.push_str(line.as_str()).expect(rt, "memory");
    }
    text
}

fn order_of(rt: &(impl AllocGlobal + Abort), graph: &Graph) -> Vec<u32>
    ensures { IsLawful graph.now result.items }
{
    order(rt.alloc(), graph).expect(rt, "an order")
}

// The report in this load order.
fn report_in(
    rt: &(impl AllocGlobal + Abort),
    graph: &Graph,
    order: &[u32],
    scans: &[Scan],
    overrides: &[Override],
) -> Report
    requires count { graph.now.count ≡ length scans.now }
    requires lawful { IsLawful graph.now order.now }
    requires few { length overrides.now < 2 }
{
    need_each_once(rt, scans.len(), order);
    let rows = winners_of(rt.alloc(), order, scans, overrides).expect(rt, "winners");
    conflicts(rt.alloc(), order, graph, scans, rows.as_slice()).expect(rt, "memory")
}

fn report_of(
    rt: &(impl AllocGlobal + Abort),
    graph: &Graph,
    scans: &[Scan],
    overrides: &[Override],
) -> Report
    requires { graph.now.count ≡ length scans.now }
{
    assert!(rt; overrides.len() < 2);
    let order = order_of(rt, graph);
    report_in(rt, graph, order.as_slice(), scans, overrides)
}

/// Stops where there is no report.
pub(super) fn need_report(rt: &(impl AllocGlobal + Abort), graph: &Graph, scans: &[Scan])
    requires { graph.now.count ≡ length scans.now }
{
    let _report = report_of(rt, graph, scans, &[]);
}

// What is reported of these mods, between which there are these edges.
fn check_report(
    rt: &(impl AllocGlobal + Abort),
    mods: &[(&str, &[&str])],
    edges: &[(u32, u32)],
    wanted: Option<(&str, &str)>,
    text: &str,
) {
    let scans = scans_of(rt, mods);
    let overrides = overrides_of(rt, wanted);
    let graph = graph_of(rt, scans.len(), edges);
    let report = report_of(rt, &graph, scans.as_slice(), overrides.as_slice());
    let paths = paths_text(rt, scans.as_slice(), report.paths.as_slice());
    let pairs = pairs_text(rt, scans.as_slice(), report.pairs.as_slice());
    let found = format!(in rt.alloc(); "{paths}{pairs}").expect(rt, "memory");
    assert_eq!(rt; found.as_str(), text);
}

#[test]
fn the_place_in_the_order_decides_between_mods_without_rules(rt: HostRuntime) {
    let mods: [(&str, &[&str]); 2] = [("a", &["x.txt"]), ("b", &["x.txt"])];
    let text = "path x.txt b position a b\npair a b\n";
    check_report(&rt, mods.as_slice(), &[], None, text);
    check_report(
        &rt,
        mods.as_slice(),
        &[(1, 0)],
        None,
        "path x.txt a rule b a\n",
    );
}

#[test]
fn a_walk_of_two_edges_is_a_rule(rt: HostRuntime) {
    let mods: [(&str, &[&str]); 3] = [("a", &["x"]), ("b", &["x"]), ("c", &["x"])];
    let edges = [(0, 1), (1, 2)];
    check_report(
        &rt,
        mods.as_slice(),
        edges.as_slice(),
        None,
        "path x c rule a b c\n",
    );
    let text = "path x a override a b c\n";
    check_report(
        &rt,
        mods.as_slice(),
        edges.as_slice(),
        Some(("x", "a")),
        text,
    );
}

#[test]
fn paths_of_one_mod_are_not_reported(rt: HostRuntime) {
    let mods: [(&str, &[&str]); 3] = [("a", &["x", "y"]), ("b", &["z"]), ("c", &["y"])];
    let text = "path y c position a c\npair a c\n";
    check_report(&rt, mods.as_slice(), &[(0, 1)], None, text);
}

#[test]
fn a_walk_through_a_mod_without_the_path_counts(rt: HostRuntime) {
    let mods: [(&str, &[&str]); 4] = [("a", &["x"]), ("b", &["q"]), ("c", &["x"]), ("d", &["x"])];
    let edges = [(0, 1), (1, 2)];
    let text = "path x d position a c d\npair a d\npair c d\n";
    check_report(&rt, mods.as_slice(), edges.as_slice(), None, text);
}
