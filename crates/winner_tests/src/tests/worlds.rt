// Worlds of mods and their files, and the winners of their paths as text.
ghost use Rattle.std.specs.Prelude.{◌≡◌, ◌<◌, IsTrue, IfOk, length};
ghost use Rattle.winner_table.specs.Winners.{HasEachOnce};
ghost use Rattle.conflict_report.specs.Reports.{AreWins};

use load_order::check_order;
use mod_rules::Graph;
use profile_toml::Override;
use rel_paths::{ModId, RelPath};
use stage_scan::{Files, Scan};
use std::alloc::Global;
use std::process::Abort;
use winner_table::{By, WinError, WinRow, winners};

// The scan of a mod with these files, which are in path order.
fn scan_of(rt: &(impl AllocGlobal + Abort), id: &str, texts: &[&str]) -> Scan {
    let mut paths = Vec::new(rt.alloc());
    for text in texts {
        let path = RelPath::parse(rt.alloc(), *text).expect(rt, "a path");
        assert!(rt; paths.push(path).is_ok());
    }
    Scan {
        mod_id: ModId::parse(rt.alloc(), id).expect(rt, "an id"),
        files: Files::checked(paths).expect(rt, "paths in order"),
        entries: 0,
    }
}

/// The scans of mods with these ids and files.
pub(super) fn scans_of(rt: &(impl AllocGlobal + Abort), mods: &[(&str, &[&str])]) -> Vec<Scan> {
    let mut scans = Vec::new(rt.alloc());
    for (id, texts) in mods {
        assert!(rt; scans.push(scan_of(rt, *id, *texts)).is_ok());
    }
    scans
}

/// No override, or the one that gives this path to this mod.
pub(super) fn overrides_of(
    rt: &(impl AllocGlobal + Abort),
    wanted: Option<(&str, &str)>,
) -> Vec<Override> {
    let mut overrides = Vec::new(rt.alloc());
    if let Some((path, id)) = wanted {
        let path = RelPath::parse(rt.alloc(), path).expect(rt, "a path");
        let id = ModId::parse(rt.alloc(), id).expect(rt, "an id");
        assert!(rt;
            overrides
                .push(Override::plain(rt.alloc(), path, id))
                .is_ok()
        );
    }
    overrides
}

/// The graph of so many nodes with these edges.
pub(super) fn graph_of(rt: &(impl AllocGlobal + Abort), count: usize, edges: &[(u32, u32)]) -> Graph
    ensures { result.count ≡ count }
{
    assert!(rt; count <= 2_000);
    let edges = edges.to_vec(rt.alloc()).expect(rt, "memory");
    Graph::new(count as u32, edges).expect(rt, "edges that ascend")
}

// Whether the list has each node of the graph once and keeps its edges.
fn has_each_once(graph: &Graph, order: &[u32]) -> bool
    ensures { IsTrue result → HasEachOnce graph.now.count order.now }
{
    check_order(graph, order)
}

/// Stops where the list doesn't have each of so many nodes once.
pub(super) fn need_each_once(rt: &(impl AllocGlobal + Abort), count: usize, order: &[u32])
    ensures { HasEachOnce count order.now }
{
    let graph = graph_of(rt, count, &[]);
    assert!(rt; has_each_once(&graph, order));
}

fn word_of(by: By) -> &'static str {
    match by {
        By::Override => "override",
        By::Order => "order",
    }
}

// Path, mod and what decides it for each row.
fn rows_text(rt: &(impl AllocGlobal + Abort), rows: &[WinRow]) -> String {
    let mut text = String::new(rt.alloc());
    for row in rows {
        let word = word_of(row.by);
        let line = format!(in rt.alloc(); "{} {} {word}\n", row.path.text(), row.mod_id.text());
        text.push_str(line.expect(rt, "memory").as_str())
            .expect(rt, "memory");
    }
    text
}

/// What `winners` answers where there is at most one override.
pub(super) fn winners_of(
    alloc: Global,
    order: &[u32],
    scans: &[Scan],
    overrides: &[Override],
) -> Result<Vec<WinRow>, WinError>
    requires nodes { HasEachOnce (length scans.now) order.now }
    requires few { length overrides.now < 2 }
    ensures { IfOk result (λ rows. AreWins scans.now order.now rows.items) }
{
    winners(alloc, order, scans, overrides)
}

/// Stops where there are no winners.
pub(super) fn need_winners(rt: &(impl AllocGlobal + Abort), scans: &[Scan], order: &[u32]) {
    need_each_once(rt, scans.len(), order);
    assert!(rt; winners_of(rt.alloc(), order, scans, &[]).is_ok());
}

// The answer as text.
fn answer_text(
    rt: &(impl AllocGlobal + Abort),
    scans: &[Scan],
    order: &[u32],
    overrides: &[Override],
) -> String {
    assert!(rt; overrides.len() < 2);
    need_each_once(rt, scans.len(), order);
    match winners_of(rt.alloc(), order, scans, overrides) {
        Ok(rows) => rows_text(rt, rows.as_slice()),
        Err(WinError::FileAndFolder(path)) => {
            format!(in rt.alloc(); "FileAndFolder {}", path.text()).expect(rt, "memory")
        }
        Err(WinError::Memory) => panic!(rt; "memory"),
    }
}

/// The winners of this world are so.
pub(super) fn check_winners(
    rt: &(impl AllocGlobal + Abort),
    mods: &[(&str, &[&str])],
    order: &[u32],
    wanted: Option<(&str, &str)>,
    rows: &str,
) {
    let scans = scans_of(rt, mods);
    let overrides = overrides_of(rt, wanted);
    let answer = answer_text(rt, scans.as_slice(), order, overrides.as_slice());
    assert_eq!(rt; answer.as_str(), rows);
}
