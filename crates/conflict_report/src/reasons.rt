// What decides the winners of contested paths.
ghost use Rattle.std.specs.Prelude.{◌≡◌, ◌≢◌, ◌<◌, ◌↔◌, ℕ, IsTrue, IfOk};
ghost use Rattle.std.specs.Prelude.{length, map, filter, nat_lt};
ghost use Rattle.std.specs.List.{AllByRecursion, Contains};
ghost use Rattle.winner_table.specs.Winners.{id_at, paths_of};
ghost use Rattle.winner_table.specs.Offers.{IsNodeOf};
ghost use Rattle.winner_table.specs.Providers.{path_of};
ghost use Rattle.conflict_report.specs.Relations.{Holds};
ghost use Rattle.conflict_report.specs.Reports.{IsLastWith, EachLeads, IsReason, IsReportOf};
ghost use Rattle.conflict_report.specs.Reports.{paths_in};
ghost use Rattle.conflict_report.specs.Entries.{has_more, IsMatch, HasReport};

use crate::relation::Relation;
use crate::{PathReport, Why};
use rel_paths::ModId;
use stage_scan::Scan;
use std::alloc::{AllocError, Global};
use winner_table::{By, Providers, WinRow};

// The last of the nodes that has this mod.
fn last_with(scans: &[Scan], nodes: &[u32], id: &ModId) -> u32
    requires nodes { AllByRecursion (IsNodeOf scans.now) nodes.now }
    requires some { Contains (map (id_at scans.now) nodes.now) id.now }
    ensures { IsLastWith scans.now nodes.now id.now result }
{
    for i in 0..nodes.len() {
        let node = nodes[nodes.len() - 1 - i];
        if scans[node as usize].mod_id == *id {
            return node;
        }
    }
    unreachable!()
}

// Whether each of the nodes but the winner leads to it.
fn all_lead(reach: &Relation, nodes: &[u32], winner: u32) -> bool
    requires winner { winner < reach.now.count }
    requires nodes { AllByRecursion (λ node. node < reach.now.count) nodes.now }
    ensures { IsTrue result ↔ EachLeads (Holds reach.now) nodes.now winner }
{
    for node in nodes {
        if *node != winner && !reach.has(*node, winner) {
            return false;
        }
    }
    true
}

// What decides that the winner wins over the others of the nodes.
fn why_of(reach: &Relation, nodes: &[u32], winner: u32, by: By) -> Why
    requires winner { winner < reach.now.count }
    requires nodes { AllByRecursion (λ node. node < reach.now.count) nodes.now }
    ensures { IsReason (Holds reach.now) nodes.now winner by result }
{
    match by {
        By::Override => Why::Override,
        By::Order => {
            if all_lead(reach, nodes, winner) {
                Why::Rule
            } else {
                Why::Position
            }
        }
    }
}

// The report of a row's path, which these nodes provide.
fn report_of(
    alloc: Global,
    scans: &[Scan],
    reach: &Relation,
    nodes: &[u32],
    row: &WinRow,
) -> Result<PathReport, AllocError>
    requires count { reach.now.count ≡ length scans.now }
    requires nodes { AllByRecursion (IsNodeOf scans.now) nodes.now }
    requires some { Contains (map (id_at scans.now) nodes.now) row.now.mod_id }
    ensures { IfOk result (IsReportOf scans.now (Holds reach.now) nodes.now row.now) }
{
    let winner = last_with(scans, nodes, &row.mod_id);
    let why = why_of(reach, nodes, winner, row.by);
    Ok(PathReport {
        path: row.path.copy()?,
        providers: Vec::from_slice(alloc, nodes)?,
        winner,
        why,
    })
}

// Whether these are more than one.
fn are_more(nodes: &[u32]) -> bool
    ensures { result ≡ nat_lt 1 (length nodes.now) }
{
    nodes.len() > 1
}

/// The reports of the paths that more than one node provides. The rows are those of the same paths.
pub(crate) fn reports_of(
    alloc: Global,
    scans: &[Scan],
    reach: &Relation,
    all: &[Providers],
    wins: &[WinRow],
) -> Result<Vec<PathReport>, AllocError>
    requires count { reach.now.count ≡ length scans.now }
    requires paths { map path_of all.now ≡ paths_of wins.now }
    requires matches { (entry : Providers) (row : WinRow) → Contains all.now entry
        → Contains wins.now row → path_of entry ≡ row.path → IsMatch scans.now entry row }
    ensures paths { IfOk result (λ reports.
        paths_in reports.items ≡ map path_of (filter has_more all.now)) }
    ensures each { IfOk result (λ reports.
        AllByRecursion (HasReport scans.now (Holds reach.now) all.now wins.now) reports.items) }
{
    let mut reports = Vec::new(alloc);
    for (i, row) in wins.iter().enumerate() {
        let nodes = all[i].nodes.as_slice();
        if are_more(nodes) {
            reports.push(report_of(alloc, scans, reach, nodes, row)?)?;
        }
    }
    Ok(reports)
}
