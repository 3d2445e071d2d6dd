// The report of conflicts.
ghost use Rattle.std.specs.Prelude.{◌≡◌, ◌↔◌, ℕ, IfOk, length, filter};
ghost use Rattle.std.specs.List.{AllByRecursion, Contains};
ghost use Rattle.mod_rules.specs.Edges.{AreAscending};
ghost use Rattle.load_order.specs.Orders.{IsLawful};
ghost use Rattle.winner_table.specs.Winners.{paths_of};
ghost use Rattle.conflict_report.specs.Leading.{Leads};
ghost use Rattle.conflict_report.specs.Reports.{AreWins, is_contested, paths_in};
ghost use Rattle.conflict_report.specs.Reports.{IsReport, IsUndecided};

use crate::pairs::{pairs_of, shared_of};
use crate::reach::reach_of;
use crate::reasons::reports_of;
use mod_rules::Graph;
use rel_paths::RelPath;
use stage_scan::Scan;
use std::alloc::{AllocError, Global};
use winner_table::{WinRow, all_providers};

/// What decides the winner of a path that more than one mod provides.
#[derive(Clone, Copy, Debug, PartialEq, Eq)]
pub enum Why {
    /// An override whose mod provides the path.
    Override,
    /// The rules: from each other provider a walk along edges leads to the winner.
    Rule,
    /// The winner's place in the load order alone.
    Position,
}

/// A path that more than one mod provides.
#[derive(Drop)]
pub struct PathReport {
    pub path: RelPath,
    /// The nodes that provide it, in the load order.
    pub providers: Vec<u32>,
    /// The one of them that wins it.
    pub winner: u32,
    pub why: Why,
}

/// What mods have in common.
#[derive(Drop)]
pub struct Report {
    /// The paths that more than one mod provides, in path order.
    pub paths: Vec<PathReport>,
    /// The nodes that share a path and have no walk along edges between them in either direction:
    /// the lower node first, ascending.
    pub pairs: Vec<(u32, u32)>,
}

/// The paths that more than one node provides, each with its providers, its winner and what decided
/// it; and the pairs of nodes that share a path but have no walk along edges between them.
///
/// Scan k is that of node k, and the graph has as many nodes as there are scans. The order has
/// every node once and keeps the edges. The rows are those of the provided paths, in path order,
/// each with the mod of a provider. Fails only for want of memory: it takes two marks for each pair
/// of nodes.
pub fn conflicts(
    alloc: Global,
    order: &[u32],
    graph: &Graph,
    scans: &[Scan],
    wins: &[WinRow],
) -> Result<Report, AllocError>
    requires count { graph.now.count ≡ length scans.now }
    requires lawful { IsLawful graph.now order.now }
    requires wins { AreWins scans.now order.now wins.now }
    ensures paths { IfOk result (λ report. paths_in report.paths.items
        ≡ filter (is_contested scans.now order.now) (paths_of wins.now)) }
    ensures each { IfOk result (λ report. AllByRecursion
        (IsReport scans.now order.now (Leads graph.now) wins.now) report.paths.items) }
    ensures ascending { IfOk result (λ report. AreAscending report.pairs.items) }
    ensures pairs { IfOk result (λ report. (a b : ℕ) → Contains report.pairs.items (a, b)
        ↔ IsUndecided scans.now (Leads graph.now) a b) }
{
    let all = all_providers(alloc, order, scans)?;
    let reach = reach_of(alloc, graph, order)?;
    let paths = reports_of(alloc, scans, &reach, all.as_slice(), wins)?;
    let shared = shared_of(alloc, graph.count, all.as_slice())?;
    let pairs = pairs_of(alloc, &shared, &reach)?;
    Ok(Report { paths, pairs })
}
