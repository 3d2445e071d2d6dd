// Which nodes lead to which along the edges of a graph.
ghost use Rattle.std.specs.Prelude.{◌≡◌, ◌<◌, ◌≤◌, ◌-◌, All, IfOk, length, take, drop};
ghost use Rattle.mod_rules.specs.Edges.{AreAscending};
ghost use Rattle.load_order.specs.Counts.{edges_from};
ghost use Rattle.load_order.specs.Orders.{IsLawful};
ghost use Rattle.conflict_report.specs.Relations.{GrowsBy, FollowsFrom, TellsLeads};

use crate::relation::Relation;
use mod_rules::Graph;
use std::alloc::{AllocError, Global};

// Where the edges that lead from the node begin and end.
fn span_from(edges: &[(u32, u32)], node: u32) -> (usize, usize)
    requires { AreAscending edges.now }
    ensures ordered { result.0 ≤ result.1 }
    ensures within { result.1 ≤ length edges.now }
    ensures part { take (result.1 - result.0) (drop result.0 edges.now)
        ≡ edges_from node edges.now }
{
    let start = edges.partition_point(|edge| edge.0 < node);
    let end = edges.partition_point(|edge| edge.0 <= node);
    (start, end)
}

// The edges that lead from the node.
fn from_node(edges: &[(u32, u32)], node: u32) -> &[(u32, u32)]
    requires { AreAscending edges.now }
    ensures { result.now ≡ edges_from node edges.now }
{
    let (start, end) = span_from(edges, node);
    &edges[start..end]
}

// Lets the node lead to where these edges go, and to all that those nodes lead to.
fn follow(reach: &mut Relation, node: u32, edges: &[(u32, u32)])
    requires node { node < reach.old.count }
    requires within { All (λ e. e.1 < reach.old.count) edges.now }
    ensures { GrowsBy reach.old reach.new (FollowsFrom reach.old node edges.now) }
{
    for (_, next) in edges {
        reach.add(node, *next);
        reach.join(node, *next);
    }
}

/// Which nodes lead to which along edges.
///
/// The order is lawful, so all that a node leads to stands behind it: where the nodes are taken
/// from the last one on, what each of these leads to is known.
pub(crate) fn reach_of(alloc: Global, graph: &Graph, order: &[u32]) -> Result<Relation, AllocError>
    requires { IsLawful graph.now order.now }
    ensures { IfOk result (TellsLeads graph.now) }
{
    let edges = graph.edges.as_slice();
    let mut reach = Relation::none(alloc, graph.count)?;
    for done in 0..order.len() {
        let node = order[order.len() - 1 - done];
        follow(&mut reach, node, from_node(edges, node));
    }
    Ok(reach)
}
