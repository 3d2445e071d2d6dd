// Whether a list is a load order.
ghost use Rattle.std.specs.Prelude.{ℕ, ◌<◌, ◌↔◌, IsTrue, Contains};
ghost use Rattle.load_order.specs.Orders.{IsLawful, MayComeNext};

use mod_rules::Graph;

// Whether each first node of an edge to this node is in front.
fn is_free(edges: &[(u32, u32)], front: &[u32], node: u32) -> bool
    ensures { IsTrue result ↔ ((a : ℕ) → Contains edges.now (a, node) → Contains front.now a) }
{
    for (first, second) in edges {
        if *second == node && !front.contains(first) {
            return false;
        }
    }
    true
}

// Whether the node may come next after those in front.
fn may_come_next(graph: &Graph, front: &[u32], node: u32) -> bool
    ensures { IsTrue result ↔ MayComeNext graph.now front.now node }
{
    node < graph.count && !front.contains(&node) && is_free(graph.edges.as_slice(), front, node)
}

// Whether the list has each node of the graph.
fn has_every_node(graph: &Graph, list: &[u32]) -> bool
    ensures { IsTrue result ↔ ((node : ℕ) → node < graph.now.count → Contains list.now node) }
{
    for node in 0..graph.count {
        if !list.contains(&node) {
            return false;
        }
    }
    true
}

/// Whether the list has each node of the graph once and nothing else, and the first node of each
/// edge in front of the second. Takes no memory, and time n (n + e) for n nodes and e edges.
pub fn check_order(graph: &Graph, list: &[u32]) -> bool
    ensures { IsTrue result ↔ IsLawful graph.now list.now }
{
    for (i, node) in list.iter().enumerate() {
        if !may_come_next(graph, &list[..i], *node) {
            return false;
        }
    }
    has_every_node(graph, list)
}
