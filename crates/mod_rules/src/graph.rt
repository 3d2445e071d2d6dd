// Which mods have to load before which.
ghost use Rattle.std.specs.Prelude.{◌≡◌, ◌↔◌, IsTrue, SomeIff};
ghost use Rattle.std.specs.Ordering.{is_lt};
ghost use Rattle.mod_rules.specs.Edges.{AreAscending, AreWithin, edge_cmp};

use std::marker::Model;

/// The enabled mods of a profile as nodes, and the edges between them. Node k is the k-th enabled mod
/// in the profile's order, counted from 0. An edge (a, b) says that node a has to load before node b.
#[derive(Drop)]
pub struct Graph {
    /// How many nodes there are.
    pub count: u32,
    /// The edges, each once: ascending by the first node, then by the second. Both nodes of each are
    /// below the count.
    pub edges: Vec<(u32, u32)>,
}

impl Model for Graph {
    ghost use Rattle.mod_rules.specs.Edges.{GraphData, graph_code, AreAscending, AreWithin};

    ghost Value = { GraphData };

    ghost coded = { graph_code };

    ghost view = { λ a. record { count = a.count; edges = a.edges.items } };

    ghost invariant = { λ a. AreAscending a.edges.items × AreWithin a.count a.edges.items };
}

// Whether the edge comes before the other.
fn is_below(edge: &(u32, u32), other: &(u32, u32)) -> bool
    ensures { result ≡ is_lt (edge_cmp edge.now other.now) }
{
    edge.cmp(other).is_lt()
}

// Whether each edge is below the next.
fn are_ascending(edges: &[(u32, u32)]) -> bool
    ensures { IsTrue result ↔ AreAscending edges.now }
{
    edges.is_sorted_by(is_below)
}

// Whether both nodes of each edge are among this many.
fn are_within(count: u32, edges: &[(u32, u32)]) -> bool
    ensures { IsTrue result ↔ AreWithin count edges.now }
{
    edges
        .iter()
        .all(|(first, second)| *first < count && *second < count)
}

impl Graph {
    /// The graph with so many nodes and these edges. There is none where an edge isn't below the
    /// next, or has a node that isn't below the count.
    pub fn new(count: u32, edges: Vec<(u32, u32)>) -> Option<Graph>
        ensures { SomeIff result (AreAscending edges.items × AreWithin count edges.items)
            (record { count = count; edges = edges.items }) }
    {
        if are_ascending(edges.as_slice()) && are_within(count, edges.as_slice()) {
            Some(Graph { count, edges })
        } else {
            None
        }
    }
}
