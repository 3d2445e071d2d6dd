// The load order, taken node by node.
ghost use Rattle.std.specs.Prelude.{◌≡◌, ◌<◌, ◌≤◌, ◌^◌, ℕ, ◌↔◌, List, Contains, length};
ghost use Rattle.std.specs.Prelude.{IfOk, IfErr, IfSome, IfNone, slice_index};
ghost use Rattle.load_order.specs.Orders.{IsLawful, IsTaken, IsNoLater, HasNoRepeat};
ghost use Rattle.load_order.specs.Cycles.{IfCycle, IsClosedWalk, BeginsEarliest, IsFound};

use crate::OrderError;
use crate::counts::{counts_into, edges_from, ready_nodes, release};
use crate::cycle::{cycle_of, earliest_before, walk};
use mod_rules::Graph;
use std::alloc::{AllocError, Global};

// Takes the earliest node that may come next until there is none. Gives the nodes taken, and how
// many predecessors each node still waits for.
fn place(alloc: Global, graph: &Graph) -> Result<(Vec<u32>, Vec<usize>), AllocError>
    ensures taken { IfOk result (λ r. IsTaken graph.now r.0.items) }
    ensures length { IfOk result (λ r. length r.1.items ≡ graph.now.count) }
    ensures bound { IfOk result (λ r. length r.1.items < 2 ^ 32) }
    ensures waits { IfOk result (λ r. (node : ℕ) → node < graph.now.count
        → Contains r.0.items node ↔ (slice_index r.1.items node ≡ 0)) }
{
    let edges = graph.edges.as_slice();
    let mut waits = counts_into(alloc, graph.count, edges)?;
    let mut ready = ready_nodes(alloc, waits.as_slice())?;
    let mut placed = Vec::new(alloc);
    while let Some(node) = ready.pop_first() {
        placed.push(node)?;
        release(edges_from(edges, node), waits.as_mut_slice(), &mut ready)?;
    }
    Ok((placed, waits))
}

// The earliest node that waits.
fn earliest_waiting(waits: &[usize]) -> Option<u32>
    requires { length waits.now < 2 ^ 32 }
    ensures none { IfNone result ((node : ℕ) → slice_index waits.now node ≡ 0) }
    ensures waiting { IfSome result (λ start. 0 < slice_index waits.now start) }
    ensures earliest { IfSome result (λ start.
        (node : ℕ) → 0 < slice_index waits.now node → start ≤ node) }
{
    for (node, count) in waits.iter().enumerate() {
        if *count > 0 {
            return Some(node as u32);
        }
    }
    None
}

/// The load order of the graph: of the nodes not placed yet, the next is the earliest that has no
/// unplaced predecessor. Of all lists with each node once and the first node of each edge in front
/// of the second it is the least, compared node by node.
///
/// `Cycle` comes exactly where there is no such list: its nodes have to load each before the next,
/// and the last before the first. It is found so: from the earliest node that can't be placed go to
/// its earliest unplaced predecessor, until a node repeats. The loop is listed along the edges, from
/// its earliest node. Takes time (n + e) log n for n nodes and e edges.
pub fn order(alloc: Global, graph: &Graph) -> Result<Vec<u32>, OrderError>
    ensures lawful { IfOk result (λ list. IsLawful graph.now list.items) }
    ensures taken { IfOk result (λ list. IsTaken graph.now list.items) }
    ensures alone { IfOk result (λ list.
        (other : List ℕ) → IsTaken graph.now other → other ≡ list.items) }
    ensures least { IfOk result (λ list.
        (other : List ℕ) → IsLawful graph.now other → IsNoLater list.items other) }
    ensures none_lawful { IfErr result (λ e.
        IfCycle e (λ _. (list : List ℕ) → IsLawful graph.now list → ⊥)) }
    ensures closed { IfErr result (λ e. IfCycle e (IsClosedWalk graph.now)) }
    ensures once { IfErr result (λ e. IfCycle e HasNoRepeat) }
    ensures begins { IfErr result (λ e. IfCycle e BeginsEarliest) }
    ensures found { IfErr result (λ e. IfCycle e (IsFound graph.now)) }
    ensures found_alone { IfErr result (λ e.
        IfCycle e (λ cycle. (other : List ℕ) → IsFound graph.now other → other ≡ cycle)) }
{
    let (placed, waits) = place(alloc, graph)?;
    let Some(start) = earliest_waiting(waits.as_slice()) else {
        return Ok(placed);
    };
    let before = earliest_before(alloc, graph.edges.as_slice(), waits.as_slice())?;
    let (path, again) = walk(alloc, before.as_slice(), start)?;
    let cycle = cycle_of(alloc, path.as_slice(), again)?;
    Err(OrderError::Cycle(cycle))
}
