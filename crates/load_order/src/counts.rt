// How many predecessors each node waits for, and the nodes that wait for none.
ghost use Rattle.std.specs.Prelude.{◌≡◌, ◌<◌, ◌≤◌, ◌+◌, ◌-◌, ◌↔◌, ◌⊎◌, ◌^◌, ℕ, true, nat_eq};
ghost use Rattle.std.specs.Prelude.{All, length, take, drop, IfOk, OnOk, slice_index};
ghost use Rattle.std.specs.BTreeSet.{contains};
ghost use Rattle.std.specs.Ordering.{nat_cmp};
ghost use Rattle.mod_rules.specs.Edges.{AreAscending, AreWithin};
ghost use Rattle.load_order.specs.Counts.{count_into, edges_from};

use std::alloc::{AllocError, Global};
use std::collections::BTreeSet;

// How many edges lead to each node.
pub(crate) fn counts_into(
    alloc: Global,
    count: u32,
    edges: &[(u32, u32)],
) -> Result<Vec<usize>, AllocError>
    requires { AreWithin count edges.now }
    ensures length { IfOk result (λ counts. length counts.items ≡ count) }
    ensures counts { IfOk result (λ counts. (node : ℕ) → node < count
        → slice_index counts.items node ≡ count_into node edges.now) }
{
    let mut counts: Vec<usize> = vec![in alloc; 0; count as usize]?;
    for (_, to) in edges {
        counts[*to as usize] += 1;
    }
    Ok(counts)
}

// The nodes that wait for none.
pub(crate) fn ready_nodes(alloc: Global, waits: &[usize]) -> Result<BTreeSet<u32>, AllocError>
    requires { length waits.now < 2 ^ 32 }
    ensures { IfOk result (λ ready. (node : ℕ) → (contains nat_cmp ready node ≡ true)
        ↔ ((node < length waits.now) × (slice_index waits.now node ≡ 0))) }
{
    let mut ready = BTreeSet::new(alloc);
    for (node, count) in waits.iter().enumerate() {
        if *count == 0 {
            ready.insert(node as u32)?;
        }
    }
    Ok(ready)
}

// Where the edges that lead from the node begin and end.
fn span_from(edges: &[(u32, u32)], node: u32) -> (usize, usize)
    requires { AreAscending edges.now }
    ensures ordered { result.0 ≤ result.1 }
    ensures within { result.1 ≤ length edges.now }
    ensures part { take (result.1 - result.0) (drop result.0 edges.now)
        ≡ edges_from node edges.now }
{
    let start = edges.partition_point(|edge| edge.0 < node);
    let end = edges.partition_point(|edge| edge.0 <= node);
    (start, end)
}

// The edges that lead from the node.
pub(crate) fn edges_from(edges: &[(u32, u32)], node: u32) -> &[(u32, u32)]
    requires { AreAscending edges.now }
    ensures { result.now ≡ edges_from node edges.now }
{
    let (start, end) = span_from(edges, node);
    &edges[start..end]
}

// Lets the nodes that these edges lead to wait for as many fewer. Those that wait for none from now
// on are ready.
pub(crate) fn release(
    edges: &[(u32, u32)],
    waits: &mut [usize],
    ready: &mut BTreeSet<u32>,
) -> Result<(), AllocError>
    requires within { All (λ e. e.1 < length waits.old) edges.now }
    requires enough { (node : ℕ) → node < length waits.old
        → count_into node edges.now ≤ slice_index waits.old node }
    ensures length { length waits.new ≡ length waits.old }
    ensures waits { OnOk result ((node : ℕ) → slice_index waits.new node + count_into node edges.now
        ≡ slice_index waits.old node) }
    ensures ready { OnOk result ((node : ℕ) → (contains nat_cmp ready.new node ≡ true)
        ↔ ((contains nat_cmp ready.old node ≡ true)
        ⊎ ((0 < slice_index waits.old node) × (slice_index waits.new node ≡ 0)))) }
{
    for (_, to) in edges {
        waits[*to as usize] -= 1;
        if waits[*to as usize] == 0 {
            ready.insert(*to)?;
        }
    }
    Ok(())
}
