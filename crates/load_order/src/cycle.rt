// The cycle that keeps nodes from being placed.
ghost use Rattle.std.specs.Prelude.{◌≡◌, ◌<◌, ◌≤◌, ℕ, Contains, length, reverse, IfOk, slice_index};
ghost use Rattle.mod_rules.specs.Edges.{AreAscending, AreWithin};
ghost use Rattle.load_order.specs.Walks.{IsEarliestWaiting, IsLasso, IsTurned};

use std::alloc::{AllocError, Global};

// For each node that some waiting node has to load before, the earliest of those.
pub(crate) fn earliest_before(
    alloc: Global,
    edges: &[(u32, u32)],
    waits: &[usize],
) -> Result<Vec<u32>, AllocError>
    requires ascending { AreAscending edges.now }
    requires within { AreWithin (length waits.now) edges.now }
    ensures length { IfOk result (λ before. length before.items ≡ length waits.now) }
    ensures within { IfOk result (λ before. (node : ℕ) → node < length waits.now
        → slice_index before.items node < length waits.now) }
    ensures earliest { IfOk result (λ before. (node a : ℕ) → Contains edges.now (a, node)
        → 0 < slice_index waits.now a
        → IsEarliestWaiting waits.now edges.now node (slice_index before.items node)) }
{
    let mut before: Vec<u32> = vec![in alloc; 0; waits.len()]?;
    for i in 0..edges.len() {
        let (first, second) = edges[edges.len() - 1 - i];
        if waits[first as usize] > 0 {
            before[second as usize] = first;
        }
    }
    Ok(before)
}

// The walk from the start, from each node to the one before it, until a node repeats: the nodes, and
// the one that repeats.
pub(crate) fn walk(alloc: Global, before: &[u32], start: u32) -> Result<(Vec<u32>, u32), AllocError>
    requires start { start < length before.now }
    requires within { (node : ℕ) → node < length before.now
        → slice_index before.now node < length before.now }
    ensures { IfOk result (λ r. IsLasso before.now start r.0.items r.1) }
{
    let mut seen: Vec<bool> = vec![in alloc; false; before.len()]?;
    let mut path = Vec::new(alloc);
    let mut node = start;
    while !seen[node as usize] {
        seen[node as usize] = true;
        path.push(node)?;
        node = before[node as usize];
    }
    Ok((path, node))
}

// The first place of the node in the list.
fn place_of(list: &[u32], node: u32) -> usize
    ensures bound { result ≤ length list.now }
    ensures found { Contains list.now node
        → (result < length list.now) × (slice_index list.now result ≡ node) }
{
    for (i, item) in list.iter().enumerate() {
        if *item == node {
            return i;
        }
    }
    list.len()
}

// The place of the earliest node in the list.
fn place_of_earliest(list: &[u32]) -> usize
    requires { 0 < length list.now }
    ensures bound { result < length list.now }
    ensures earliest { (k : ℕ) → k < length list.now
        → slice_index list.now result ≤ slice_index list.now k }
{
    let mut best = 0;
    for (i, node) in list.iter().enumerate() {
        if *node < list[best] {
            best = i;
        }
    }
    best
}

// The list from its last node to its first.
fn backwards(alloc: Global, list: &[u32]) -> Result<Vec<u32>, AllocError>
    ensures { IfOk result (λ turned. turned.items ≡ reverse list.now) }
{
    list.iter().rev().copied().collect(alloc)
}

// The loop that the path ends in, backwards, and begun with its earliest node.
pub(crate) fn cycle_of(alloc: Global, path: &[u32], again: u32) -> Result<Vec<u32>, AllocError>
    requires { Contains path.now again }
    ensures { IfOk result (λ cycle. IsTurned path.now again cycle.items) }
{
    let entry = place_of(path, again);
    let mut cycle = backwards(alloc, &path[entry..])?;
    let earliest = place_of_earliest(cycle.as_slice());
    cycle.rotate_left(earliest);
    Ok(cycle)
}
