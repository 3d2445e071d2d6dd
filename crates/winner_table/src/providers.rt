// The provided paths, each with its providers.
ghost use Rattle.std.specs.Prelude.{◌≡◌, ◌≢◌, ◌<◌, ◌≤◌, IfOk, length, map, take, drop};
ghost use Rattle.std.specs.List.{AllByRecursion};
ghost use Rattle.winner_table.specs.Winners.{HasEachOnce};
ghost use Rattle.winner_table.specs.Offers.{path_and_node, path_bytes, grouped, HasPath, BeginsOther};
ghost use Rattle.winner_table.specs.Providers.{path_and_nodes, AreAllProviders};

use crate::Provided;
use crate::provided::all_provided;
use rel_paths::RelPath;
use stage_scan::Scan;
use std::alloc::{AllocError, Global};

/// A provided path, and the nodes that provide it, in the load order.
#[derive(Drop)]
pub struct Providers<'a> {
    pub path: &'a RelPath,
    pub nodes: Vec<u32>,
}

// How many of these, from the first one on, have this path.
fn count_with(items: &[Provided], path: &RelPath) -> usize
    ensures within { result ≤ length items.now }
    ensures same { AllByRecursion (HasPath path.now) (map path_and_node (take result items.now)) }
    ensures next { BeginsOther path.now (map path_and_node (drop result items.now)) }
{
    let mut count = 0;
    while count < items.len() && *items[count].path == *path {
        count += 1;
    }
    count
}

fn nodes_of(alloc: Global, items: &[Provided]) -> Result<Vec<u32>, AllocError>
    ensures { IfOk result (λ nodes. nodes.items ≡ map (λ x. x.1) (map path_and_node items.now)) }
{
    let mut nodes = Vec::new(alloc);
    for item in items {
        nodes.push(item.node)?;
    }
    Ok(nodes)
}

// Equal paths, which stand side by side, as one path with all their nodes.
fn group<'a>(alloc: Global, provided: &[Provided<'a>]) -> Result<Vec<Providers<'a>>, AllocError>
    ensures { IfOk result (λ groups.
        map path_and_nodes groups.items ≡ grouped (map path_and_node provided.now)) }
{
    let mut groups = Vec::new(alloc);
    let mut start = 0;
    while start < provided.len() {
        let (_, rest) = provided.split_at(start);
        let path = rest[0].path;
        let count = count_with(rest, path);
        let (same, _) = rest.split_at(count);
        let nodes = nodes_of(alloc, same)?;
        groups.push(Providers { path, nodes })?;
        start += count;
    }
    Ok(groups)
}

/// The provided paths in path order, each with the nodes that provide it in the load order. Scan k
/// is that of node k, and the order has every node once.
pub fn all_providers<'a>(
    alloc: Global,
    order: &[u32],
    scans: &'a [Scan],
) -> Result<Vec<Providers<'a>>, AllocError>
    requires { HasEachOnce (length scans.now) order.now }
    ensures { IfOk result (λ all. AreAllProviders scans.now order.now all.items) }
{
    let provided = all_provided(alloc, order, scans)?;
    group(alloc, provided.as_slice())
}
