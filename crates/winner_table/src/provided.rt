// The paths of the mods' files in the load order, and merged by path.
ghost use Rattle.std.specs.Prelude.{◌≡◌, ◌<◌, ◌≤◌, ◌^◌, IfOk, All, map, flat_map, length};
ghost use Rattle.std.specs.List.{AllByRecursion};
ghost use Rattle.stage_scan.specs.Files.{AreFilePaths};
ghost use Rattle.winner_table.specs.Merged.{AreAscending, sorted_by};
ghost use Rattle.winner_table.specs.Winners.{files_at};
ghost use Rattle.winner_table.specs.Offers.{path_and_node, path_bytes, offers_of, offers, IsNodeOf};

use crate::{PathOrder, merge_runs};
use rel_paths::RelPath;
use stage_scan::Scan;
use std::alloc::{AllocError, Global};

/// A path that a node provides.
#[derive(Clone, Copy)]
pub struct Provided<'a> {
    pub path: &'a RelPath,
    pub node: u32,
}

// The files of a node.
fn run_of<'a>(
    alloc: Global,
    node: u32,
    files: &'a [RelPath],
) -> Result<Vec<Provided<'a>>, AllocError>
    ensures { IfOk result (λ run. map path_and_node run.items ≡ offers_of node files.now) }
{
    let mut run = Vec::new(alloc);
    for path in files {
        run.push(Provided { path, node })?;
    }
    Ok(run)
}

// The files of each node, in the load order.
fn runs_of<'a>(
    alloc: Global,
    order: &[u32],
    scans: &'a [Scan],
) -> Result<Vec<Vec<Provided<'a>>>, AllocError>
    requires { AllByRecursion (IsNodeOf scans.now) order.now }
    ensures count { IfOk result (λ runs. length runs.items ≡ length order.now) }
    ensures items { IfOk result (λ runs.
        map path_and_node (flat_map (λ run. run.items) runs.items) ≡ offers scans.now order.now) }
    ensures ascending { IfOk result (λ runs. All (λ run. AreAscending path_bytes run.items) runs.items) }
    ensures files { IfOk result (λ _. AllByRecursion (λ node. AreFilePaths (files_at scans.now node)) order.now) }
{
    let mut runs = Vec::new(alloc);
    for node in order {
        let scan = &scans[*node as usize];
        runs.push(run_of(alloc, *node, scan.files.as_slice())?)?;
    }
    Ok(runs)
}

/// All paths of the nodes' files, ascending by path, and equal paths in the load order.
pub(crate) fn all_provided<'a>(
    alloc: Global,
    order: &[u32],
    scans: &'a [Scan],
) -> Result<Vec<Provided<'a>>, AllocError>
    requires few { length order.now ≤ 2 ^ 32 }
    requires nodes { AllByRecursion (IsNodeOf scans.now) order.now }
    ensures items { IfOk result (λ all.
        map path_and_node all.items ≡ sorted_by (λ x. x.0) (offers scans.now order.now)) }
    ensures files { IfOk result (λ _. AllByRecursion (λ node. AreFilePaths (files_at scans.now node)) order.now) }
{
    let runs = runs_of(alloc, order, scans)?;
    let mut comparison = PathOrder::new();
    match merge_runs(runs, &mut comparison) {
        Ok(all) => Ok(all),
        Err(_) => Err(AllocError),
    }
}
