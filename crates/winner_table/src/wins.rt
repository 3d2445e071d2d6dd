// Which mod wins each path.
ghost use Rattle.std.specs.Prelude.{◌≡◌, ◌<◌, ◌↔◌, ℕ, List, IsTrue, IfOk, IfErr, length, map, nat_eq, option_map};
ghost use Rattle.std.specs.List.{AllByRecursion, Contains, IsDistinct};
ghost use Rattle.std.specs.Cmp.Lexicographic.{pointwise};
ghost use Rattle.rel_paths.specs.Names.{IsFreePath};
ghost use Rattle.winner_table.specs.Winners.{id_at, paths_of, HasEachOnce, IsWinner, AreWinners};
ghost use Rattle.winner_table.specs.Offers.{IsNodeOf};
ghost use Rattle.winner_table.specs.Providers.{path_of, AreAllProviders};
ghost use Rattle.winner_table.specs.Rows.{IsPick, HasNodes, HasEntry};
ghost use Rattle.winner_table.specs.Folders.{AreApart, IsWinError};

use crate::folders::first_folder;
use crate::overrides::{id_of, indexes_of};
use crate::{Providers, WinError, all_providers};
use profile_toml::Override;
use rel_paths::{ModId, RelPath};
use stage_scan::Scan;
use std::alloc::{AllocError, Global};

/// A provided path and the mod that wins it.
#[derive(Drop)]
pub struct WinRow {
    pub path: RelPath,
    pub mod_id: ModId,
    pub by: By,
}

/// What decides the winner of a path.
#[derive(Clone, Copy, Debug, PartialEq, Eq)]
pub enum By {
    /// An override whose mod provides the path.
    Override,
    /// The load order: the mod is the last that provides the path.
    Order,
}

// Whether one of the nodes has this mod.
fn has_mod(scans: &[Scan], nodes: &[u32], id: &ModId) -> bool
    requires { AllByRecursion (IsNodeOf scans.now) nodes.now }
    ensures { IsTrue result ↔ Contains (map (id_at scans.now) nodes.now) id.now }
{
    for node in nodes {
        if scans[*node as usize].mod_id == *id {
            return true;
        }
    }
    false
}

// The mod that wins a path with these providers, and what decides it.
fn pick<'a>(scans: &'a [Scan], nodes: &[u32], wanted: Option<&'a ModId>) -> (&'a ModId, By)
    requires some { 0 < length nodes.now }
    requires nodes { AllByRecursion (IsNodeOf scans.now) nodes.now }
    ensures { IsPick scans.now nodes.now (option_map (λ id. id.now) wanted.entry) result.0.now result.1 }
{
    if let Some(id) = wanted {
        if has_mod(scans, nodes, id) {
            return (id, By::Override);
        }
    }
    let last = nodes[nodes.len() - 1];
    (&scans[last as usize].mod_id, By::Order)
}

// The rows of all provided paths.
fn rows_of(
    alloc: Global,
    scans: &[Scan],
    all: &[Providers],
    overrides: &[Override],
) -> Result<Vec<WinRow>, AllocError>
    requires { AllByRecursion (HasNodes scans.now) all.now }
    ensures paths { IfOk result (λ rows. paths_of rows.items ≡ map path_of all.now) }
    ensures each { IfOk result (λ rows. AllByRecursion (HasEntry scans.now overrides.now all.now) rows.items) }
{
    let indexes = indexes_of(alloc, overrides)?;
    let mut rows = Vec::new(alloc);
    for entry in all {
        let wanted = id_of(&indexes, overrides, entry.path);
        let (id, by) = pick(scans, entry.nodes.as_slice(), wanted);
        rows.push(WinRow {
            path: entry.path.copy()?,
            mod_id: id.copy()?,
            by,
        })?;
    }
    Ok(rows)
}

/// The winner of each provided path, in path order: the override's mod where it provides the path,
/// otherwise the last one of the load order that does.
///
/// Scan k is that of node k, the order has every node once, and the paths of the overrides differ.
pub fn winners(
    alloc: Global,
    order: &[u32],
    scans: &[Scan],
    overrides: &[Override],
) -> Result<Vec<WinRow>, WinError>
    requires nodes { HasEachOnce (length scans.now) order.now }
    requires differ { IsDistinct (pointwise nat_eq) (map (λ entry. entry.path) overrides.now) }
    ensures winners { IfOk result (λ rows. AreWinners scans.now order.now overrides.now rows.items) }
    ensures free { IfOk result (λ rows. AllByRecursion IsFreePath (paths_of rows.items)) }
    ensures apart { IfOk result (λ rows. AreApart (paths_of rows.items)) }
    ensures err { IfErr result (IsWinError scans.now order.now) }
{
    let all = all_providers(alloc, order, scans)?;
    let mut rows = rows_of(alloc, scans, all.as_slice(), overrides)?;
    match first_folder(alloc, rows.as_slice())? {
        None => Ok(rows),
        Some(index) => {
            let row = rows.swap_remove(index);
            Err(WinError::FileAndFolder(row.path))
        }
    }
}
