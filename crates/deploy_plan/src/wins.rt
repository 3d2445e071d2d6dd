// The winners, each with the path of its file below the folder of its mod.
ghost use Rattle.std.specs.Prelude.{◌≡◌, ◌++◌, ℕ, List, IfOk, OnOk, Some, map, filter_map, option_map, option_to_list};
ghost use Rattle.std.specs.List.{AllByRecursion};
ghost use Rattle.std.specs.Ordering.{nat_cmp};
ghost use Rattle.std.specs.Cmp.Lexicographic.{slice_cmp};
ghost use Rattle.std.specs.BTreeMap.{get};
ghost use Rattle.rel_paths.specs.Names.{IsModId};
ghost use Rattle.deploy_plan.specs.Told.{win_seen};
ghost use Rattle.deploy_plan.specs.Sources.{AreFrom, first_index, source_at, source_in, found_win, wins_of};

use rel_paths::{ModId, RelPath};
use stage_scan::{Scan, Sources};
use std::alloc::{AllocError, Global};
use std::collections::BTreeMap;
use winner_table::WinRow;

/// A winner: its path, its mod, and the path of its file below the folder of the mod.
#[derive(Clone, Copy)]
pub(crate) struct Won<'a> {
    pub path: &'a RelPath,
    pub mod_id: &'a ModId,
    pub source: &'a RelPath,
}

// For each mod the index of its first scan.
fn indexes_of(alloc: Global, scans: &[Scan]) -> Result<BTreeMap<ModId, usize>, AllocError>
    ensures { IfOk result (λ indexes.
        (id : List ℕ) → get (slice_cmp nat_cmp) indexes id ≡ first_index scans.now id) }
{
    let mut indexes = BTreeMap::new(alloc);
    let mut index = scans.len();
    while index > 0 {
        index -= 1;
        indexes.insert(scans[index].mod_id.copy()?, index)?;
    }
    Ok(indexes)
}

// The source of a file of a scan, which has the same index.
fn source_of<'a>(scan: &Scan, sources: &'a Sources, path: &RelPath) -> Option<&'a RelPath>
    ensures { option_map (λ s. s.now) result ≡ source_at scan.now.files sources.now.paths.items path.now }
{
    match scan.files.as_slice().binary_search(path) {
        Ok(index) => sources.paths.get(index),
        Err(_) => None,
    }
}

// The source of a file of the scan with this index.
fn source_at<'a>(
    scans: &[Scan],
    sources: &'a [Sources],
    index: usize,
    path: &RelPath,
) -> Option<&'a RelPath>
    ensures { (id : List ℕ) → first_index scans.now id ≡ Some index
        → option_map (λ s. s.now) result ≡ source_in scans.now sources.now id path.now }
{
    match scans.get(index) {
        None => None,
        Some(scan) => match sources.get(index) {
            None => None,
            Some(own) => source_of(scan, own, path),
        },
    }
}

// A winner with its source.
fn won_of<'a>(
    indexes: &BTreeMap<ModId, usize>,
    scans: &[Scan],
    sources: &'a [Sources],
    row: &'a WinRow,
) -> Option<Won<'a>>
    requires { (id : List ℕ) → get (slice_cmp nat_cmp) indexes.now id ≡ first_index scans.now id }
    ensures win { option_map win_seen result ≡ found_win scans.now sources.now row.now }
    ensures id { IsModId row.now.mod_id }
{
    let _ = row.mod_id.text();
    match indexes.get(&row.mod_id) {
        None => None,
        Some(index) => match source_at(scans, sources, *index, &row.path) {
            None => None,
            Some(source) => Some(Won {
                path: &row.path,
                mod_id: &row.mod_id,
                source,
            }),
        },
    }
}

fn push_win<'a>(wins: &mut Vec<Won<'a>>, win: Option<Won<'a>>) -> Result<(), AllocError>
    ensures { OnOk result (wins.new.items ≡ wins.old.items ++ option_to_list win.entry) }
{
    if let Some(win) = win {
        wins.push(win)?;
    }
    Ok(())
}

/// The winners with their sources, in the same order.
pub(crate) fn with_sources<'a>(
    alloc: Global,
    rows: &'a [WinRow],
    scans: &[Scan],
    sources: &'a [Sources],
) -> Result<Vec<Won<'a>>, AllocError>
    requires { AreFrom scans.now sources.now rows.now }
    ensures wins { IfOk result (λ wins. map win_seen wins.items ≡ wins_of scans.now sources.now rows.now) }
    ensures ids { OnOk result (AllByRecursion (λ row. IsModId row.mod_id) rows.now) }
{
    let indexes = indexes_of(alloc, scans)?;
    let mut wins = Vec::with_capacity(alloc, rows.len())?;
    for row in rows {
        let win = won_of(&indexes, scans, sources, row);
        push_win(&mut wins, win)?;
    }
    Ok(wins)
}
