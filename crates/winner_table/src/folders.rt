// Which path would be a file and a folder.
ghost use Rattle.std.specs.Prelude.{◌↔◌, IsTrue, IfOk, MatchOption};
ghost use Rattle.stage_scan.specs.Files.{AreInPathOrder};
ghost use Rattle.winner_table.specs.Winners.{paths_of};
ghost use Rattle.winner_table.specs.Folders.{AreApart, IsFolderOf, IsFirstFolder, IsFirstNotBelow};

use crate::WinRow;
use rel_paths::RelPath;
use std::alloc::{AllocError, Global};

// The index of the first row whose path isn't below this text.
fn first_from(rows: &[WinRow], text: &str) -> usize
    requires { AreInPathOrder (paths_of rows.now) }
    ensures { IsFirstNotBelow text.now (paths_of rows.now) result }
{
    rows.partition_point(|row| row.path.text() < text)
}

// Whether the path of a row lies below this path. The least text of what lies below it is that of
// the path and a slash.
fn is_folder(alloc: Global, rows: &[WinRow], path: &RelPath) -> Result<bool, AllocError>
    requires { AreInPathOrder (paths_of rows.now) }
    ensures { IfOk result (λ found. IsTrue found ↔ IsFolderOf (paths_of rows.now) path.now) }
{
    let text = format!(in alloc; "{}/", path.text())?;
    match rows.get(first_from(rows, text.as_str())) {
        None => Ok(false),
        Some(row) => Ok(row.path.starts_with(path)),
    }
}

/// The index of the first row below whose path that of another row lies.
pub(crate) fn first_folder(alloc: Global, rows: &[WinRow]) -> Result<Option<usize>, AllocError>
    requires { AreInPathOrder (paths_of rows.now) }
    ensures { IfOk result (λ found.
        MatchOption found (AreApart (paths_of rows.now)) (IsFirstFolder rows.now)) }
{
    for (index, row) in rows.iter().enumerate() {
        if is_folder(alloc, rows, &row.path)? {
            return Ok(Some(index));
        }
    }
    Ok(None)
}
