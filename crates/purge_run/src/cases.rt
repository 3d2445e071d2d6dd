// What a purge finds of each row.
ghost use Rattle.std.specs.Prelude.{◌≡◌, ◌∷◌, [], None, true, false, IfOk, IfErr, OnOk, map};
ghost use Rattle.std.specs.List.{AllByRecursion};
ghost use Rattle.fault_count.specs.Causes.{HasCause};
ghost use Rattle.tree_fs.specs.Spot.{spot_of};
ghost use Rattle.tree_fs.specs.Places.{game_spot};
ghost use Rattle.tree_fs.specs.Disk.{IsFile, kind_of, is_one_file};
ghost use Rattle.tree_fs.specs.Story.{disk_of};
ghost use Rattle.tree_fs.specs.declared.tree.TreeError.TheVariants as tree_error;
ghost use Rattle.backup_keep.specs.Places.{backup_spot};
ghost use Rattle.manifest_json.specs.Sound.{IsRow};
ghost use Rattle.change_detect.specs.Classes.{staged_of};
ghost use Rattle.change_detect.specs.Refusals.{is_blocking, file_or_absent};
ghost use Rattle.plan_model.specs.Rows.{has_original};
ghost use Rattle.purge_run.specs.declared.error.PurgeError.TheVariants.{Failed};
ghost use Rattle.purge_run.specs.Refusals.{first_in_the_way};
ghost use Rattle.purge_run.specs.Told.{at_of, told, case_seen};
ghost use Rattle.purge_run.specs.Looks.{IsBlockedAt, IsBlockedBehind, RefusedByRows};

use crate::PurgeError;
use backup_keep::backup_place;
use manifest_json::Row;
use std::alloc::Global;
use tree_fs::{Kind, Place, Tree, TreeError};

/// What stands at the path of a row.
#[derive(Clone, Copy)]
pub(crate) enum At {
    /// The staged file itself.
    Linked,
    /// Another file, or a file whose staged entry is none.
    Over,
    /// No file.
    Bare,
}

/// What is found of a row.
#[derive(Clone, Copy)]
pub(crate) struct RowCase<'a> {
    pub row: &'a Row,
    pub at: At,
    /// Whether the original of its path is at its backup place.
    pub has_original: bool,
}

// Whether the file at this place is the staged file of the row.
fn is_staged<T: Tree>(alloc: Global, tree: &mut T, at: &Place, row: &Row) -> Result<bool, TreeError>
    requires row { IsRow row.now }
    requires file { T.tells → IsFile (disk_of (T.story tree.old)) (spot_of at.now) }
    ensures answer { T.tells →
        let values = (disk_of (T.story tree.old)).now in
        IfOk result (λ yes.
        yes ≡ is_one_file (values (spot_of at.now)) (values (staged_of row.now))) }
    ensures same { T.tells → T.story tree.new ≡ T.story tree.old }
    ensures cause { HasCause tree_error.Failed (T.faults tree.old) (T.faults tree.new) result }
{
    let staged = Place::staged(alloc, &row.mod_id, &row.source)?;
    if tree.kind(&staged)? != Kind::File {
        return Ok(false);
    }
    tree.same(at, &staged)
}

// What stands at the path of a row. A folder, or something odd, is in the way.
fn at_path<T: Tree>(alloc: Global, tree: &mut T, row: &Row) -> Result<At, PurgeError>
    requires { IsRow row.now }
    ensures answer { T.tells →
        IfOk result (λ at. at ≡ at_of (disk_of (T.story tree.old)) row.now) }
    ensures free { T.tells →
        OnOk result (is_blocking (kind_of (disk_of (T.story tree.old)) (game_spot row.now.path))
        ≡ false) }
    ensures refused { T.tells →
        IfErr result (IsBlockedAt (disk_of (T.story tree.old)) (game_spot row.now.path)) }
    ensures same { T.tells → T.story tree.new ≡ T.story tree.old }
    ensures cause { HasCause Failed (T.faults tree.old) (T.faults tree.new) result }
{
    let place = Place::game(alloc, &row.path)?;
    match tree.kind(&place)? {
        Kind::Absent => Ok(At::Bare),
        Kind::File => {
            if is_staged(alloc, tree, &place, row)? {
                Ok(At::Linked)
            } else {
                Ok(At::Over)
            }
        }
        Kind::Folder | Kind::Other => Err(PurgeError::Blocked(place)),
    }
}

// Whether a file stands at a place. A folder, or something odd, is in the way.
fn has_file<T: Tree>(tree: &mut T, place: Place) -> Result<bool, PurgeError>
    ensures answer { T.tells →
        IfOk result (λ yes.
        kind_of (disk_of (T.story tree.old)) (spot_of place) ≡ file_or_absent yes) }
    ensures refused { T.tells →
        IfErr result (IsBlockedAt (disk_of (T.story tree.old)) (spot_of place)) }
    ensures same { T.tells → T.story tree.new ≡ T.story tree.old }
    ensures cause { HasCause Failed (T.faults tree.old) (T.faults tree.new) result }
{
    match tree.kind(&place)? {
        Kind::File => Ok(true),
        Kind::Absent => Ok(false),
        Kind::Folder | Kind::Other => Err(PurgeError::Blocked(place)),
    }
}

// Whether the original of a row's path is at its backup place.
fn has_original<T: Tree>(alloc: Global, tree: &mut T, row: &Row) -> Result<bool, PurgeError>
    requires { IsRow row.now }
    ensures answer { T.tells →
        IfOk result (λ yes. yes ≡ has_original (disk_of (T.story tree.old)) row.now) }
    ensures free { T.tells →
        OnOk result (row.now.shadowed ≡ true →
        is_blocking (kind_of (disk_of (T.story tree.old)) (backup_spot row.now.path)) ≡ false) }
    ensures refused { T.tells →
        IfErr result (IsBlockedBehind (disk_of (T.story tree.old)) row.now) }
    ensures same { T.tells → T.story tree.new ≡ T.story tree.old }
    ensures cause { HasCause Failed (T.faults tree.old) (T.faults tree.new) result }
{
    if row.shadowed {
        let place = backup_place(alloc, &row.path)?;
        has_file(tree, place)
    } else {
        Ok(false)
    }
}

// What is found of a row: first at its path, then at its backup place.
fn case_of<'a, T: Tree>(
    alloc: Global,
    tree: &mut T,
    row: &'a Row,
) -> Result<RowCase<'a>, PurgeError>
    requires { IsRow row.now }
    ensures row { IfOk result (λ case. case.row.now ≡ row.now) }
    ensures answer { T.tells →
        IfOk result (λ case. case_seen case ≡ told (disk_of (T.story tree.old)) row.now) }
    ensures free { T.tells →
        OnOk result (first_in_the_way (disk_of (T.story tree.old)) (row.now ∷ []) ≡ None) }
    ensures refused { T.tells →
        IfErr result (RefusedByRows (disk_of (T.story tree.old)) (row.now ∷ [])) }
    ensures same { T.tells → T.story tree.new ≡ T.story tree.old }
    ensures cause { HasCause Failed (T.faults tree.old) (T.faults tree.new) result }
{
    let at = at_path(alloc, tree, row)?;
    let has_original = has_original(alloc, tree, row)?;
    Ok(RowCase {
        row,
        at,
        has_original,
    })
}

/// What is found of each row, in the order of the rows.
pub(crate) fn cases<'a, T: Tree>(
    alloc: Global,
    tree: &mut T,
    rows: &'a [Row],
) -> Result<Vec<RowCase<'a>>, PurgeError>
    requires { AllByRecursion IsRow rows.now }
    ensures rows { IfOk result (λ cases. map (λ c. c.row.now) cases.items ≡ rows.now) }
    ensures answer { T.tells →
        IfOk result (λ cases.
        map case_seen cases.items ≡ map (told (disk_of (T.story tree.old))) rows.now) }
    ensures free { T.tells →
        OnOk result (first_in_the_way (disk_of (T.story tree.old)) rows.now ≡ None) }
    ensures refused { T.tells →
        IfErr result (RefusedByRows (disk_of (T.story tree.old)) rows.now) }
    ensures same { T.tells → T.story tree.new ≡ T.story tree.old }
    ensures cause { HasCause Failed (T.faults tree.old) (T.faults tree.new) result }
{
    let mut cases = Vec::with_capacity(alloc, rows.len())?;
    for row in rows {
        let case = case_of(alloc, tree, row)?;
        cases.push(case)?;
    }
    Ok(cases)
}
