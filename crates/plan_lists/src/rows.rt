// The places of a row's files.
ghost use Rattle.std.specs.Prelude.{◌≡◌, IfOk, option_map, if◌then◌else◌, Some, None};
ghost use Rattle.tree_fs.specs.Spot.{spot_of};
ghost use Rattle.backup_keep.specs.Places.{backup_spot};
ghost use Rattle.manifest_json.specs.Sound.{IsRow};
ghost use Rattle.change_detect.specs.Classes.{staged_of};

use backup_keep::backup_place;
use manifest_json::Row;
use std::alloc::{AllocError, Global};
use tree_fs::Place;

/// The place where a row's file is unpacked.
pub fn staged_row(alloc: Global, row: &Row) -> Result<Place, AllocError>
    requires { IsRow row.now }
    ensures { IfOk result (λ place. spot_of place ≡ staged_of row.now) }
{
    Place::staged(alloc, &row.mod_id, &row.source)
}

/// The backup place of a row's path, where its original is there.
pub fn original(alloc: Global, row: &Row, is_there: bool) -> Result<Option<Place>, AllocError>
    requires { IsRow row.now }
    ensures { IfOk result (λ from.
        option_map spot_of from ≡ (if is_there then Some (backup_spot row.now.path) else None)) }
{
    if is_there {
        Ok(Some(backup_place(alloc, &row.path)?))
    } else {
        Ok(None)
    }
}
