// The two places of a row.
ghost use Rattle.std.specs.Prelude.{◌≡◌, IfOk, IfErr};
ghost use Rattle.fault_count.specs.Causes.{HasCause};
ghost use Rattle.manifest_json.specs.Sound.{IsRow};
ghost use Rattle.tree_fs.specs.Spot.{spot_of};
ghost use Rattle.tree_fs.specs.Places.{game_spot};
ghost use Rattle.tree_fs.specs.Disk.{kind_of};
ghost use Rattle.tree_fs.specs.Story.{disk_of};
ghost use Rattle.change_detect.specs.Classes.{staged_of};
ghost use Rattle.change_detect.specs.Refusals.{file_or_absent, IsBlockedAt};
ghost use Rattle.change_detect.specs.declared.error.ChangeError.TheVariants.{Failed};

use crate::ChangeError;
use manifest_json::Row;
use std::alloc::{AllocError, Global};
use tree_fs::{Kind, Place, Tree};

/// Where a row's file is deployed, and where it is unpacked.
#[derive(Drop)]
pub(crate) struct RowPlaces {
    pub game: Place,
    pub staged: Place,
}

/// The places of a row.
pub(crate) fn row_places(alloc: Global, row: &Row) -> Result<RowPlaces, AllocError>
    requires { IsRow row.now }
    ensures game { IfOk result (λ places. spot_of places.game ≡ game_spot row.now.path) }
    ensures staged { IfOk result (λ places. spot_of places.staged ≡ staged_of row.now) }
{
    let source = row.source()?;
    Ok(RowPlaces {
        game: Place::game(alloc, &row.path)?,
        staged: Place::staged(alloc, &row.mod_id, &source)?,
    })
}

/// Whether a file is there. A folder, or something odd, is in the way.
pub(crate) fn has_file<T: Tree>(tree: &mut T, at: &Place) -> Result<bool, ChangeError>
    ensures answer { T.tells →
        let found = kind_of (disk_of (T.story tree.old)) (spot_of at.now) in
        IfOk result (λ there. found ≡ file_or_absent there) }
    ensures refused { T.tells →
        IfErr result (IsBlockedAt (disk_of (T.story tree.old)) (spot_of at.now)) }
    ensures same { T.tells → T.story tree.new ≡ T.story tree.old }
    ensures cause { HasCause Failed (T.faults tree.old) (T.faults tree.new) result }
{
    match tree.kind(at)? {
        Kind::File => Ok(true),
        Kind::Absent => Ok(false),
        Kind::Folder | Kind::Other => Err(ChangeError::Blocked(at.copy()?)),
    }
}
