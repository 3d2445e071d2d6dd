// The class of a row.
ghost use Rattle.std.specs.Prelude.{◌≡◌, ◌∷◌, [], None, true, IfOk, IfErr, OnOk};
ghost use Rattle.std.specs.Str.{bytes_eq};
ghost use Rattle.fault_count.specs.Causes.{HasCause};
ghost use Rattle.sha2.specs.Sha256.{sha256};
ghost use Rattle.tree_fs.specs.Spot.{spot_of};
ghost use Rattle.tree_fs.specs.Places.{game_spot};
ghost use Rattle.tree_fs.specs.Disk.{IsFile, is_one_file};
ghost use Rattle.tree_fs.specs.Parts.{bytes_at};
ghost use Rattle.tree_fs.specs.Story.{disk_of};
ghost use Rattle.tree_fs.specs.declared.name.Kind.TheVariants.{File};
ghost use Rattle.tree_fs.specs.declared.tree.TreeError.TheVariants as tree_error;
ghost use Rattle.change_detect.specs.Classes.{staged_of, class_by, class_of};
ghost use Rattle.change_detect.specs.Refusals.{first_blocked, IsChangeRefusal};
ghost use Rattle.change_detect.specs.Tests.{told_by};
ghost use Rattle.change_detect.specs.declared.error.ChangeError.TheVariants.{Failed};

use crate::ChangeError;
use crate::places::{RowPlaces, has_file};
use change_choices::Class;
use manifest_json::{FileDigest, Row};
use stage_scan::digest_of;
use tree_fs::{Place, Tree, TreeError};

/// How a row is tested.
#[derive(Clone, Copy)]
pub(crate) enum Test {
    /// By what stands at its places. No file is read.
    Quick,
    /// By the bytes of its file too.
    Whole,
}

// The class of a row whose places have one file, by the file's bytes.
fn digest_class<T: Tree>(
    tree: &mut T,
    at: &Place,
    digest: &FileDigest,
) -> Result<Option<Class>, TreeError>
    requires { T.tells → IsFile (disk_of (T.story tree.old)) (spot_of at.now) }
    ensures answer { T.tells →
        let bytes = bytes_at (disk_of (T.story tree.old)) (spot_of at.now) in
        IfOk result (λ class.
        class ≡ class_by File File true (bytes_eq (sha256 bytes) digest.now.bytes)) }
    ensures same { T.tells → T.story tree.new ≡ T.story tree.old }
    ensures cause { HasCause tree_error.Failed (T.faults tree.old) (T.faults tree.new) result }
{
    let found = digest_of(tree, at)?;
    if found == *digest {
        Ok(None)
    } else {
        Ok(Some(Class::Changed))
    }
}

// The class of a row at whose places files stand.
fn pair_class<T: Tree>(
    tree: &mut T,
    game: &Place,
    staged: &Place,
    digest: &FileDigest,
    test: Test,
) -> Result<Option<Class>, TreeError>
    requires game { T.tells → IsFile (disk_of (T.story tree.old)) (spot_of game.now) }
    requires staged { T.tells → IsFile (disk_of (T.story tree.old)) (spot_of staged.now) }
    ensures answer { T.tells →
        let d = disk_of (T.story tree.old) in
        let one = is_one_file (d.now (spot_of game.now)) (d.now (spot_of staged.now)) in
        let same = bytes_eq (sha256 (bytes_at d (spot_of game.now))) digest.now.bytes in
        IfOk result (λ class. class ≡ told_by test (class_by File File one same)) }
    ensures same { T.tells → T.story tree.new ≡ T.story tree.old }
    ensures cause { HasCause tree_error.Failed (T.faults tree.old) (T.faults tree.new) result }
{
    if !tree.same(game, staged)? {
        return Ok(Some(Class::Replaced));
    }
    match test {
        Test::Quick => Ok(None),
        Test::Whole => digest_class(tree, game, digest),
    }
}

/// The class of a row with these places, as the test tells it. It is none where the row is clean.
pub(crate) fn row_class<T: Tree>(
    tree: &mut T,
    row: &Row,
    places: &RowPlaces,
    test: Test,
) -> Result<Option<Class>, ChangeError>
    requires game { spot_of places.now.game ≡ game_spot row.now.path }
    requires staged { spot_of places.now.staged ≡ staged_of row.now }
    ensures answer { T.tells →
        IfOk result (λ class.
        class ≡ told_by test (class_of (disk_of (T.story tree.old)) row.now)) }
    ensures open { T.tells →
        OnOk result (first_blocked (disk_of (T.story tree.old)) (row.now ∷ []) ≡ None) }
    ensures refused { T.tells →
        IfErr result (IsChangeRefusal (disk_of (T.story tree.old)) (row.now ∷ [])) }
    ensures same { T.tells → T.story tree.new ≡ T.story tree.old }
    ensures cause { HasCause Failed (T.faults tree.old) (T.faults tree.new) result }
{
    let in_game = has_file(tree, &places.game)?;
    let in_stage = has_file(tree, &places.staged)?;
    match (in_game, in_stage) {
        (true, true) => Ok(pair_class(tree, &places.game, &places.staged, &row.digest, test)?),
        (true, false) => Ok(Some(Class::SourceDeleted)),
        (false, true) => Ok(Some(Class::Deleted)),
        (false, false) => Ok(Some(Class::Gone)),
    }
}
