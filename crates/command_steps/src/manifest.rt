// The manifest of a disk.
ghost use Rattle.std.specs.Prelude.{◌≡◌, ◌∷◌, []};
ghost use Rattle.fault_count.specs.Causes.{HasCause};
ghost use Rattle.tree_fs.specs.declared.name.Kind.TheVariants.{File};
ghost use Rattle.tree_fs.specs.Spot.{spot_of};
ghost use Rattle.tree_fs.specs.Disk.{kind_of};
ghost use Rattle.tree_fs.specs.Story.{disk_of};
ghost use Rattle.desk_model.specs.Places.{manifest_spot};
ghost use Rattle.command_steps.specs.declared.stop.Stop.TheVariants.{TreeFault};
ghost use Rattle.command_steps.specs.Manifests.{HasManifest};
ghost use Rattle.command_steps.specs.Steps.{manifest};
ghost use Rattle.command_steps.specs.Orders.{Takes};

use crate::{Limits, Stop};
use answer_lines::{ProfileRefusal, Refusal};
use intent_journal::control_bytes;
use manifest_json::{Manifest, Paths, Rows, read_manifest};
use rel_paths::Control;
use std::alloc::Global;
use tree_fs::{Kind, Place, Tree};

/// The manifest without rows and folders. It takes no memory.
pub(crate) fn no_rows(alloc: Global) -> Manifest
    ensures rows { result.rows ≡ [] }
    ensures folders { result.folders ≡ [] }
{
    Manifest {
        rows: Rows::new(Vec::new(alloc)),
        folders: Paths::new(Vec::new(alloc)),
    }
}

/// The manifest of the disk, none where no file is at its place. `TooLong` comes where the file has
/// more than `limits.text` bytes, then its own faults.
pub fn manifest_of<T: Tree>(
    alloc: Global,
    tree: &mut T,
    limits: &Limits,
) -> Result<Option<Manifest>, Stop>
    ensures takes { T.tells →
        Takes (manifest ∷ []) limits.now (T.story tree.old) (T.story tree.new)
        (HasManifest (disk_of (T.story tree.old))) result }
    ensures same { T.tells → T.story tree.new ≡ T.story tree.old }
    ensures cause { HasCause TreeFault (T.faults tree.old) (T.faults tree.new) result }
{
    let place = Place::control(Control::Manifest);
    match tree.kind(&place)? {
        Kind::File => manifest_there(alloc, tree, limits, place),
        _ => Ok(None),
    }
}

// The manifest at its place, where a file is.
fn manifest_there<T: Tree>(
    alloc: Global,
    tree: &mut T,
    limits: &Limits,
    place: Place,
) -> Result<Option<Manifest>, Stop>
    requires place { spot_of place ≡ manifest_spot }
    requires file { T.tells → kind_of (disk_of (T.story tree.old)) manifest_spot ≡ File }
    ensures takes { T.tells →
        Takes (manifest ∷ []) limits.now (T.story tree.old) (T.story tree.new)
        (HasManifest (disk_of (T.story tree.old))) result }
    ensures same { T.tells → T.story tree.new ≡ T.story tree.old }
    ensures cause { HasCause TreeFault (T.faults tree.old) (T.faults tree.new) result }
{
    if tree.size(&place)? > limits.text {
        return Err(Stop::Refused(Refusal::Profile(ProfileRefusal::TooLong(place))));
    }
    let bytes = control_bytes(alloc, tree, Control::Manifest)?;
    Ok(Some(read_manifest(alloc, &bytes)?))
}
