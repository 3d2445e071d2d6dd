// Places by their texts.
ghost use Rattle.std.specs.Prelude.{◌≡◌, IfOk};
ghost use Rattle.tree_fs.specs.Texts.{place_text};

use crate::error::WorldError;
use std::alloc::Global;
use tree_fs::Place;

/// The place with this text.
pub fn place_of(alloc: Global, text: &str) -> Result<Place, WorldError>
    ensures { IfOk result (λ place. place_text place ≡ text.now) }
{
    Ok(Place::parse(alloc, text)?)
}
