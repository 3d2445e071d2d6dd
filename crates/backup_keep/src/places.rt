// The places of files that are kept.
ghost use Rattle.std.specs.Prelude.{◌≡◌, IfOk};
ghost use Rattle.rel_paths.specs.Names.{IsUserPath};
ghost use Rattle.tree_fs.specs.Spot.{spot_of};
ghost use Rattle.backup_keep.specs.Places.{backup_spot, aside_spot, IsOrigin};

use rel_paths::{RelPath, only_memory};
use std::alloc::{AllocError, Global};
use tree_fs::{Place, Root};

/// The place of a path's backup in the game folder.
pub fn backup_place(alloc: Global, path: &RelPath) -> Result<Place, AllocError>
    requires { IsUserPath path.now }
    ensures { IfOk result (λ place. spot_of place ≡ backup_spot path.now) }
{
    Ok(Place {
        root: Root::Game,
        rel: Some(path.backup_name(alloc)?),
    })
}

/// The place where the file of a place is set aside under a number: `keep/aside/<number>/` and the
/// text of the place, which is that of a path in the game folder, or of a mod's file.
pub fn aside_place(alloc: Global, number: u32, at: &Place) -> Result<Place, AllocError>
    requires { IsOrigin (spot_of at.now) }
    ensures { IfOk result (λ place. spot_of place ≡ aside_spot number (spot_of at.now)) }
{
    let text = format!(in alloc; "aside/{number}/{at}")?;
    match RelPath::parse_held(alloc, &text) {
        Ok(path) => Ok(Place {
            root: Root::Keep,
            rel: Some(path),
        }),
        Err(fault) => Err(only_memory(fault)),
    }
}
