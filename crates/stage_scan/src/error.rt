// Why there is no scan.
ghost use Rattle.std.specs.Prelude.{◌≡◌};
ghost use Rattle.stage_scan.specs.Causes.{scan_error};
ghost use Rattle.stage_scan.specs.declared.error.ScanError.TheVariants.{Memory};

use std::alloc::{AllocError, AllocFailed};
use tree_fs::{Name, Place, TreeError};

/// Why a mod can't be scanned. `NoFolder` comes first. Then the first entry of the walk with a
/// fault tells its own: of `TooMany`, `BadEntry`, `OddEntry` and `Reserved` the first that fits.
#[derive(Debug, Drop)]
pub enum ScanError {
    /// The mod's place below `stage` is no folder.
    NoFolder,
    /// There is one entry more than allowed, files and folders counted.
    TooMany,
    /// The path below the mod is no user path.
    BadEntry { folder: Place, name: Name },
    /// The entry is neither a file nor a folder.
    OddEntry { folder: Place, name: Name },
    /// A file or folder has a reserved path.
    Reserved(Place),
    /// The file system failed, and the tree counted it.
    Failed,
    /// Memory ran out.
    Memory,
}

impl From<AllocError> for ScanError {
    ghost from_gives = { λ _ e. e ≡ Memory };

    fn from(_: AllocError) -> Self {
        ScanError::Memory
    }
}

impl<T: Drop> From<AllocFailed<T>> for ScanError {
    ghost from_gives = { λ _ e. e ≡ Memory };

    fn from(_: AllocFailed<T>) -> Self {
        ScanError::Memory
    }
}

impl From<TreeError> for ScanError {
    ghost from_gives = { λ x e. e ≡ scan_error x };

    fn from(error: TreeError) -> Self {
        match error {
            TreeError::Failed => ScanError::Failed,
            TreeError::Memory => ScanError::Memory,
        }
    }
}
