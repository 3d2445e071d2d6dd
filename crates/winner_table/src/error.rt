// Why there are no winners.
ghost use Rattle.std.specs.Prelude.{◌≡◌};
ghost use Rattle.winner_table.specs.declared.error.WinError.TheVariants.{Memory};

use rel_paths::RelPath;
use std::alloc::{AllocError, AllocFailed};

/// Why the winners of paths can't be told.
#[derive(Debug, Drop)]
pub enum WinError {
    /// This path would be a file and a folder: another provided path lies below it. It is the least
    /// such path.
    FileAndFolder(RelPath),
    /// Memory ran out.
    Memory,
}

impl From<AllocError> for WinError {
    ghost from_gives = { λ _ e. e ≡ Memory };

    fn from(_: AllocError) -> Self {
        WinError::Memory
    }
}

impl<T: Drop> From<AllocFailed<T>> for WinError {
    ghost from_gives = { λ _ e. e ≡ Memory };

    fn from(_: AllocFailed<T>) -> Self {
        WinError::Memory
    }
}
