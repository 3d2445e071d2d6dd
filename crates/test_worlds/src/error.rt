// Why a world gives no answer.
ghost use Rattle.std.specs.Prelude.{◌≡◌};
ghost use Rattle.test_worlds.specs.declared.error.WorldError.TheVariants.{Memory};

use rel_paths::PathError;
use std::alloc::{AllocError, AllocFailed};
use thiserror::Error;
use tree_fs::TreeError;

/// Why a function here gave no answer.
#[derive(Clone, Copy, Debug, PartialEq, Eq, Error)]
pub enum WorldError {
    /// Memory ran out.
    #[error("out of memory")]
    Memory,
    /// A text is that of no place.
    #[error("no place has this text")]
    NoPlace,
    /// A file has to stand at the place, and doesn't.
    #[error("no file is there")]
    NoFile,
    /// A folder has to stand at the place, or above it, and doesn't.
    #[error("no folder is there")]
    NoFolder,
    /// Something stands where a call needs room.
    #[error("something is there")]
    Taken,
    /// A folder that has to be empty has entries.
    #[error("entries are there")]
    NotEmpty,
    /// The place is a root, which a call can't change.
    #[error("a root is there")]
    Root,
    /// A look at the disk failed, as it was planned to.
    #[error("a look failed")]
    Look,
    /// The call itself was made, and failed.
    #[error("a call failed: {0}")]
    Call(TreeError),
}

impl From<AllocError> for WorldError {
    ghost from_gives = { λ _ e. e ≡ Memory };

    fn from(_: AllocError) -> Self {
        WorldError::Memory
    }
}

impl<T: Drop> From<AllocFailed<T>> for WorldError {
    ghost from_gives = { λ _ e. e ≡ Memory };

    fn from(_: AllocFailed<T>) -> Self {
        WorldError::Memory
    }
}

impl From<PathError> for WorldError {
    fn from(fault: PathError) -> Self {
        match fault {
            PathError::Memory => WorldError::Memory,
            _ => WorldError::NoPlace,
        }
    }
}

impl From<TreeError> for WorldError {
    fn from(error: TreeError) -> Self {
        match error {
            TreeError::Memory => WorldError::Memory,
            TreeError::Failed => WorldError::Look,
        }
    }
}
