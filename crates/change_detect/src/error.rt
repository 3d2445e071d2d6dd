// Why changes can't be told.
ghost use Rattle.std.specs.Prelude.{◌≡◌};
ghost use Rattle.change_detect.specs.Refusals.{of_tree};
ghost use Rattle.change_detect.specs.declared.error.ChangeError.TheVariants.{Memory};

use std::alloc::{AllocError, AllocFailed};
use thiserror::Error;
use tree_fs::{Place, TreeError};

/// Why the changes of a deployment can't be told.
#[derive(Debug, Drop, PartialEq, Eq, Error)]
pub enum ChangeError {
    /// A folder, or something that is no file, stands at a place of a row. It is the first such
    /// place by row, and of one row the place in `game` before that in `stage`.
    #[error("{0} is no file")]
    Blocked(Place),
    /// The file system failed, and the tree counted it.
    #[error("the file system failed")]
    Failed,
    /// Memory ran out.
    #[error("out of memory")]
    Memory,
}

impl From<TreeError> for ChangeError {
    ghost from_gives = { λ x e. e ≡ of_tree x };

    fn from(error: TreeError) -> Self {
        match error {
            TreeError::Failed => ChangeError::Failed,
            TreeError::Memory => ChangeError::Memory,
        }
    }
}

impl From<AllocError> for ChangeError {
    ghost from_gives = { λ _ e. e ≡ Memory };

    fn from(_: AllocError) -> Self {
        ChangeError::Memory
    }
}

impl<T: Drop> From<AllocFailed<T>> for ChangeError {
    ghost from_gives = { λ _ e. e ≡ Memory };

    fn from(_: AllocFailed<T>) -> Self {
        ChangeError::Memory
    }
}
