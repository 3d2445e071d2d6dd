// Why there is no next number.
use std::alloc::AllocError;
use thiserror::Error;
use tree_fs::{Place, TreeError};

/// Why there is no next number below the aside folder.
#[derive(Drop, Debug, PartialEq, Eq, Error)]
pub enum KeepError {
    /// The file system failed, and the tree counted it.
    #[error("the file system failed")]
    Failed,
    /// The greatest number is taken.
    #[error("no number is left for what is set aside")]
    AsideFull,
    /// The aside folder's place is a file or something odd.
    #[error("{0} is no folder")]
    Blocked(Place),
    /// Memory ran out.
    #[error("out of memory")]
    Memory,
}

impl From<TreeError> for KeepError {
    ghost use Rattle.backup_keep.specs.Refusals.{of_tree};
    ghost use Rattle.std.specs.Prelude.{◌≡◌};

    ghost from_gives = { λ e k. k ≡ of_tree e };

    fn from(e: TreeError) -> KeepError {
        match e {
            TreeError::Failed => KeepError::Failed,
            TreeError::Memory => KeepError::Memory,
        }
    }
}

impl From<AllocError> for KeepError {
    ghost use Rattle.std.specs.Prelude.{◌≡◌};
    ghost use Rattle.backup_keep.specs.declared.error.KeepError.TheVariants.{Memory};

    ghost from_gives = { λ _ k. k ≡ Memory };

    fn from(_e: AllocError) -> KeepError {
        KeepError::Memory
    }
}
