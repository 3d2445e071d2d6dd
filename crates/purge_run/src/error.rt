// Why a purge has no plan.
ghost use Rattle.std.specs.Prelude.{◌≡◌};
ghost use Rattle.purge_run.specs.Errors.{of_tree, of_keep};
ghost use Rattle.purge_run.specs.declared.error.PurgeError.TheVariants.{Memory};

use backup_keep::KeepError;
use std::alloc::{AllocError, AllocFailed};
use thiserror::Error;
use tree_fs::{Place, TreeError};

/// Why a purge has no plan.
#[derive(Debug, Drop, PartialEq, Eq, Error)]
pub enum PurgeError {
    /// A folder, or something that is no file, stands at the place of a row or at the backup place
    /// of a shadowed row; or something that is no folder at the place of what is set aside.
    #[error("{0} is in the way")]
    Blocked(Place),
    /// The last number below `keep/aside` is taken.
    #[error("no number is left for what is set aside")]
    AsideFull,
    /// The file system failed, and the tree counted it.
    #[error("the file system failed")]
    Failed,
    /// Memory ran out.
    #[error("out of memory")]
    Memory,
}

impl From<TreeError> for PurgeError {
    ghost from_gives = { λ x e. e ≡ of_tree x };

    fn from(error: TreeError) -> Self {
        match error {
            TreeError::Failed => PurgeError::Failed,
            TreeError::Memory => PurgeError::Memory,
        }
    }
}

impl From<KeepError> for PurgeError {
    ghost from_gives = { λ x e. e ≡ of_keep x };

    fn from(error: KeepError) -> Self {
        match error {
            KeepError::Failed => PurgeError::Failed,
            KeepError::AsideFull => PurgeError::AsideFull,
            KeepError::Blocked(place) => PurgeError::Blocked(place),
            KeepError::Memory => PurgeError::Memory,
        }
    }
}

impl From<AllocError> for PurgeError {
    ghost from_gives = { λ _ e. e ≡ Memory };

    fn from(_: AllocError) -> Self {
        PurgeError::Memory
    }
}

impl<T: Drop> From<AllocFailed<T>> for PurgeError {
    ghost from_gives = { λ _ e. e ≡ Memory };

    fn from(_: AllocFailed<T>) -> Self {
        PurgeError::Memory
    }
}
