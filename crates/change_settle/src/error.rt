// Why a settlement has no plan.
ghost use Rattle.std.specs.Prelude.{◌≡◌};
ghost use Rattle.change_settle.specs.Errors.{of_tree, of_keep};
ghost use Rattle.change_settle.specs.declared.error.SettleError.TheVariants.{Memory};

use backup_keep::KeepError;
use std::alloc::{AllocError, AllocFailed};
use tree_fs::{Place, TreeError};

/// Why a settlement has no plan.
#[derive(Debug, Drop, PartialEq, Eq)]
pub enum SettleError {
    /// Something that is no folder stands above the place where a file is put back, the outermost
    /// one; or a folder, or something odd, at the backup place of a shadowed row that goes; or
    /// something that is no folder at the place of what is set aside.
    Blocked(Place),
    /// The last number below `keep/aside` is taken.
    AsideFull,
    /// The file system failed, and the tree counted it.
    Failed,
    /// Memory ran out.
    Memory,
}

impl From<TreeError> for SettleError {
    ghost from_gives = { λ x e. e ≡ of_tree x };

    fn from(error: TreeError) -> Self {
        match error {
            TreeError::Failed => SettleError::Failed,
            TreeError::Memory => SettleError::Memory,
        }
    }
}

impl From<KeepError> for SettleError {
    ghost from_gives = { λ x e. e ≡ of_keep x };

    fn from(error: KeepError) -> Self {
        match error {
            KeepError::Failed => SettleError::Failed,
            KeepError::AsideFull => SettleError::AsideFull,
            KeepError::Blocked(place) => SettleError::Blocked(place),
            KeepError::Memory => SettleError::Memory,
        }
    }
}

impl From<AllocError> for SettleError {
    ghost from_gives = { λ _ e. e ≡ Memory };

    fn from(_: AllocError) -> Self {
        SettleError::Memory
    }
}

impl<T: Drop> From<AllocFailed<T>> for SettleError {
    ghost from_gives = { λ _ e. e ≡ Memory };

    fn from(_: AllocFailed<T>) -> Self {
        SettleError::Memory
    }
}
