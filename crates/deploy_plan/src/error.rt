// Why a deployment has no plan.
ghost use Rattle.std.specs.Prelude.{◌≡◌};
ghost use Rattle.deploy_plan.specs.Errors.{of_tree, of_change};
ghost use Rattle.deploy_plan.specs.declared.error.PlanError.TheVariants.{Memory};

use change_detect::ChangeError;
use rel_paths::RelPath;
use std::alloc::{AllocError, AllocFailed};
use thiserror::Error;
use tree_fs::{Place, TreeError};

/// Why a deployment has no plan.
#[derive(Debug, Drop, PartialEq, Eq, Error)]
pub enum PlanError {
    /// Others changed files that were deployed: the path of the first such row, and how many there
    /// are.
    #[error("{first} isn't as it was deployed, {count} changes in all")]
    ChangesFound { first: RelPath, count: u64 },
    /// This winning path properly extends the path of an old row, or an old row's path properly
    /// extends it. It is the least such path.
    #[error("{0} would be a file and a folder")]
    Turned(RelPath),
    /// A folder, or something that is no file, stands at a place of an old row, at a backup place
    /// that is needed, or at a winning path; or a file, or something that is no folder, where a
    /// winning path needs a folder.
    #[error("{0} is in the way")]
    Blocked(Place),
    /// A file of the game stands at this winning path, and something at its backup place.
    #[error("the backup place of {0} is taken")]
    BackupTaken(RelPath),
    /// The file system failed, and the tree counted it.
    #[error("the file system failed")]
    Failed,
    /// Memory ran out.
    #[error("out of memory")]
    Memory,
}

impl From<TreeError> for PlanError {
    ghost from_gives = { λ x e. e ≡ of_tree x };

    fn from(error: TreeError) -> Self {
        match error {
            TreeError::Failed => PlanError::Failed,
            TreeError::Memory => PlanError::Memory,
        }
    }
}

impl From<ChangeError> for PlanError {
    ghost from_gives = { λ x e. e ≡ of_change x };

    fn from(error: ChangeError) -> Self {
        match error {
            ChangeError::Blocked(place) => PlanError::Blocked(place),
            ChangeError::Failed => PlanError::Failed,
            ChangeError::Memory => PlanError::Memory,
        }
    }
}

impl From<AllocError> for PlanError {
    ghost from_gives = { λ _ e. e ≡ Memory };

    fn from(_: AllocError) -> Self {
        PlanError::Memory
    }
}

impl<T: Drop> From<AllocFailed<T>> for PlanError {
    ghost from_gives = { λ _ e. e ≡ Memory };

    fn from(_: AllocFailed<T>) -> Self {
        PlanError::Memory
    }
}
