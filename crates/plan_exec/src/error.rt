// Why a step stops.
ghost use Rattle.std.specs.Prelude.{◌≡◌};
ghost use Rattle.plan_exec.specs.Causes.{of_tree};
ghost use Rattle.plan_exec.specs.declared.error.ExecError.TheVariants.{Memory};

use std::alloc::AllocError;
use thiserror::Error;
use tree_fs::{Place, TreeError};

/// Why a step stops.
#[derive(Debug, Drop, PartialEq, Eq, Error)]
pub enum ExecError {
    /// The source of the next save or set is no file.
    #[error("{0} is no file")]
    SourceGone(Place),
    /// What is at this place is in the way: where a folder is to be made, where a destination or a
    /// clear lies, or where the folder of one should be.
    #[error("{0} is in the way")]
    Blocked(Place),
    /// The file system failed, and the tree counted it.
    #[error("the file system failed")]
    Failed,
    /// Memory ran out.
    #[error("out of memory")]
    Memory,
}

impl From<TreeError> for ExecError {
    ghost from_gives = { λ error e. e ≡ of_tree error };

    fn from(error: TreeError) -> Self {
        match error {
            TreeError::Failed => ExecError::Failed,
            TreeError::Memory => ExecError::Memory,
        }
    }
}

impl From<AllocError> for ExecError {
    ghost from_gives = { λ _ e. e ≡ Memory };

    fn from(_: AllocError) -> Self {
        ExecError::Memory
    }
}
