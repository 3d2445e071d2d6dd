// Why recovery stops.
ghost use Rattle.std.specs.Prelude.{◌≡◌};
ghost use Rattle.recover_run.specs.Causes.{of_tree, of_intent, of_step};
ghost use Rattle.recover_run.specs.declared.error.RecoverError.TheVariants.{Memory};

use intent_journal::{IntentError, ReadyError};
use plan_exec::ExecError;
use thiserror::Error;
use tree_fs::{Place, TreeError};

/// Why recovery stops.
#[derive(Debug, Drop, PartialEq, Eq, Error)]
pub enum RecoverError {
    /// The intent's bytes are the text of no intent whose plan passes the rules.
    #[error("the intent can't be read")]
    BadIntent,
    /// The source of the next save or set is no file.
    #[error("{0} is no file")]
    SourceGone(Place),
    /// What is at this place is in the way: where a folder is to be made, where a destination or a
    /// clear lies, or where the folder of one should be.
    #[error("{0} is in the way")]
    Blocked(Place),
    /// The file system failed, and the tree counted it.
    #[error("the file system failed")]
    Failed,
    /// Memory ran out.
    #[error("out of memory")]
    Memory,
}

impl From<TreeError> for RecoverError {
    ghost from_gives = { λ error e. e ≡ of_tree error };

    fn from(error: TreeError) -> Self {
        match error {
            TreeError::Failed => RecoverError::Failed,
            TreeError::Memory => RecoverError::Memory,
        }
    }
}

impl From<IntentError> for RecoverError {
    ghost from_gives = { λ error e. e ≡ of_intent error };

    fn from(error: IntentError) -> Self {
        match error {
            IntentError::Failed => RecoverError::Failed,
            IntentError::BadIntent => RecoverError::BadIntent,
            IntentError::Memory => RecoverError::Memory,
        }
    }
}

// No text that fits in memory is too long for an intent that stands already.
impl From<ReadyError> for RecoverError {
    ghost from_gives = { λ _ e. e ≡ Memory };

    fn from(_: ReadyError) -> Self {
        RecoverError::Memory
    }
}

impl From<ExecError> for RecoverError {
    ghost from_gives = { λ error e. e ≡ of_step error };

    fn from(error: ExecError) -> Self {
        match error {
            ExecError::SourceGone(place) => RecoverError::SourceGone(place),
            ExecError::Blocked(place) => RecoverError::Blocked(place),
            ExecError::Failed => RecoverError::Failed,
            ExecError::Memory => RecoverError::Memory,
        }
    }
}
