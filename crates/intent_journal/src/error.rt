// Why a plan can't be prepared, or an intent not be found.
use std::alloc::AllocError;
use thiserror::Error;
use tree_fs::TreeError;

/// Why a plan can't be prepared.
#[derive(Clone, Copy, Debug, PartialEq, Eq, Error)]
pub enum ReadyError {
    /// The intent's text, and two bytes more, are more than the limit. It carries their number.
    #[error("the intent has {0} bytes, more than the limit")]
    TooLong(u64),
    /// Memory ran out.
    #[error("out of memory")]
    Memory,
}

impl From<AllocError> for ReadyError {
    ghost use Rattle.std.specs.Prelude.{◌≡◌};
    ghost use Rattle.intent_journal.specs.declared.error.ReadyError.TheVariants.{Memory};

    ghost from_gives = { λ _ e. e ≡ Memory };

    fn from(_: AllocError) -> ReadyError {
        ReadyError::Memory
    }
}

/// Why there is no answer to which intent stands on a disk.
#[derive(Clone, Copy, Debug, PartialEq, Eq, Error)]
pub enum IntentError {
    /// The file system failed, and the tree counted it.
    #[error("the file system failed")]
    Failed,
    /// The file's bytes are the text of no intent whose plan passes the rules.
    #[error("the intent can't be read")]
    BadIntent,
    /// Memory ran out.
    #[error("out of memory")]
    Memory,
}

impl From<TreeError> for IntentError {
    ghost use Rattle.std.specs.Prelude.{◌≡◌};
    ghost use Rattle.intent_journal.specs.TreeErrors.{of_tree};

    ghost from_gives = { λ e i. i ≡ of_tree e };

    fn from(e: TreeError) -> IntentError {
        match e {
            TreeError::Failed => IntentError::Failed,
            TreeError::Memory => IntentError::Memory,
        }
    }
}

impl From<AllocError> for IntentError {
    ghost use Rattle.std.specs.Prelude.{◌≡◌};
    ghost use Rattle.intent_journal.specs.declared.error.IntentError.TheVariants.{Memory};

    ghost from_gives = { λ _ e. e ≡ Memory };

    fn from(_: AllocError) -> IntentError {
        IntentError::Memory
    }
}
