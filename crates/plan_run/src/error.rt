// Why a plan isn't carried out.
ghost use Rattle.std.specs.Prelude.{◌≡◌};
ghost use Rattle.plan_run.specs.Errors.{of_ready, of_exec};
ghost use Rattle.plan_run.specs.declared.error.RunError.TheVariants.{Unsound};

use intent_journal::ReadyError;
use move_plan::PlanFault;
use plan_exec::ExecError;
use thiserror::Error;
use tree_fs::Place;

/// Why a plan isn't carried out, or not to its end.
#[derive(Debug, Drop, PartialEq, Eq, Error)]
pub enum RunError {
    /// The text of the plan's intent, and two bytes more, are more than the limit. It carries their
    /// number.
    #[error("the intent has {0} bytes, more than the limit")]
    TooLong(u64),
    /// The plan fails a rule of plans.
    #[error("the plan isn't sound")]
    Unsound(PlanFault),
    /// The source of the next save or set is no file.
    #[error("{0} is no file")]
    SourceGone(Place),
    /// What is at this place is in the way.
    #[error("{0} is in the way")]
    Blocked(Place),
    /// The file system failed, and the tree counted it.
    #[error("the file system failed")]
    Failed,
    /// Memory ran out.
    #[error("out of memory")]
    Memory,
}

impl From<PlanFault> for RunError {
    ghost from_gives = { λ fault e. e ≡ Unsound fault };

    fn from(fault: PlanFault) -> Self {
        RunError::Unsound(fault)
    }
}

impl From<ReadyError> for RunError {
    ghost from_gives = { λ error e. e ≡ of_ready error };

    fn from(error: ReadyError) -> Self {
        match error {
            ReadyError::TooLong(length) => RunError::TooLong(length),
            ReadyError::Memory => RunError::Memory,
        }
    }
}

impl From<ExecError> for RunError {
    ghost from_gives = { λ error e. e ≡ of_exec error };

    fn from(error: ExecError) -> Self {
        match error {
            ExecError::SourceGone(place) => RunError::SourceGone(place),
            ExecError::Blocked(place) => RunError::Blocked(place),
            ExecError::Failed => RunError::Failed,
            ExecError::Memory => RunError::Memory,
        }
    }
}
