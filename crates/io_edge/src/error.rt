// Why bytes were not given or taken.
ghost use Rattle.std.specs.Prelude.{◌≡◌, ◌≤◌};
ghost use Rattle.fault_count.specs.Rose.{Rose};
ghost use Rattle.io_edge.specs.declared.error.IoError.TheVariants.{Failed, Memory};

use fault_count::FaultCount;
use std::alloc::{AllocError, AllocFailed};
use thiserror::Error;

/// Why a source gave no bytes, or a sink took none.
#[derive(Clone, Copy, Debug, PartialEq, Eq, Error)]
pub enum IoError {
    /// The source or the sink failed, and counted that.
    #[error("input or output failed")]
    Failed,
    /// Memory ran out.
    #[error("out of memory")]
    Memory,
}

impl From<AllocError> for IoError {
    ghost from_gives = { λ _ e. e ≡ Memory };

    fn from(_: AllocError) -> Self {
        IoError::Memory
    }
}

impl<T: Drop> From<AllocFailed<T>> for IoError {
    ghost from_gives = { λ _ e. e ≡ Memory };

    fn from(_: AllocFailed<T>) -> Self {
        IoError::Memory
    }
}

// Counts a fault, and gives the answer for it.
pub(crate) fn count_fault(faults: &mut FaultCount) -> IoError
    ensures answer { result ≡ Failed }
    ensures rose { Rose faults.old faults.new }
    ensures later { faults.old ≤ faults.new }
{
    faults.raise();
    IoError::Failed
}
