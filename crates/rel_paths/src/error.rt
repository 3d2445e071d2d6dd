// Why a text is no path, id or name.
ghost use Rattle.std.specs.Prelude.{None};
ghost use Rattle.fault_count.specs.Causes.{Explains};

use std::alloc::AllocError;
use thiserror::Error;

/// Why a text was refused. Of several faults the first in this order is told.
#[derive(Clone, Copy, Debug, PartialEq, Eq, Error)]
pub enum PathError {
    /// The text has no bytes.
    #[error("the text is empty")]
    Empty,
    /// The text has more bytes than its kind may have.
    #[error("the text is too long")]
    Long,
    /// The path has more names than its kind may have.
    #[error("the path has too many names")]
    Deep,
    /// The first bad name, counted from 0: no good name, or one with too many bytes.
    #[error("name {0} is bad")]
    BadName(u32),
    /// Memory ran out.
    #[error("out of memory")]
    Memory,
}

impl From<AllocError> for PathError {
    ghost use Rattle.std.specs.Prelude.{◌≡◌};
    ghost use Rattle.rel_paths.specs.declared.error.PathError.TheVariants.{Memory};

    ghost from_gives = { λ _ e. e ≡ Memory };

    fn from(_e: AllocError) -> PathError {
        PathError::Memory
    }
}

/// Want of memory, where a fault can be nothing else: that of a text which has none.
pub fn only_memory(fault: PathError) -> AllocError
    requires { Explains PathError.Memory None fault }
{
    match fault {
        PathError::Memory => AllocError,
        _ => unreachable!(),
    }
}
