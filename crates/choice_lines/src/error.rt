// Why the choices of an input weren't read.
ghost use Rattle.std.specs.Prelude.{◌≡◌};
ghost use Rattle.io_edge.specs.declared.lines.LineError.TheVariants.{Memory};
ghost use Rattle.choice_lines.specs.declared.error.InputError.TheVariants.{Unread};

use io_edge::LineError;
use std::alloc::AllocError;
use thiserror::Error;

/// Why the choices of an input weren't read.
#[derive(Clone, Copy, Debug, PartialEq, Eq, Error)]
pub enum InputError {
    /// There is no next line, for this reason. Want of memory, wherever it comes, is among them.
    #[error("{0}")]
    Unread(LineError),
    /// The line of this number is no answer about a change.
    #[error("line {0} is no answer about a change")]
    BadAnswer(u32),
}

impl From<LineError> for InputError {
    ghost from_gives = { λ x e. e ≡ Unread x };

    fn from(error: LineError) -> Self {
        InputError::Unread(error)
    }
}

impl From<AllocError> for InputError {
    ghost from_gives = { λ _ e. e ≡ Unread Memory };

    fn from(_: AllocError) -> Self {
        InputError::Unread(LineError::Memory)
    }
}
