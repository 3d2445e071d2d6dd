// Why words say no command.
ghost use Rattle.std.specs.Prelude.{◌≡◌, ◌↔◌};

use clap::error::ErrorKind;
use std::alloc::AllocError;

/// Why no command was read.
#[derive(Clone, Copy, Debug, PartialEq, Eq)]
pub enum WordError {
    /// The words say no command.
    Usage,
    /// Memory ran out.
    Memory,
}

impl From<AllocError> for WordError {
    ghost use Rattle.std.specs.Prelude.{◌≡◌};
    ghost use Rattle.command_words.specs.declared.error.WordError.TheVariants.{Memory};

    ghost from_gives = { λ _ e. e ≡ Memory };

    fn from(_e: AllocError) -> WordError {
        WordError::Memory
    }
}

// The error of what `clap` says.
pub(crate) fn word_error(kind: ErrorKind) -> WordError
    ensures { (result ≡ WordError.Memory) ↔ (kind ≡ ErrorKind.OutOfMemory) }
{
    match kind {
        ErrorKind::OutOfMemory => WordError::Memory,
        _ => WordError::Usage,
    }
}
