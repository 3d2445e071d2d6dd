// Why an edit is refused.
use rel_paths::{ModId, RelPath, Text};
use std::alloc::AllocError;

/// Why an edit is refused. The profile is then as before.
#[derive(Debug, Drop)]
pub enum EditError {
    /// There would be this many mods, which are more than there may be.
    TooMany(u64),
    /// The profile has no mod with this id.
    NoMod(ModId),
    /// The mod has such a rule already.
    SameRule,
    /// The mod has no such rule.
    NoRule,
    /// The profile has no override of this path.
    NoOverride(RelPath),
    /// At this key path a profile of version 1 has a key that version 2 has a meaning for.
    KeyTaken(Text),
    /// The profile has version 1, in which mods have no releases.
    OldProfile,
    /// Memory ran out.
    Memory,
}

impl From<AllocError> for EditError {
    ghost use Rattle.std.specs.Prelude.{◌≡◌};
    ghost use Rattle.profile_edit.specs.declared.error.EditError.TheVariants.{Memory};

    ghost from_gives = { λ _ e. e ≡ Memory };

    fn from(_e: AllocError) -> EditError {
        EditError::Memory
    }
}
