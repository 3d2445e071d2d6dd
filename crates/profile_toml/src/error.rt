// Why bytes are no profile.
use rel_paths::{ModId, RelPath, Text};
use std::alloc::AllocError;

/// Why bytes are no profile. Of several faults the first is told: `NotToml`, `Deep`, `Float`,
/// `Version` and the one of a key `fold` in this order, then those of the types in order, then
/// those of the mods in order, then those of the overrides in order.
#[derive(Debug, Drop)]
pub enum ProfileError {
    /// The bytes are no TOML document.
    NotToml,
    /// A value lies more than 64 levels deep; the document itself is level 1.
    Deep,
    /// A value is a float, or a date that isn't printed.
    Float,
    /// `version` is missing, or is neither the integer 1 nor the integer 2.
    Version,
    /// At this key path a value is missing or of the wrong kind, as `mods[3].rules[0].kind`.
    Shape(Text),
    /// This text is no id, no user path, or no base of a type.
    BadPath(Text),
    /// This text is no kind of rule.
    BadKind(Text),
    /// This text is no release.
    BadRelease(Text),
    /// This text is no range of releases.
    BadRange(Text),
    /// This id of a mod stands twice.
    SameMod(ModId),
    /// This path stands twice.
    SameOverride(RelPath),
    /// This id of a type stands twice.
    SameType(ModId),
    /// This text is the type of a mod, and the id of no type.
    NoType(Text),
    /// Memory ran out.
    Memory,
}

impl From<AllocError> for ProfileError {
    ghost use Rattle.std.specs.Prelude.{◌≡◌};
    ghost use Rattle.profile_toml.specs.declared.error.ProfileError.TheVariants.{Memory};

    ghost from_gives = { λ _ e. e ≡ Memory };

    fn from(_e: AllocError) -> ProfileError {
        ProfileError::Memory
    }
}
