// Why bytes are no manifest.
use crate::Spot;
use std::alloc::AllocError;

/// Why bytes are no manifest. Of several faults the first is told.
#[derive(Clone, Copy, Debug, PartialEq, Eq)]
pub enum ManifestError {
    /// The bytes are no JSON.
    NotJson,
    /// `version` is missing, or is neither the integer 1 nor the integer 2.
    Version,
    /// A value is missing or of the wrong kind.
    Shape(Spot),
    /// A text is no mod's id, or no user path, or a reserved path.
    BadPath(Spot),
    /// The path isn't above that of the one in front.
    Order(Spot),
    /// The path extends that of an earlier file.
    Nested(Spot),
    /// An earlier file of the same mod has an equal source, or one that extends it or that it extends.
    Source(Spot),
    /// Memory ran out.
    Memory,
}

impl From<AllocError> for ManifestError {
    ghost use Rattle.std.specs.Prelude.{◌≡◌};
    ghost use Rattle.manifest_json.specs.declared.error.ManifestError.TheVariants.{Memory};

    ghost from_gives = { λ _ e. e ≡ Memory };

    fn from(_e: AllocError) -> ManifestError {
        ManifestError::Memory
    }
}
