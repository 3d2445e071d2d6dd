// The versions of the format of manifests and intents.
ghost use Rattle.std.specs.Prelude.{◌≡◌};
ghost use Rattle.manifest_json.specs.Versions.{number_of, version_numbered, source_key};

/// A version of the format. Both are read, and the second is written.
#[derive(Clone, Copy, Debug, PartialEq, Eq)]
pub enum FormatVersion {
    /// The source of each row is its path.
    One,
    /// Each row has a key for its source.
    Two,
}

impl FormatVersion {
    /// The number that stands at the key `version`.
    pub fn number(self) -> u64
        ensures { result ≡ number_of self }
    {
        match self {
            FormatVersion::One => 1,
            FormatVersion::Two => 2,
        }
    }

    /// The version with this number.
    pub fn numbered(number: u64) -> Option<FormatVersion>
        ensures { result ≡ version_numbered number }
    {
        match number {
            1 => Some(FormatVersion::One),
            2 => Some(FormatVersion::Two),
            _ => None,
        }
    }

    // The key at which a row has its source.
    pub(crate) fn source_key(self) -> &'static str
        ensures { result.now ≡ source_key self }
    {
        match self {
            FormatVersion::One => "path",
            FormatVersion::Two => "source",
        }
    }
}
