// How much is taken.
ghost use Rattle.std.specs.Prelude.{◌≡◌};

/// How much the engine takes.
#[derive(Clone, Copy, Debug, PartialEq, Eq)]
pub struct Limits {
    /// Mods of a profile.
    pub mods: u32,
    /// Files and folders of all enabled mods together.
    pub entries: u32,
    /// Bytes of a manifest's and an intent's text.
    pub text: u64,
}

impl Limits {
    /// 2,000 mods, 200,000 entries, 128 MiB of text.
    pub fn usual() -> Limits
        ensures { result ≡ record { mods = 2000; entries = 200000; text = 134217728 } }
    {
        Limits {
            mods: 2_000,
            entries: 200_000,
            text: 134_217_728,
        }
    }
}
