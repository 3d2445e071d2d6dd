// Releases of mods.
ghost use Rattle.std.specs.Prelude.{◌≡◌, true, false, IfOk, IfErr, OnOk, string_bytes};
ghost use Rattle.profile_toml.specs.Releases.{IsTextOf, is_release};

use semver::Version;
use std::alloc::{AllocError, Global};
use std::fmt;
use std::marker::Model;

/// A release of a mod: a version, as `1.4.0`, with its text. A contract sees it as its text.
#[derive(Drop)]
pub struct Release {
    version: Version,
    text: String,
}

impl Model for Release {
    ghost use Rattle.std.specs.Prelude.{List, ℕ, string_bytes};
    ghost use Rattle.profile_toml.specs.Releases.{IsTextOf};

    ghost Value = { List ℕ };

    ghost view = { λ a. string_bytes a.text };

    ghost invariant = { λ a. IsTextOf (string_bytes a.text) a.version };
}

/// Why a text is no release.
#[derive(Debug, Drop)]
pub enum ReleaseError {
    /// `semver` reads no version in it.
    Refused,
    /// Memory ran out.
    Memory,
}

impl From<AllocError> for ReleaseError {
    ghost use Rattle.std.specs.Prelude.{◌≡◌};
    ghost use Rattle.profile_toml.specs.declared.release.ReleaseError.TheVariants.{Memory};

    ghost from_gives = { λ _ e. e ≡ Memory };

    fn from(_e: AllocError) -> ReleaseError {
        ReleaseError::Memory
    }
}

impl fmt::Debug for Release {
    fn fmt<W: fmt::Write>(&self, f: &mut fmt::Formatter<W>) -> fmt::Result {
        f.write_str(self.text())
    }
}

// The version that a text is.
#[tactic(auto, unfolding(crate::specs::Releases::release_parts))]
pub(crate) fn read_version(alloc: Global, text: &str) -> Result<Version, ReleaseError>
    ensures ok { IfOk result (λ v. IsTextOf text.now v) }
    ensures err { IfErr result (λ e. e ≡ ReleaseError.Refused → is_release text.now ≡ false) }
{
    match Version::parse(alloc, text) {
        Ok(version) => Ok(version),
        Err(e) => {
            if e == semver::Error::from(AllocError) {
                Err(ReleaseError::Memory)
            } else {
                Err(ReleaseError::Refused)
            }
        }
    }
}

impl Release {
    /// The release with this text. `Refused` is for a text in which `semver` reads no version.
    pub fn parse(alloc: Global, text: &str) -> Result<Release, ReleaseError>
        ensures same { IfOk result (λ r. r ≡ text.now) }
        ensures good { OnOk result (is_release text.now ≡ true) }
        ensures err { IfErr result (λ e. e ≡ ReleaseError.Refused → is_release text.now ≡ false) }
    {
        let version = read_version(alloc, text)?;
        Ok(Release {
            version,
            text: text.to_string(alloc)?,
        })
    }

    // The release with a text, by what was read of it.
    pub(crate) fn of(version: Version, text: String) -> Release
        requires { IsTextOf (string_bytes text) version }
        ensures { result ≡ string_bytes text }
    {
        Release { version, text }
    }

    /// An equal release.
    pub fn copy(&self) -> Result<Release, AllocError>
        ensures { IfOk result (λ r. r ≡ self.now) }
    {
        Ok(Release {
            version: self.version.clone()?,
            text: self.text.clone()?,
        })
    }

    /// The text.
    pub fn text(&self) -> &str
        ensures same { result.now ≡ self.now }
        ensures good { is_release self.now ≡ true }
    {
        self.text.as_str()
    }

    // The version.
    pub(crate) fn version(&self) -> &Version
        ensures { IsTextOf self.now result.now }
    {
        &self.version
    }
}
