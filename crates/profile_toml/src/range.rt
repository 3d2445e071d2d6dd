// Ranges of releases.
ghost use Rattle.std.specs.Prelude.{◌≡◌, true, false, IfOk, IfErr, OnOk, string_bytes};
ghost use Rattle.profile_toml.specs.Releases.{IsTextOfAll, is_range, range_matches};

use crate::Release;
use semver::VersionReq;
use std::alloc::{AllocError, Global};
use std::fmt;
use std::marker::Model;

/// A range of releases, as `^1.2` or `>=1, <3`, with its text. A contract sees it as its text.
#[derive(Drop)]
pub struct Range {
    wanted: VersionReq,
    text: String,
}

impl Model for Range {
    ghost use Rattle.std.specs.Prelude.{List, ℕ, string_bytes};
    ghost use Rattle.profile_toml.specs.Releases.{IsTextOfAll};

    ghost Value = { List ℕ };

    ghost view = { λ a. string_bytes a.text };

    ghost invariant = { λ a. IsTextOfAll (string_bytes a.text) a.wanted.comparators.items };
}

/// Why a text is no range.
#[derive(Debug, Drop)]
pub enum RangeError {
    /// `semver` reads no requirement of versions in it.
    Refused,
    /// Memory ran out.
    Memory,
}

impl From<AllocError> for RangeError {
    ghost use Rattle.std.specs.Prelude.{◌≡◌};
    ghost use Rattle.profile_toml.specs.declared.range.RangeError.TheVariants.{Memory};

    ghost from_gives = { λ _ e. e ≡ Memory };

    fn from(_e: AllocError) -> RangeError {
        RangeError::Memory
    }
}

impl fmt::Debug for Range {
    fn fmt<W: fmt::Write>(&self, f: &mut fmt::Formatter<W>) -> fmt::Result {
        f.write_str(self.text())
    }
}

// The requirement that a text is.
#[tactic(auto, unfolding(crate::specs::Releases::range_parts))]
pub(crate) fn read_wanted(alloc: Global, text: &str) -> Result<VersionReq, RangeError>
    ensures ok { IfOk result (λ r. IsTextOfAll text.now r.comparators.items) }
    ensures err { IfErr result (λ e. e ≡ RangeError.Refused → is_range text.now ≡ false) }
{
    match VersionReq::parse(alloc, text) {
        Ok(wanted) => Ok(wanted),
        Err(e) => {
            if e == semver::Error::from(AllocError) {
                Err(RangeError::Memory)
            } else {
                Err(RangeError::Refused)
            }
        }
    }
}

impl Range {
    /// The range with this text. `Refused` is for a text in which `semver` reads no requirement of
    /// versions.
    pub fn parse(alloc: Global, text: &str) -> Result<Range, RangeError>
        ensures same { IfOk result (λ r. r ≡ text.now) }
        ensures good { OnOk result (is_range text.now ≡ true) }
        ensures err { IfErr result (λ e. e ≡ RangeError.Refused → is_range text.now ≡ false) }
    {
        let wanted = read_wanted(alloc, text)?;
        Ok(Range {
            wanted,
            text: text.to_string(alloc)?,
        })
    }

    // The range with a text, by what was read of it.
    pub(crate) fn of(wanted: VersionReq, text: String) -> Range
        requires { IsTextOfAll (string_bytes text) wanted.comparators.items }
        ensures { result ≡ string_bytes text }
    {
        Range { wanted, text }
    }

    /// The text.
    pub fn text(&self) -> &str
        ensures same { result.now ≡ self.now }
        ensures good { is_range self.now ≡ true }
    {
        self.text.as_str()
    }

    /// Whether the range matches a release, by semver's rules. It takes no memory.
    pub fn matches(&self, release: &Release) -> bool
        ensures { result ≡ range_matches self.now release.now }
    {
        self.wanted.matches(release.version())
    }
}
