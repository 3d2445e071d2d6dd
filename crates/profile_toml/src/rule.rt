// Rules.
ghost use Rattle.std.specs.Prelude.{◌≡◌, option_map};
ghost use Rattle.profile_toml.specs.Plain.{plain_rule};
ghost use Rattle.profile_toml.specs.Releases.{admits};

use crate::{Extra, Range, Release};
use rel_paths::ModId;
use std::alloc::Global;
use std::marker::Model;

/// What a rule asks of its mod and the one that it refers to.
#[derive(Clone, Copy, Debug, PartialEq, Eq)]
pub enum RuleKind {
    /// The mod loads before the other.
    Before,
    /// The mod loads after the other.
    After,
    /// The other has to be enabled.
    Requires,
    /// The other must not be enabled.
    Conflicts,
    /// The other goes well with the mod; nothing is asked.
    Recommends,
}

/// A rule of a mod. One with a range is about the other mod only where that has a release which the
/// range matches.
#[derive(Drop)]
pub struct Rule {
    pub kind: RuleKind,
    pub refers: ModId,
    pub range: Option<Range>,
    pub extra: Extra,
}

impl Model for Rule {
    ghost use Rattle.profile_toml.specs.Records.{RuleData, rule_code};

    ghost Value = { RuleData };

    ghost coded = { rule_code };

    ghost use Rattle.profile_toml.specs.Tables.{OfRule};
    ghost use Rattle.profile_toml.specs.Unknown.{AreUnknown};

    ghost view = { λ
        a. record { kind = a.kind; refers = a.refers; range = a.range; extra = a.extra } };

    ghost invariant = { λ a. AreUnknown 1 OfRule a.extra };
}

impl Rule {
    /// A rule without a range and without unknown keys. It takes no memory.
    pub fn plain(alloc: Global, kind: RuleKind, refers: ModId) -> Rule
        ensures { result ≡ plain_rule kind refers }
    {
        Rule {
            kind,
            refers,
            range: None,
            extra: Extra::none(alloc),
        }
    }

    /// The kind.
    pub fn kind(&self) -> RuleKind
        ensures { result ≡ self.now.kind }
    {
        self.kind
    }

    /// The mod that the rule refers to.
    pub fn refers(&self) -> &ModId
        ensures { result.now ≡ self.now.refers }
    {
        &self.refers
    }

    /// The range, if the rule has one.
    pub fn range(&self) -> Option<&Range>
        ensures { option_map (λ r. r.now) result ≡ self.now.range }
    {
        self.range.as_ref()
    }

    /// Whether the rule admits a mod with this release, if that has one: it has no range, or its
    /// range matches the release. It takes no memory.
    pub fn admits(&self, release: Option<&Release>) -> bool
        ensures { result ≡ admits self.now.range (option_map (λ r. r.now) release.entry) }
    {
        match (&self.range, release) {
            (None, _) => true,
            (Some(_), None) => false,
            (Some(range), Some(release)) => range.matches(release),
        }
    }
}
