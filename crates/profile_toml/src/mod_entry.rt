// Mods.
ghost use Rattle.std.specs.Prelude.{◌≡◌, option_map};
ghost use Rattle.profile_toml.specs.Plain.{plain_mod};

use crate::{Extra, Release, Rule};
use rel_paths::ModId;
use std::alloc::Global;
use std::marker::Model;

/// What a profile has of a mod: whether it is enabled, its rules in order, its release, and the id
/// of its type.
#[derive(Drop)]
pub struct ModEntry {
    pub enabled: bool,
    pub rules: Vec<Rule>,
    pub release: Option<Release>,
    pub mod_type: Option<ModId>,
    pub extra: Extra,
}

impl Model for ModEntry {
    ghost use Rattle.profile_toml.specs.Records.{ModData, mod_code};

    ghost Value = { ModData };

    ghost coded = { mod_code };

    ghost use Rattle.profile_toml.specs.Tables.{OfMod};
    ghost use Rattle.profile_toml.specs.Unknown.{AreUnknown};

    ghost view = { λ
        a. record {
          enabled = a.enabled;
          rules = a.rules.items;
          release = a.release;
          mod_type =
              a.mod_type;
          extra = a.extra;
        } };

    ghost invariant = { λ a. AreUnknown 1 OfMod a.extra };
}

impl ModEntry {
    /// A mod without rules, release, type and unknown keys. It takes no memory.
    pub fn plain(alloc: Global, enabled: bool) -> ModEntry
        ensures { result ≡ plain_mod enabled }
    {
        ModEntry {
            enabled,
            rules: Vec::new(alloc),
            release: None,
            mod_type: None,
            extra: Extra::none(alloc),
        }
    }

    /// Whether the mod is enabled.
    pub fn is_enabled(&self) -> bool
        ensures { result ≡ self.now.enabled }
    {
        self.enabled
    }

    /// The rules, in order.
    pub fn rules(&self) -> &[Rule]
        ensures { result.now ≡ self.now.rules }
    {
        self.rules.as_slice()
    }

    /// The release, if the mod has one.
    pub fn release(&self) -> Option<&Release>
        ensures { option_map (λ r. r.now) result ≡ self.now.release }
    {
        self.release.as_ref()
    }

    /// The id of the mod's type, if it has one.
    pub fn mod_type(&self) -> Option<&ModId>
        ensures { option_map (λ r. r.now) result ≡ self.now.mod_type }
    {
        self.mod_type.as_ref()
    }
}
