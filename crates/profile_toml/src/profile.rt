// Profiles.
ghost use Rattle.std.specs.Prelude.{◌≡◌, map, nat_eq, IfOk};
ghost use Rattle.std.specs.List.{IsDistinct};
ghost use Rattle.std.specs.Cmp.Lexicographic.{pointwise};
ghost use Rattle.profile_toml.specs.Kept.{Fits};
ghost use Rattle.profile_toml.specs.Records.{AreAtTheirPaths};
ghost use Rattle.profile_toml.specs.Plain.{plain_profile, default_value};

use crate::maps::add_mod;
use crate::{Extra, ModEntry, ModType, Override};
use indexmap::IndexMap;
use rel_paths::{ModId, RelPath};
use std::alloc::{AllocError, Global};
use std::marker::Model;

/// A profile: its version, which is 1 or 2, mods by their ids and overrides by their paths, each in
/// their order, and types of mods. With version 1 there are no types, releases and ranges.
#[derive(Drop)]
pub struct Profile {
    pub version: u32,
    pub mods: IndexMap<ModId, ModEntry>,
    pub overrides: IndexMap<RelPath, Override>,
    pub types: Vec<ModType>,
    pub extra: Extra,
}

impl Model for Profile {
    ghost use Rattle.std.specs.Prelude.{map};
    ghost use Rattle.profile_toml.specs.Records.{ProfileData, profile_code};

    ghost Value = { ProfileData };

    ghost coded = { profile_code };

    ghost use Rattle.profile_toml.specs.Kept.{Fits};
    ghost use Rattle.profile_toml.specs.Records.{AreAtTheirPaths};

    ghost view = { λ
        a. record {
          version = a.version;
          mods = a.mods.entries;
          overrides = map (λ e. e.1)
              a.overrides.entries;
          types = a.types.items;
          extra = a.extra;
        } };

    ghost invariant = { λ a. AreAtTheirPaths a.overrides.entries
        × Fits (record {
          version = a.version;
          mods = a.mods.entries;
          overrides = map (λ e. e.1)
              a.overrides.entries;
          types = a.types.items;
          extra = a.extra;
        }) };
}

impl Profile {
    /// A profile of version 1 without mods, overrides and unknown keys. It takes no memory.
    pub fn plain(alloc: Global) -> Profile
        ensures { result ≡ plain_profile }
    {
        Profile {
            version: 1,
            mods: IndexMap::new(alloc),
            overrides: IndexMap::new(alloc),
            types: Vec::new(alloc),
            extra: Extra::none(alloc),
        }
    }

    /// The mods by their ids, in order.
    pub fn mods(&self) -> &IndexMap<ModId, ModEntry>
        ensures { result.now.entries ≡ self.now.mods }
    {
        &self.mods
    }

    /// The overrides by their paths, in order.
    pub fn overrides(&self) -> &IndexMap<RelPath, Override>
        ensures entries { map (λ e. e.1) result.now.entries ≡ self.now.overrides }
        ensures keys { AreAtTheirPaths result.now.entries }
    {
        &self.overrides
    }

    /// The version. What the profile has by it is told as `fits`.
    pub fn version(&self) -> u32
        ensures same { result ≡ self.now.version }
        ensures fits { Fits self.now }
    {
        self.version
    }

    /// The types of mods, in order.
    pub fn types(&self) -> &[ModType]
        ensures { result.now ≡ self.now.types }
    {
        self.types.as_slice()
    }
}

/// The profile of version 1 of these mods in this order, all enabled, without rules and overrides.
pub fn default_profile(alloc: Global, ids: Vec<ModId>) -> Result<Profile, AllocError>
    requires { IsDistinct (pointwise nat_eq) ids.items }
    ensures { IfOk result (λ p. p ≡ default_value ids.items) }
{
    let mut mods = IndexMap::new(alloc);
    for id in ids {
        add_mod(&mut mods, id, ModEntry::plain(alloc, true))?;
    }
    Ok(Profile {
        version: 1,
        mods,
        overrides: IndexMap::new(alloc),
        types: Vec::new(alloc),
        extra: Extra::none(alloc),
    })
}
