// Types of mods.
ghost use Rattle.std.specs.Prelude.{◌≡◌};
ghost use Rattle.rel_paths.specs.Names.{IsBase};

use crate::Extra;
use rel_paths::{ModId, RelPath};
use std::marker::Model;

/// A type of mods: the files of its mods lie in `game` below its base.
#[derive(Drop)]
pub struct ModType {
    pub id: ModId,
    pub base: RelPath,
    pub extra: Extra,
}

impl Model for ModType {
    ghost use Rattle.profile_toml.specs.Records.{TypeData, type_code};

    ghost Value = { TypeData };

    ghost coded = { type_code };

    ghost use Rattle.rel_paths.specs.Names.{IsBase};
    ghost use Rattle.profile_toml.specs.Tables.{OfType};
    ghost use Rattle.profile_toml.specs.Unknown.{AreUnknown};

    ghost view = { λ a. record { id = a.id; base = a.base; extra = a.extra } };

    ghost invariant = { λ a. IsBase a.base × AreUnknown 2 OfType a.extra };
}

impl ModType {
    /// The type's id.
    pub fn id(&self) -> &ModId
        ensures { result.now ≡ self.now.id }
    {
        &self.id
    }

    /// The folder: a user path that isn't reserved, of at most 8 names and 300 bytes.
    pub fn base(&self) -> &RelPath
        ensures same { result.now ≡ self.now.base }
        ensures base { IsBase self.now.base }
    {
        &self.base
    }
}
