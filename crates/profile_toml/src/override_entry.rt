// Overrides.
ghost use Rattle.std.specs.Prelude.{◌≡◌};
ghost use Rattle.rel_paths.specs.Names.{IsUserPath};
ghost use Rattle.profile_toml.specs.Plain.{plain_override};

use crate::Extra;
use rel_paths::{ModId, RelPath};
use std::alloc::Global;
use std::marker::Model;

/// An override: the mod whose file is to stand at a user path.
#[derive(Drop)]
pub struct Override {
    pub path: RelPath,
    pub mod_id: ModId,
    pub extra: Extra,
}

impl Model for Override {
    ghost use Rattle.profile_toml.specs.Records.{OverrideData, override_code};

    ghost Value = { OverrideData };

    ghost coded = { override_code };

    ghost use Rattle.rel_paths.specs.Names.{IsUserPath};
    ghost use Rattle.profile_toml.specs.Tables.{OfOverride};
    ghost use Rattle.profile_toml.specs.Unknown.{AreUnknown};

    ghost view = { λ a. record { path = a.path; mod_id = a.mod_id; extra = a.extra } };

    ghost invariant = { λ a. IsUserPath a.path × AreUnknown 1 OfOverride a.extra };
}

impl Override {
    /// An override without unknown keys. It takes no memory.
    pub fn plain(alloc: Global, path: RelPath, mod_id: ModId) -> Override
        requires { IsUserPath path }
        ensures { result ≡ plain_override path mod_id }
    {
        Override {
            path,
            mod_id,
            extra: Extra::none(alloc),
        }
    }

    /// The path.
    pub fn path(&self) -> &RelPath
        ensures same { result.now ≡ self.now.path }
        ensures user { IsUserPath self.now.path }
    {
        &self.path
    }

    /// The mod's id.
    pub fn mod_id(&self) -> &ModId
        ensures { result.now ≡ self.now.mod_id }
    {
        &self.mod_id
    }
}
