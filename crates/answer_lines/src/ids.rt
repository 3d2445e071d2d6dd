// Lists of mods' ids.
ghost use Rattle.std.specs.Prelude.{◌≡◌};

use rel_paths::ModId;
use std::marker::Model;

/// Mods' ids in an order. A contract sees them as the list of the ids' bytes.
#[derive(Drop)]
pub struct Ids {
    ids: Vec<ModId>,
}

impl Model for Ids {
    ghost use Rattle.std.specs.Prelude.{ℕ, List};

    ghost Value = { List (List ℕ) };

    ghost view = { λ a. a.ids.items };
}

impl Ids {
    /// These ids as they stand.
    pub fn new(ids: Vec<ModId>) -> Ids
        ensures { result ≡ ids.items }
    {
        Ids { ids }
    }

    /// The ids.
    pub fn as_slice(&self) -> &[ModId]
        ensures { result.now ≡ self.now }
    {
        self.ids.as_slice()
    }
}
