// The lists of a plan.
ghost use Rattle.std.specs.Prelude.{◌≡◌};

use crate::SetRow;
use std::marker::Model;
use tree_fs::Place;

/// Places. A contract sees them as a list.
#[derive(Drop)]
pub struct Places {
    items: Vec<Place>,
}

impl Model for Places {
    ghost use Rattle.std.specs.Prelude.{List};
    ghost use Rattle.tree_fs.specs.declared.place.Place.{Place};

    ghost Value = { List Place };

    ghost view = { λ a. a.items.items };
}

impl Places {
    /// These places.
    pub fn new(items: Vec<Place>) -> Places
        ensures { result ≡ items.items }
    {
        Places { items }
    }

    /// The places.
    pub fn as_slice(&self) -> &[Place]
        ensures { result.now ≡ self.now }
    {
        self.items.as_slice()
    }

    /// The places, given back.
    pub fn into_vec(self) -> Vec<Place>
        ensures { result.items ≡ self }
    {
        self.items
    }
}

/// Saves, each the place of a file and the place of its second name. A contract sees them as a list.
#[derive(Drop)]
pub struct Saves {
    items: Vec<(Place, Place)>,
}

impl Model for Saves {
    ghost use Rattle.std.specs.Prelude.{List};
    ghost use Rattle.tree_fs.specs.declared.place.Place.{Place};

    ghost Value = { List (Place × Place) };

    ghost view = { λ a. a.items.items };
}

impl Saves {
    /// These saves.
    pub fn new(items: Vec<(Place, Place)>) -> Saves
        ensures { result ≡ items.items }
    {
        Saves { items }
    }

    /// The saves.
    pub fn as_slice(&self) -> &[(Place, Place)]
        ensures { result.now ≡ self.now }
    {
        self.items.as_slice()
    }

    /// The saves, given back.
    pub fn into_vec(self) -> Vec<(Place, Place)>
        ensures { result.items ≡ self }
    {
        self.items
    }
}

/// Sets. A contract sees them as a list.
#[derive(Drop)]
pub struct Sets {
    items: Vec<SetRow>,
}

impl Model for Sets {
    ghost use Rattle.std.specs.Prelude.{List};
    ghost use Rattle.move_plan.specs.declared.plan.SetRow.{SetRow};

    ghost Value = { List SetRow };

    ghost view = { λ a. a.items.items };
}

impl Sets {
    /// These sets.
    pub fn new(items: Vec<SetRow>) -> Sets
        ensures { result ≡ items.items }
    {
        Sets { items }
    }

    /// The sets.
    pub fn as_slice(&self) -> &[SetRow]
        ensures { result.now ≡ self.now }
    {
        self.items.as_slice()
    }

    /// The sets, given back.
    pub fn into_vec(self) -> Vec<SetRow>
        ensures { result.items ≡ self }
    {
        self.items
    }
}
