// Actions for single paths.
ghost use Rattle.std.specs.Prelude.{◌≡◌, ◌≢◌, ◌++◌, ◌∷◌, [], None, OnOk, OnErr};
ghost use Rattle.std.specs.Map.{lookup};
ghost use Rattle.std.specs.Str.{bytes_eq};

use crate::Action;
use indexmap::IndexMap;
use rel_paths::RelPath;
use std::alloc::{AllocError, Global};
use std::marker::Model;

/// Actions for single paths, each path once, in the order in which they were added. A contract
/// sees the list of paths and their actions.
#[derive(Drop)]
pub struct PathActions {
    by_path: IndexMap<RelPath, Action>,
}

impl Model for PathActions {
    ghost use Rattle.std.specs.Prelude.{List, ℕ};
    ghost use Rattle.change_choices.specs.declared.action.Action.{Action};

    ghost Value = { List (List ℕ × Action) };

    ghost view = { λ a. a.by_path.entries };
}

impl PathActions {
    /// No path has an action of its own.
    pub fn new(alloc: Global) -> PathActions
        ensures { result ≡ [] }
    {
        PathActions {
            by_path: IndexMap::new(alloc),
        }
    }

    /// Adds an action for a path behind the others. A path that has one keeps it.
    pub fn add(&mut self, path: RelPath, action: Action) -> Result<(), AllocError>
        ensures kept { lookup (bytes_eq path) self.old ≢ None → self.new ≡ self.old }
        ensures added { lookup (bytes_eq path) self.old ≡ None
            → OnOk result (self.new ≡ self.old ++ (path, action) ∷ []) }
        ensures err { OnErr result (self.new ≡ self.old) }
    {
        if self.by_path.contains_key(&path) {
            return Ok(());
        }
        match self.by_path.insert(path, action) {
            Ok(_) => Ok(()),
            Err(_) => Err(AllocError),
        }
    }

    /// The action of a path, if it has one of its own.
    pub fn get(&self, path: &RelPath) -> Option<Action>
        ensures { result ≡ lookup (bytes_eq path.now) self.now }
    {
        self.by_path.get(path).copied()
    }
}
