// The choices of a settlement.
ghost use Rattle.std.specs.Prelude.{◌≡◌, [], true};
ghost use Rattle.change_choices.specs.declared.class.Class.TheVariants as of;
ghost use Rattle.change_choices.specs.declared.action.Action.TheVariants as to;
ghost use Rattle.change_choices.specs.Allowed.{is_allowed};

use crate::{Action, Class, PathActions, allowed};
use rel_paths::RelPath;
use std::alloc::Global;

/// The choices of a settlement: an action for each class, which is allowed for it, and actions for
/// single paths, which count where they are allowed for the change that is found.
#[derive(Drop)]
pub struct Choices {
    pub replaced: Action,
    pub changed: Action,
    pub deleted: Action,
    pub source_deleted: Action,
    pub gone: Action,
    pub paths: PathActions,
    ghost replaced_allowed: { is_allowed of.Replaced replaced ≡ true },
    ghost changed_allowed: { is_allowed of.Changed changed ≡ true },
    ghost deleted_allowed: { is_allowed of.Deleted deleted ≡ true },
    ghost source_deleted_allowed: { is_allowed of.SourceDeleted source_deleted ≡ true },
    ghost gone_allowed: { is_allowed of.Gone gone ≡ true },
}

impl Choices {
    ghost use Rattle.change_choices.specs.Choice.{choice, class_action};

    /// What a settlement does where nothing else is said: found files are set aside, edits are kept,
    /// what is missing is put back, and rows without any file go.
    pub fn usual(alloc: Global) -> Choices
        ensures replaced { result.replaced ≡ to.Aside }
        ensures changed { result.changed ≡ to.Keep }
        ensures deleted { result.deleted ≡ to.Restore }
        ensures source_deleted { result.source_deleted ≡ to.Restore }
        ensures gone { result.gone ≡ to.Drop }
        ensures paths { result.paths ≡ [] }
    {
        Choices {
            replaced: Action::Aside,
            changed: Action::Keep,
            deleted: Action::Restore,
            source_deleted: Action::Restore,
            gone: Action::Drop,
            paths: PathActions::new(alloc),
        }
    }

    // The action for a class.
    fn of_class(&self, class: Class) -> Action
        ensures same { result ≡ class_action self.now class }
        ensures allowed { is_allowed class result ≡ true }
    {
        match class {
            Class::Replaced => self.replaced,
            Class::Changed => self.changed,
            Class::Deleted => self.deleted,
            Class::SourceDeleted => self.source_deleted,
            Class::Gone => self.gone,
        }
    }

    /// The choice for a path whose change is of this class: the action of the path, where it has
    /// one that is allowed for the class, otherwise the class's action.
    pub fn action(&self, path: &RelPath, class: Class) -> Action
        ensures choice { result ≡ choice self.now path.now class }
        ensures allowed { is_allowed class result ≡ true }
    {
        match self.paths.get(path) {
            Some(action) if allowed(class, action) => action,
            _ => self.of_class(class),
        }
    }
}
