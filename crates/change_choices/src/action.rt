// What a settlement does about a change.
ghost use Rattle.std.specs.Prelude.{◌≡◌};
ghost use Rattle.change_choices.specs.Allowed.{is_allowed};
ghost use Rattle.change_choices.specs.Words.{action_word, action_named};

use crate::Class;

/// What a settlement does about a change.
#[derive(Clone, Copy, Debug, PartialEq, Eq)]
pub enum Action {
    /// The found file is set aside, and the staged one is deployed again.
    Aside,
    /// The found file becomes the staged one, and the older staged one is set aside.
    Import,
    /// The staged file is deployed again, and the found one is given up.
    Revert,
    /// The row gets the digest of the file as it is.
    Keep,
    /// The file that is left is deployed, or staged, again.
    Restore,
    /// The row is taken off.
    Drop,
}

impl Action {
    /// The word of a command line.
    pub fn word(self) -> &'static str
        ensures { result.now ≡ action_word self }
    {
        match self {
            Action::Aside => "aside",
            Action::Import => "import",
            Action::Revert => "revert",
            Action::Keep => "keep",
            Action::Restore => "restore",
            Action::Drop => "drop",
        }
    }

    /// The action with this word, if it is one's.
    pub fn named(word: &str) -> Option<Action>
        ensures { result ≡ action_named word.now }
    {
        match word {
            "aside" => Some(Action::Aside),
            "import" => Some(Action::Import),
            "revert" => Some(Action::Revert),
            "keep" => Some(Action::Keep),
            "restore" => Some(Action::Restore),
            "drop" => Some(Action::Drop),
            _ => None,
        }
    }
}

/// Whether the action may be taken for changes of this class.
pub fn allowed(class: Class, action: Action) -> bool
    ensures { result ≡ is_allowed class action }
{
    matches!(
        (class, action),
        (
            Class::Replaced,
            Action::Aside | Action::Import | Action::Revert
        ) | (Class::Changed, Action::Keep)
            | (Class::Deleted, Action::Restore | Action::Drop)
            | (Class::SourceDeleted, Action::Restore | Action::Drop)
            | (Class::Gone, Action::Drop)
    )
}
