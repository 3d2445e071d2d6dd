// What is done with a row.
ghost use Rattle.std.specs.Prelude.{◌≡◌};
ghost use Rattle.desk_model.specs.Settled.{deed_by};
ghost use Rattle.change_settle.specs.Tasks.{deed_seen};

use change_choices::{Action, Class};

/// What is done with a row of the old manifest.
#[derive(Clone, Copy)]
pub(crate) enum Act {
    /// It is clean, and stays as it is.
    Leave,
    /// The found file is set aside, and the staged one is linked.
    SetAside,
    /// The found file is staged, and the older staged one is set aside.
    Import,
    /// The found file is given up, and the staged one is linked.
    Revert,
    /// The one file of both names stays, with its new digest.
    Accept,
    /// The staged file is linked again.
    LinkAgain,
    /// The found file is staged again.
    StageAgain,
    /// The row goes, and the found file is set aside.
    LetGo,
    /// The row goes, and there is no found file.
    Drop,
}

/// What an action does with a row whose change is of this class.
pub(crate) fn act_for(class: Class, action: Action) -> Act
    ensures { deed_seen result ≡ deed_by class action }
{
    match (class, action) {
        (Class::Replaced, Action::Aside) => Act::SetAside,
        (Class::Replaced, Action::Import) => Act::Import,
        (Class::Replaced, Action::Revert) => Act::Revert,
        (Class::Changed, Action::Keep) => Act::Accept,
        (Class::Deleted, Action::Restore) => Act::LinkAgain,
        (Class::SourceDeleted, Action::Restore) => Act::StageAgain,
        (Class::SourceDeleted, Action::Drop) => Act::LetGo,
        (Class::Deleted | Class::Gone, Action::Drop) => Act::Drop,
        _ => Act::Leave,
    }
}
