// The choices of these tests: the usual ones, but for a few paths that are named after their own
// action.
ghost use Rattle.std.specs.Prelude.{◌≡◌, ◌++◌, ◌∷◌, [], None};
ghost use Rattle.std.specs.Map.{lookup};
ghost use Rattle.std.specs.Str.{bytes_eq};
ghost use Rattle.change_choices.specs.Choice.{choice, class_action};
ghost use Rattle.change_choices.specs.declared.choices.Choices.{Choices};
ghost use Rattle.settle_tests.specs.Chosen.{AreChosen, own_actions};

use change_choices::{Action, Choices, Class, PathActions, allowed};
use rel_paths::RelPath;
use std::process::Abort;

fn add(rt: &(impl AllocGlobal + Abort), paths: &mut PathActions, path: &str, action: Action)
    requires { lookup (bytes_eq path.now) paths.old ≡ None }
    ensures { paths.new ≡ paths.old ++ (path.now, action) ∷ [] }
{
    let path = RelPath::parse(rt.alloc(), path).expect(rt, "a path");
    paths.add(path, action).expect(rt, "memory");
}

fn own_actions(rt: &(impl AllocGlobal + Abort)) -> PathActions
    ensures { result ≡ own_actions }
{
    let mut paths = PathActions::new(rt.alloc());
    add(rt, &mut paths, "import", Action::Import);
    add(rt, &mut paths, "revert", Action::Revert);
    add(rt, &mut paths, "drop", Action::Drop);
    add(rt, &mut paths, "d/drop", Action::Drop);
    paths
}

/// The choices.
pub(super) fn choices(rt: &(impl AllocGlobal + Abort)) -> Choices
    ensures { AreChosen result }
{
    let mut choices = Choices::usual(rt.alloc());
    choices.paths = own_actions(rt);
    choices
}

fn own_action(path: &str) -> Option<Action>
    ensures { result ≡ lookup (bytes_eq path.now) own_actions }
{
    match path {
        "import" => Some(Action::Import),
        "revert" => Some(Action::Revert),
        "drop" => Some(Action::Drop),
        "d/drop" => Some(Action::Drop),
        _ => None,
    }
}

fn usual_action(class: Class) -> Action
    ensures { (c : Choices) → AreChosen c → result ≡ class_action c class }
{
    match class {
        Class::Replaced => Action::Aside,
        Class::Changed => Action::Keep,
        Class::Deleted => Action::Restore,
        Class::SourceDeleted => Action::Restore,
        Class::Gone => Action::Drop,
    }
}

/// The answer of the choices.
pub(super) fn chosen(path: &str, class: Class) -> Action
    ensures { (c : Choices) → AreChosen c → result ≡ choice c path.now class }
{
    match own_action(path) {
        Some(action) if allowed(class, action) => action,
        _ => usual_action(class),
    }
}
