// The table of actions, their words, and the choices for single paths.
use change_choices::{Action, Choices, Class, PathActions, allowed};
use rel_paths::RelPath;
use std::process::Abort;

fn path_of(rt: &(impl AllocGlobal + Abort), text: &str) -> RelPath {
    RelPath::parse(rt.alloc(), text).expect(rt, "a path")
}

const CLASSES: [Class; 5] = [
    Class::Replaced,
    Class::Changed,
    Class::Deleted,
    Class::SourceDeleted,
    Class::Gone,
];

const ACTIONS: [Action; 6] = [
    Action::Aside,
    Action::Import,
    Action::Revert,
    Action::Keep,
    Action::Restore,
    Action::Drop,
];

const ALLOWED: [[bool; 6]; 5] = [
    [true, true, true, false, false, false],
    [false, false, false, true, false, false],
    [false, false, false, false, true, true],
    [false, false, false, false, true, true],
    [false, false, false, false, false, true],
];

#[test]
fn nine_pairs_are_allowed(rt: HostRuntime) {
    for (class, row) in CLASSES.iter().zip(ALLOWED) {
        for (action, want) in ACTIONS.iter().zip(row) {
            assert_eq!(rt; allowed(*class, *action), want);
        }
    }
}

#[test]
fn words_name_their_actions(rt: HostRuntime) {
    let words = ["aside", "import", "revert", "keep", "restore", "drop"];
    for (action, word) in ACTIONS.iter().zip(words) {
        assert_eq!(rt; action.word(), word);
        assert_eq!(rt; Action::named(word), Some(*action));
    }
    for word in ["", "Aside", "aside ", "asid"] {
        assert_eq!(rt; Action::named(word), None);
    }
    let names = ["Replaced", "Changed", "Deleted", "SourceDeleted", "Gone"];
    for (class, name) in CLASSES.iter().zip(names) {
        assert_eq!(rt; class.name(), name);
    }
}

#[test]
fn a_path_has_its_first_action_where_that_is_allowed(rt: HostRuntime) {
    let alloc = rt.alloc();
    let path = path_of(&rt, "x.txt");
    let other = path_of(&rt, "y");
    let mut choices = Choices::usual(alloc);
    assert_eq!(rt; choices.action(&path, Class::Replaced), Action::Aside);
    let mut paths = PathActions::new(alloc);
    let first = paths.add(path_of(&rt, "x.txt"), Action::Revert);
    let second = paths.add(path_of(&rt, "x.txt"), Action::Import);
    assert_eq!(rt; (first, second), (Ok(()), Ok(())));
    choices.paths = paths;
    assert_eq!(rt; choices.action(&path, Class::Replaced), Action::Revert);
    assert_eq!(rt; choices.action(&path, Class::Deleted), Action::Restore);
    assert_eq!(rt; choices.action(&path, Class::Gone), Action::Drop);
    assert_eq!(rt; choices.action(&other, Class::Replaced), Action::Aside);
}
