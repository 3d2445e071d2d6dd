// The limits, the first faults, the texts and the order, by values that were counted by hand.
use rel_paths::{Control, ModId, PathError, RelPath, Text};
use std::alloc::{AllocError, Global};
use std::cmp::Ordering;
use std::process::Abort;

fn path_of(rt: &(impl AllocGlobal + Abort), text: &str) -> RelPath {
    RelPath::parse_held(rt.alloc(), text).expect(rt, "a held path")
}

fn id_of(rt: &(impl AllocGlobal + Abort), text: &str) -> ModId {
    ModId::parse(rt.alloc(), text).expect(rt, "an id")
}

// A path whose names have these lengths.
fn path_text(alloc: Global, lengths: &[usize]) -> Result<String, AllocError> {
    let mut text = String::new(alloc);
    for (at, length) in lengths.iter().enumerate() {
        if at > 0 {
            text.push('/')?;
        }
        for _ in 0..*length {
            text.push('n')?;
        }
    }
    Ok(text)
}

fn user_fault(alloc: Global, text: &str) -> Option<PathError> {
    RelPath::parse(alloc, text).err()
}

fn held_fault(alloc: Global, text: &str) -> Option<PathError> {
    RelPath::parse_held(alloc, text).err()
}

fn id_fault(alloc: Global, text: &str) -> Option<PathError> {
    ModId::parse(alloc, text).err()
}

fn has_parent(rt: &(impl AllocGlobal + Abort), text: &str, parent: &str) -> bool {
    let above = path_of(rt, text).parent(rt.alloc()).expect(rt, "memory");
    above.is_some_and(|path| path.text() == parent)
}

fn is_below(rt: &(impl AllocGlobal + Abort), text: &str, above: &str) -> bool {
    path_of(rt, text).starts_with(&path_of(rt, above))
}

fn order(rt: &(impl AllocGlobal + Abort), first: &str, second: &str) -> Ordering {
    path_of(rt, first).cmp(&path_of(rt, second))
}

#[test]
fn the_first_fault_is_told(rt: HostRuntime) {
    for (text, fault) in [
        ("", Some(PathError::Empty)),
        ("a/../b", Some(PathError::BadName(1))),
        ("a/b/.", Some(PathError::BadName(2))),
        ("/a", Some(PathError::BadName(0))),
        ("a//b", Some(PathError::BadName(1))),
        ("a/", Some(PathError::BadName(1))),
        ("a/b\\c", Some(PathError::BadName(1))),
        ("a\tb", Some(PathError::BadName(0))),
        ("a\u{7f}", Some(PathError::BadName(0))),
        ("a\u{80}/.../.hidden/ä b", None),
    ] {
        assert_eq!(&rt; user_fault(rt.alloc(), text), fault, "at {text}");
        assert_eq!(&rt; held_fault(rt.alloc(), text), fault, "at {text}");
    }
}

#[test]
fn an_id_is_one_good_name(rt: HostRuntime) {
    for (text, fault) in [
        ("", Some(PathError::Empty)),
        ("a/b", Some(PathError::BadName(0))),
        ("..", Some(PathError::BadName(0))),
        ("a\u{7f}", Some(PathError::BadName(0))),
        ("a b", None),
    ] {
        assert_eq!(&rt; id_fault(rt.alloc(), text), fault, "at {text}");
    }
}

#[test]
fn each_limit_is_the_last_that_passes(rt: HostRuntime) {
    let bad = Some(PathError::BadName(0));
    let long = Some(PathError::Long);
    let deep = Some(PathError::Deep);
    let ones = [1; 73];
    for (lengths, user, held) in [
        ([240].as_slice(), None, None),
        ([241].as_slice(), bad, None),
        ([254].as_slice(), bad, None),
        ([255].as_slice(), bad, bad),
        ([240, 240, 240, 240, 60].as_slice(), None, None),
        ([240, 240, 240, 240, 61].as_slice(), long, None),
        ([254, 254, 254, 254, 254, 125].as_slice(), long, None),
        ([254, 254, 254, 254, 254, 126].as_slice(), long, long),
        (&ones[..64], None, None),
        (&ones[..65], deep, None),
        (&ones[..72], deep, None),
        (&ones[..73], deep, deep),
    ] {
        let text = path_text(rt.alloc(), lengths).expect(&rt, "memory");
        assert_eq!(&rt; user_fault(rt.alloc(), text.as_str()), user, "at {text}");
        assert_eq!(&rt; held_fault(rt.alloc(), text.as_str()), held, "at {text}");
    }
    for (length, fault) in [(240, None), (241, bad)] {
        let text = path_text(rt.alloc(), &[length]).expect(&rt, "memory");
        assert_eq!(&rt; id_fault(rt.alloc(), text.as_str()), fault, "at {text}");
    }
}

#[test]
fn texts_come_back(rt: HostRuntime) {
    let path = RelPath::parse(rt.alloc(), "meshes/rock.nif").expect(&rt, "a user path");
    let copy = path.copy().expect(&rt, "memory");
    assert_eq!(&rt; copy.text(), "meshes/rock.nif");
    assert!(&rt; copy == path);
    let id = id_of(&rt, "Better Rocks 1.2");
    let copy = id.copy().expect(&rt, "memory");
    assert_eq!(&rt; copy.text(), "Better Rocks 1.2");
    assert!(&rt; copy == id);
    let text = Text::from_static("a").copy().expect(&rt, "memory");
    assert_eq!(&rt;
        text.into_string(rt.alloc()).expect(&rt, "memory").as_str(),
        "a"
    );
}

#[test]
fn a_parent_has_all_names_but_the_last(rt: HostRuntime) {
    assert!(&rt; has_parent(&rt, "meshes/rocks/rock.nif", "meshes/rocks"));
    let none = path_of(&rt, "meshes")
        .parent(rt.alloc())
        .expect(&rt, "memory");
    assert!(&rt; none.is_none());
}

#[test]
fn a_backup_is_reserved(rt: HostRuntime) {
    let path = RelPath::parse(rt.alloc(), "meshes/rock.nif").expect(&rt, "a user path");
    let backup = path.backup_name(rt.alloc()).expect(&rt, "memory");
    assert_eq!(&rt; backup.text(), "meshes/rock.nif.vortex_backup");
    assert!(&rt; backup.is_reserved());
}

#[test]
fn control_places_have_their_texts_in_order(rt: HostRuntime) {
    let texts = [
        "intent.json",
        "intent.tmp",
        "manifest.tmp",
        "profile.tmp",
        "profile.toml",
        "vortex.deployment.json",
    ];
    assert_eq!(&rt; Control::in_order().len(), 6);
    for (which, text) in Control::in_order().iter().zip(texts) {
        let path = RelPath::control(*which).copy().expect(&rt, "memory");
        assert_eq!(&rt; path.text(), text);
    }
}

#[test]
fn the_order_is_that_of_the_bytes(rt: HostRuntime) {
    for (first, second) in [
        ("a.d", "a/c"),
        ("a/c", "a0"),
        ("a", "a/b"),
        ("B", "a"),
        ("z", "ä"),
    ] {
        assert_eq!(&rt; order(&rt, first, second), Ordering::Less, "at {first}");
        assert_eq!(&rt; order(&rt, second, first), Ordering::Greater, "at {first}");
    }
    assert_eq!(&rt; id_of(&rt, "B").cmp(&id_of(&rt, "a")), Ordering::Less);
}

#[test]
fn names_decide_what_lies_below(rt: HostRuntime) {
    for (text, above, below) in [
        ("a/b", "a", true),
        ("a/b", "a/b", true),
        ("ab", "a", false),
        ("a/bc", "a/b", false),
        ("a", "a/b", false),
    ] {
        assert_eq!(&rt; is_below(&rt, text, above), below, "at {text}");
    }
}

#[test]
fn names_decide_what_is_reserved(rt: HostRuntime) {
    for (text, reserved) in [
        ("a/.vortex_backup/b", true),
        ("x.vortex_backup", true),
        ("x.vortex_backup.txt", false),
        ("vortex.deployment.json/x", true),
        ("a/vortex.deployment.json", false),
    ] {
        assert_eq!(&rt; path_of(&rt, text).is_reserved(), reserved, "at {text}");
    }
}

#[test]
#[tactic(auto, unfolding(rel_paths::specs::Names::path_fault))]
fn joined_names_stand_behind_one_another(rt: HostRuntime) {
    let above = RelPath::parse(rt.alloc(), "aside/1").expect(&rt, "a user path");
    let below = RelPath::parse(rt.alloc(), "game/x.txt").expect(&rt, "a user path");
    let whole = above.join(rt.alloc(), &below).expect(&rt, "memory");
    assert_eq!(&rt; whole.text(), "aside/1/game/x.txt");
}
