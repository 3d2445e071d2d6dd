// Texts, names, faults and the order, by values that were made by hand.
ghost use Rattle.rel_paths.specs.Names.{IsUserPath};

use rel_paths::{Control, ModId, PathError, RelPath};
use std::process::Abort;
use tree_fs::{Bytes, Name, Place, Root};

fn id_of(rt: &(impl AllocGlobal + Abort), text: &str) -> ModId {
    ModId::parse(rt.alloc(), text).expect(rt, "an id")
}

fn path_of(rt: &(impl AllocGlobal + Abort), text: &str) -> RelPath
    ensures { IsUserPath result }
{
    RelPath::parse(rt.alloc(), text).expect(rt, "a path")
}

fn place_of(rt: &(impl AllocGlobal + Abort), text: &str) -> Place {
    Place::parse(rt.alloc(), text).expect(rt, "a place")
}

fn check_text(rt: &(impl AllocGlobal + Abort), place: &Place, text: &str) {
    let found = place.text(rt.alloc()).expect(rt, "memory");
    assert_eq!(rt; found.as_str(), text);
}

fn check_control(rt: &(impl AllocGlobal + Abort), which: Control, text: &str) {
    let place = Place::control(which);
    check_text(rt, &place, text);
    let copy = place.copy().expect(rt, "memory");
    check_text(rt, &copy, text);
}

#[test]
fn control_places_have_their_texts(rt: HostRuntime) {
    for (which, text) in [
        (Control::Intent, "keep/intent.json"),
        (Control::IntentTemp, "keep/intent.tmp"),
        (Control::ManifestTemp, "keep/manifest.tmp"),
        (Control::ProfileTemp, "keep/profile.tmp"),
        (Control::Profile, "keep/profile.toml"),
        (Control::Manifest, "game/vortex.deployment.json"),
    ] {
        check_control(&rt, which, text);
    }
}

fn check_staged(rt: &(impl AllocGlobal + Abort), id: &str, path: &str, text: &str) {
    let id = id_of(rt, id);
    let path = path_of(rt, path);
    let place = Place::staged(rt.alloc(), &id, &path).expect(rt, "memory");
    check_text(rt, &place, text);
}

fn check_mod_folder(rt: &(impl AllocGlobal + Abort), id: &str, text: &str) {
    let id = id_of(rt, id);
    let place = Place::mod_folder(rt.alloc(), &id).expect(rt, "memory");
    check_text(rt, &place, text);
}

fn check_game(rt: &(impl AllocGlobal + Abort), path: &str, text: &str) {
    let path = path_of(rt, path);
    let place = Place::game(rt.alloc(), &path).expect(rt, "memory");
    check_text(rt, &place, text);
}

#[test]
fn places_have_their_texts(rt: HostRuntime) {
    check_staged(
        &rt,
        "better rocks",
        "meshes/rock.nif",
        "stage/better rocks/meshes/rock.nif",
    );
    check_mod_folder(&rt, "better rocks", "stage/better rocks");
    check_game(&rt, "meshes/rock.nif", "game/meshes/rock.nif");
    let root = Place {
        root: Root::Keep,
        rel: None,
    };
    check_text(&rt, &root, "keep");
    let printed = format!(in rt.alloc(); "{root}").expect(&rt, "memory");
    assert_eq!(&rt; printed.as_str(), "keep");
}

fn place_fault(rt: &(impl AllocGlobal + Abort), text: &str) -> Option<PathError> {
    Place::parse(rt.alloc(), text).err()
}

#[test]
fn a_texts_first_fault_is_told(rt: HostRuntime) {
    for (text, fault) in [
        ("", Some(PathError::BadName(0))),
        ("games", Some(PathError::BadName(0))),
        ("Game/a", Some(PathError::BadName(0))),
        ("/game", Some(PathError::BadName(0))),
        ("game", None),
        ("game/", Some(PathError::Empty)),
        ("game//a", Some(PathError::BadName(1))),
        ("game/a/../b", Some(PathError::BadName(2))),
        ("stage/a/b/", Some(PathError::BadName(3))),
        ("keep/aside/1/a b.esp", None),
    ] {
        assert_eq!(&rt; place_fault(&rt, text), fault, "at {text}");
    }
}

// The text of the place above, or none.
fn parent_text(rt: &(impl AllocGlobal + Abort), text: &str) -> Option<String> {
    let place = place_of(rt, text);
    let above = place.parent(rt.alloc()).expect(rt, "memory")?;
    Some(above.text(rt.alloc()).expect(rt, "memory"))
}

fn check_parent(rt: &(impl AllocGlobal + Abort), text: &str, wanted: Option<&str>) {
    let above = parent_text(rt, text);
    assert!(rt; above.as_deref() == wanted, "at {text}");
}

#[test]
fn parents_end_at_the_root(rt: HostRuntime) {
    check_parent(&rt, "keep/aside/1", Some("keep/aside"));
    check_parent(&rt, "keep/aside", Some("keep"));
    check_parent(&rt, "keep", None);
}

fn check_order(rt: &(impl AllocGlobal + Abort), low: &str, high: &str) {
    let low = place_of(rt, low);
    let high = place_of(rt, high);
    assert!(rt; low < high, "{low} and {high}");
    assert!(rt; low != high, "{low} and {high}");
}

#[test]
fn places_go_by_the_bytes_of_their_texts(rt: HostRuntime) {
    let texts = [
        "game", "game/a", "game/a b", "game/a/b", "game/b", "keep", "keep/a", "stage", "stage/a",
    ];
    for (i, low) in texts.iter().enumerate() {
        for high in texts.iter().skip(i + 1) {
            check_order(&rt, *low, *high);
        }
    }
}

fn name_fault(rt: &(impl AllocGlobal + Abort), text: &str) -> Option<PathError> {
    Name::parse(rt.alloc(), text).err()
}

#[test]
fn names_are_what_a_folder_can_have(rt: HostRuntime) {
    let longest = "n".repeat(rt.alloc(), 255).expect(&rt, "memory");
    let long = "n".repeat(rt.alloc(), 256).expect(&rt, "memory");
    for (text, fault) in [
        ("", Some(PathError::Empty)),
        (".", Some(PathError::BadName(0))),
        ("..", Some(PathError::BadName(0))),
        ("a/b", Some(PathError::BadName(0))),
        ("a\0", Some(PathError::BadName(0))),
        ("...", None),
        ("a\\b\n", None),
        (longest.as_str(), None),
        (long.as_str(), Some(PathError::Long)),
    ] {
        assert_eq!(&rt; name_fault(&rt, text), fault, "at {text}");
    }
    let name = Name::parse(rt.alloc(), "a b").expect(&rt, "a name");
    assert_eq!(&rt; name.text(), "a b");
}

#[test]
fn bytes_come_back(rt: HostRuntime) {
    let items = vec![in rt.alloc(); 1, 2, 3].expect(&rt, "memory");
    let bytes = Bytes::from_vec(items);
    assert_eq!(&rt; bytes.as_slice().len(), 3);
    assert_eq!(&rt; bytes.into_vec().as_slice(), [1, 2, 3].as_slice());
}
