// Plans that are made and carried out.
ghost use Rattle.std.specs.Prelude.{◌≡◌, ◌⊎◌, IsTrue};
ghost use Rattle.rel_paths.specs.declared.control.Control.{Control};
ghost use Rattle.tree_fs.specs.declared.name.Kind.TheVariants.{Absent, File};
ghost use Rattle.tree_fs.specs.Story.{disk_of};
ghost use Rattle.tree_fs.specs.Texts.{control_spot};
ghost use Rattle.tree_mem.specs.MemStory.{mem_story};
ghost use Rattle.intent_journal.specs.Temps.{IsFileOrAbsent};

use super::deploying::{OF_ABC, manifest, planned_within};
use plan_run::{RunError, carry_out};
use rel_paths::Control;
use std::process::Abort;
use test_worlds::{bytes_of, is_same_file, kind_at, kind_of, shown, steps_of, world};
use tree_fs::{Kind, Place};
use tree_mem::MemTree;

fn is_open(kind: Kind) -> bool
    ensures { IsTrue result → (kind ≡ File) ⊎ (kind ≡ Absent) }
{
    match kind {
        Kind::File | Kind::Absent => true,
        Kind::Folder | Kind::Other => false,
    }
}

// Stops where something other than a file is at a control place.
fn need_open_at(rt: &(impl AllocGlobal + Abort), tree: &mut MemTree, which: Control)
    ensures is_open { IsFileOrAbsent (disk_of (mem_story tree.new)) (control_spot which) }
    ensures same { mem_story tree.new ≡ mem_story tree.old }
{
    let kind = kind_at(tree, &Place::control(which)).expect(rt, "a look");
    assert!(rt; is_open(kind));
}

fn need_open(rt: &(impl AllocGlobal + Abort), tree: &mut MemTree)
    ensures are_open { (which : Control) →
        IsFileOrAbsent (disk_of (mem_story tree.new)) (control_spot which) }
    ensures same { mem_story tree.new ≡ mem_story tree.old }
{
    need_open_at(rt, tree, Control::Intent);
    need_open_at(rt, tree, Control::IntentTemp);
    need_open_at(rt, tree, Control::ManifestTemp);
    need_open_at(rt, tree, Control::ProfileTemp);
    need_open_at(rt, tree, Control::Profile);
    need_open_at(rt, tree, Control::Manifest);
}

const MANIFEST: &str = "game/vortex.deployment.json";

const EMPTY: &str = "{\"files\":[],\"folders\":[],\"version\":2}";

// The text of the manifest that is there, or no text.
fn text_there(rt: &(impl AllocGlobal + Abort), tree: &mut MemTree) -> String {
    if kind_of(rt.alloc(), tree, MANIFEST).expect(rt, "a look") == Kind::File {
        let bytes = bytes_of(rt.alloc(), tree, MANIFEST).expect(rt, "a manifest");
        return String::from_utf8(bytes).expect(rt, "text");
    }
    String::new(rt.alloc())
}

// Makes the plan of these mods over the manifest that is there, and carries it out.
fn carried_out(
    rt: &(impl AllocGlobal + Abort),
    tree: &mut MemTree,
    mods: &[(&str, bool)],
    most: u64,
) -> Result<(), RunError> {
    let text = text_there(rt, tree);
    let there = if text.is_empty() {
        None
    } else {
        Some(manifest(rt, text.as_str()))
    };
    let none = manifest(rt, EMPTY);
    let old = there.as_ref().unwrap_or(&none);
    let plan = planned_within(rt, tree, mods, old, u64::MAX).expect(rt, "a plan");
    need_open(rt, tree);
    carry_out(rt.alloc(), tree, plan, there.as_ref(), most)
}

// What that answers.
fn run(
    rt: &(impl AllocGlobal + Abort),
    tree: &mut MemTree,
    mods: &[(&str, bool)],
    most: u64,
) -> String {
    match carried_out(rt, tree, mods, most) {
        Ok(()) => format!(in rt.alloc(); "done").expect(rt, "memory"),
        Err(e) => format!(in rt.alloc(); "{e:?}").expect(rt, "memory"),
    }
}

fn check_text(rt: &(impl AllocGlobal + Abort), found: &str, wanted: &str) {
    assert_eq!(rt; found, wanted);
}

// What lies below a folder.
fn check_shown(rt: &(impl AllocGlobal + Abort), tree: &mut MemTree, folder: &str, wanted: &str) {
    let found = shown(rt.alloc(), tree, folder).expect(rt, "a world");
    check_text(rt, found.as_str(), wanted);
}

// The plan is carried out, and this is the game folder then. Nothing is left in `keep`.
fn check_run(
    rt: &(impl AllocGlobal + Abort),
    tree: &mut MemTree,
    mods: &[(&str, bool)],
    game: &str,
) {
    check_text(rt, run(rt, tree, mods, u64::MAX).as_str(), "done");
    check_shown(rt, tree, "game", game);
    check_shown(rt, tree, "keep", "");
}

const TWO_MODS: &str = "stage/a/x.txt = \"A\"\nstage/b/x.txt = \"abc\"\n";

const BOTH: [(&str, bool); 2] = [("a", false), ("b", false)];

// The game folder with one row of the mod `b`, and this besides.
fn with_row(rt: &(impl AllocGlobal + Abort), shadowed: bool, rest: &str) -> String {
    let row = format!(in rt.alloc(); "{{\"digest\":\"{OF_ABC}\",\"mod\":\"b\",\"path\":\"x.txt\"");
    let row = row.expect(rt, "memory");
    let end = format!(in rt.alloc(); "\"shadowed\":{shadowed},\"source\":\"x.txt\"}}");
    let end = end.expect(rt, "memory");
    let text = format!(in rt.alloc(); "{{\"files\":[{row},{end}],\"folders\":[],\"version\":2}}");
    let text = text.expect(rt, "memory");
    format!(in rt.alloc(); "{MANIFEST} = \"{text}\"\n{rest}").expect(rt, "memory")
}

#[test]
fn the_last_mod_is_deployed_once(rt: HostRuntime) {
    let mut tree = world(rt.alloc(), TWO_MODS).expect(&rt, "a world");
    let game = with_row(&rt, false, "game/x.txt = \"abc\"\n");
    check_run(&rt, &mut tree, BOTH.as_slice(), game.as_str());
    let same = is_same_file(rt.alloc(), &mut tree, "game/x.txt", "stage/b/x.txt");
    assert!(&rt; same.expect(&rt, "two files"));
    // the second time nothing is done
    let steps = steps_of(rt.alloc(), &tree).expect(&rt, "memory");
    check_run(&rt, &mut tree, BOTH.as_slice(), game.as_str());
    let after = steps_of(rt.alloc(), &tree).expect(&rt, "memory");
    assert_eq!(&rt; after.as_str(), steps.as_str());
}

#[test]
fn a_covered_file_stands_at_its_backup_place(rt: HostRuntime) {
    let lines = format!(in rt.alloc(); "{TWO_MODS}game/x.txt = \"game\"").expect(&rt, "memory");
    let mut tree = world(rt.alloc(), lines.as_str()).expect(&rt, "a world");
    let files = "game/x.txt = \"abc\"\ngame/x.txt.vortex_backup = \"game\"\n";
    let game = with_row(&rt, true, files);
    check_run(&rt, &mut tree, BOTH.as_slice(), game.as_str());
    // no mod wins the path any more
    let empty = format!(in rt.alloc(); "{MANIFEST} = \"{EMPTY}\"\ngame/x.txt = \"game\"\n");
    check_run(&rt, &mut tree, &[], empty.expect(&rt, "memory").as_str());
}

#[test]
fn an_own_folder_is_made_and_taken_off(rt: HostRuntime) {
    let mut tree = world(rt.alloc(), "stage/a/d/x = \"abc\"").expect(&rt, "a world");
    let answer = run(&rt, &mut tree, &[("a", false)], u64::MAX);
    assert_eq!(&rt; answer.as_str(), "done");
    let found = bytes_of(rt.alloc(), &mut tree, "game/d/x").expect(&rt, "a file");
    assert_eq!(&rt; found.as_slice(), b"abc".as_slice());
    let empty = format!(in rt.alloc(); "{MANIFEST} = \"{EMPTY}\"\n");
    check_run(&rt, &mut tree, &[], empty.expect(&rt, "memory").as_str());
}

// The text of the intent has 329 bytes.
#[test]
fn the_intent_may_have_two_bytes_less_than_the_limit(rt: HostRuntime) {
    let mut tree = world(rt.alloc(), TWO_MODS).expect(&rt, "a world");
    for most in [0, 330] {
        let answer = run(&rt, &mut tree, BOTH.as_slice(), most);
        assert_eq!(&rt; answer.as_str(), "TooLong(331)");
    }
    let steps = steps_of(rt.alloc(), &tree).expect(&rt, "memory");
    assert_eq!(&rt; steps.as_str(), "");
    let answer = run(&rt, &mut tree, BOTH.as_slice(), 331);
    assert_eq!(&rt; answer.as_str(), "done");
}

// No limit is asked of a plan that moves nothing.
#[test]
fn an_idle_plan_may_have_a_text_of_any_length(rt: HostRuntime) {
    let mut tree = world(rt.alloc(), TWO_MODS).expect(&rt, "a world");
    for most in [u64::MAX, 0] {
        let answer = run(&rt, &mut tree, BOTH.as_slice(), most);
        assert_eq!(&rt; answer.as_str(), "done");
    }
}
