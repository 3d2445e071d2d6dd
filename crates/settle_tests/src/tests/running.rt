// Settlements that are planned and carried out.
ghost use Rattle.std.specs.Prelude.{◌≡◌, ◌⊎◌, IsTrue};
ghost use Rattle.rel_paths.specs.declared.control.Control.{Control};
ghost use Rattle.tree_fs.specs.declared.name.Kind.TheVariants.{Absent, File};
ghost use Rattle.tree_fs.specs.Story.{disk_of};
ghost use Rattle.tree_fs.specs.Texts.{control_spot};
ghost use Rattle.tree_mem.specs.MemStory.{mem_story};
ghost use Rattle.intent_journal.specs.Temps.{IsFileOrAbsent};

use super::settling::{manifest, planned, record};
use change_detect::all_changes;
use plan_run::carry_out;
use rel_paths::Control;
use std::process::Abort;
use test_worlds::{add, is_same_file, kind_at, shown, world};
use tree_fs::{Kind, Place};
use tree_mem::MemTree;

fn is_open(kind: Kind) -> bool
    ensures { IsTrue result → (kind ≡ File) ⊎ (kind ≡ Absent) }
{
    match kind {
        Kind::File | Kind::Absent => true,
        Kind::Folder | Kind::Other => false,
    }
}

// Stops where something other than a file is at a control place.
fn need_open_at(rt: &(impl AllocGlobal + Abort), tree: &mut MemTree, which: Control)
    ensures is_open { IsFileOrAbsent (disk_of (mem_story tree.new)) (control_spot which) }
    ensures same { mem_story tree.new ≡ mem_story tree.old }
{
    let kind = kind_at(tree, &Place::control(which)).expect(rt, "a look");
    assert!(rt; is_open(kind));
}

fn need_open(rt: &(impl AllocGlobal + Abort), tree: &mut MemTree)
    ensures are_open { (which : Control) →
        IsFileOrAbsent (disk_of (mem_story tree.new)) (control_spot which) }
    ensures same { mem_story tree.new ≡ mem_story tree.old }
{
    need_open_at(rt, tree, Control::Intent);
    need_open_at(rt, tree, Control::IntentTemp);
    need_open_at(rt, tree, Control::ManifestTemp);
    need_open_at(rt, tree, Control::ProfileTemp);
    need_open_at(rt, tree, Control::Profile);
    need_open_at(rt, tree, Control::Manifest);
}

// The line of a world that puts this manifest in its place.
fn manifest_line(rt: &(impl AllocGlobal + Abort), words: (&str, &str)) -> String {
    let text = record(rt, words);
    format!(in rt.alloc(); "game/vortex.deployment.json = \"{text}\"\n").expect(rt, "memory")
}

// The world with these lines and this manifest, settled.
fn settled(rt: &(impl AllocGlobal + Abort), lines: &str, words: (&str, &str)) -> MemTree {
    let mut tree = world(rt.alloc(), lines).expect(rt, "a world");
    add(rt.alloc(), &mut tree, manifest_line(rt, words).as_str()).expect(rt, "a manifest");
    let old = manifest(rt, words);
    let plan = planned(rt, &mut tree, &old).expect(rt, "a plan");
    need_open(rt, &mut tree);
    carry_out(rt.alloc(), &mut tree, plan, Some(&old), u64::MAX).expect(rt, "a settlement");
    tree
}

// What lies below a folder.
fn check_shown(rt: &(impl AllocGlobal + Abort), tree: &mut MemTree, folder: &str, wanted: &str) {
    let found = shown(rt.alloc(), tree, folder).expect(rt, "a world");
    let found = found.as_str();
    assert_eq!(rt; found, wanted);
}

// No row has changed.
fn check_clean(rt: &(impl AllocGlobal + Abort), tree: &mut MemTree, new: (&str, &str)) {
    let new = manifest(rt, new);
    let changes = all_changes(rt.alloc(), tree, &new).expect(rt, "changes");
    assert!(rt; changes.is_empty());
}

/// A settlement is carried out. Then the game folder, which has this manifest besides, `keep` and
/// the mods are like this, and each row is clean.
pub(super) fn check_run(
    rt: &(impl AllocGlobal + Abort),
    lines: &str,
    old: (&str, &str),
    new: (&str, &str),
    [game, keep, stage]: [&str; 3],
) {
    let mut tree = settled(rt, lines, old);
    let line = manifest_line(rt, new);
    let game = format!(in rt.alloc(); "{game}{line}").expect(rt, "memory");
    check_shown(rt, &mut tree, "game", game.as_str());
    check_shown(rt, &mut tree, "keep", keep);
    check_shown(rt, &mut tree, "stage", stage);
    check_clean(rt, &mut tree, new);
}

// Both names of the row of a path are one file, which has this digest there. In `keep` there is
// what is set aside.
fn check_linked(
    rt: &(impl AllocGlobal + Abort),
    lines: &str,
    (path, new): (&str, &str),
    keep: &str,
) {
    let mut tree = settled(rt, lines, (path, ""));
    let game = format!(in rt.alloc(); "game/{path}").expect(rt, "memory");
    let stage = format!(in rt.alloc(); "stage/b/{path}").expect(rt, "memory");
    let same = is_same_file(rt.alloc(), &mut tree, game.as_str(), stage.as_str());
    assert!(rt; same.expect(rt, "two files"));
    check_clean(rt, &mut tree, (new, ""));
    check_shown(rt, &mut tree, "keep", keep);
}

const LET_GO: &str = "keep/aside/
keep/aside/1/
keep/aside/1/game/
keep/aside/1/game/drop = \"abc\"
";

#[test]
fn a_found_file_is_staged_or_let_go(rt: HostRuntime) {
    check_linked(&rt, "game/x = \"abc\"", ("x", "x"), "");
    let lines = "game/drop = \"abc\"";
    check_run(&rt, lines, ("drop", ""), ("", ""), ["", LET_GO, ""]);
}

const IMPORTED: &str = "keep/aside/
keep/aside/1/
keep/aside/1/stage/
keep/aside/1/stage/b/
keep/aside/1/stage/b/import = \"abc\"
";

const GIVEN_UP: &str = "keep/aside/
keep/aside/1/
keep/aside/1/game/
";

#[test]
fn a_replaced_file_is_imported_or_given_up(rt: HostRuntime) {
    let lines = "stage/b/import = \"abc\"\ngame/import = \"new\"";
    check_linked(&rt, lines, ("import", "import=new"), IMPORTED);
    // the folders that were made for it stay
    let lines = "stage/b/revert = \"abc\"\ngame/revert = \"new\"";
    check_linked(&rt, lines, ("revert", "revert"), GIVEN_UP);
}

#[test]
fn an_emptied_file_stays_with_both_names(rt: HostRuntime) {
    let lines = "stage/b/x = \"\"\ngame/x = stage/b/x";
    check_linked(&rt, lines, ("x", "x="), "");
}
