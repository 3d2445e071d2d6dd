// Manifests that are written as words, and what a settlement plans over them.
ghost use Rattle.std.specs.Prelude.{◌≡◌};
ghost use Rattle.change_choices.specs.Choice.{choice};
ghost use Rattle.change_choices.specs.declared.choices.Choices.{Choices};
ghost use Rattle.settle_tests.specs.Chosen.{AreChosen};

use super::choosing::{choices, chosen};
use change_choices::{Action, Class};
use change_detect::all_changes;
use change_settle::{Decider, SettleError, settle_plan};
use manifest_json::{Manifest, manifest_text, read_manifest};
use move_plan::{Plan, plan_lines};
use std::process::Abort;
use test_worlds::{fail_call, world};
use tree_mem::MemTree;

// The digest of "abc", "new" or no bytes.
fn digest_of(bytes: &str) -> &'static str {
    match bytes {
        "abc" => "ba7816bf8f01cfea414140de5dae2223b00361a396177a9cb410ff61f20015ad",
        "new" => "11507a0e2f5e69d5dfa40a62a1bd7b6ee57e6bcd85c67c9b8431b36fff21c437",
        _ => "e3b0c44298fc1c149afbf4c8996fb92427ae41e4649b934ca495991b7852b855",
    }
}

// A row of the mod `b`, as JSON: a star where it is shadowed, its path, then `@` and its source
// where that isn't the path, then `=` and the bytes of its digest where these aren't "abc".
fn row_text(rt: &(impl AllocGlobal + Abort), row: &str) -> String {
    let shadowed = row.starts_with('*');
    let row = row.strip_prefix('*').unwrap_or(row);
    let (names, bytes) = row.split_once('=').unwrap_or((row, "abc"));
    let (path, source) = names.split_once('@').unwrap_or((names, names));
    let digest = digest_of(bytes);
    let first = format!(in rt.alloc(); "{{\"digest\":\"{digest}\",\"mod\":\"b\"").expect(
        rt, "memory",
    );
    let names = format!(in rt.alloc(); "\"path\":\"{path}\",\"shadowed\":{shadowed}").expect(
        rt, "memory",
    );
    format!(in rt.alloc(); "{first},{names},\"source\":\"{source}\"}}").expect(rt, "memory")
}

fn push_item(rt: &(impl AllocGlobal + Abort), list: &mut String, item: &str) {
    if !list.is_empty() {
        list.push(',').expect(rt, "memory");
    }
    list.push_str(item).expect(rt, "memory");
}

fn rows_text(rt: &(impl AllocGlobal + Abort), rows: &str) -> String {
    let mut list = String::new(rt.alloc());
    for row in rows.split_whitespace() {
        push_item(rt, &mut list, row_text(rt, row).as_str());
    }
    list
}

fn folders_text(rt: &(impl AllocGlobal + Abort), folders: &str) -> String {
    let mut list = String::new(rt.alloc());
    for folder in folders.split_whitespace() {
        let text = format!(in rt.alloc(); "\"{folder}\"").expect(rt, "memory");
        push_item(rt, &mut list, text.as_str());
    }
    list
}

/// The text of a manifest: its rows, then its own folders, each a word.
pub(super) fn record(rt: &(impl AllocGlobal + Abort), (rows, folders): (&str, &str)) -> String {
    let rows = rows_text(rt, rows);
    let folders = folders_text(rt, folders);
    let text = format!(in rt.alloc();
        "{{\"files\":[{rows}],\"folders\":[{folders}],\"version\":2}}"
    );
    text.expect(rt, "memory")
}

/// The manifest with these rows and own folders.
pub(super) fn manifest(rt: &(impl AllocGlobal + Abort), words: (&str, &str)) -> Manifest {
    let text = record(rt, words);
    read_manifest(rt.alloc(), text.as_bytes()).expect(rt, "a manifest")
}

/// What is planned where at most so many calls succeed after the changes are found.
pub(super) fn planned_within(
    rt: &(impl AllocGlobal + Abort),
    tree: &mut MemTree,
    old: &Manifest,
    most: u64,
) -> Result<Plan, SettleError> {
    let changes = all_changes(rt.alloc(), tree, old).expect(rt, "changes");
    let choices = choices(rt);
    let decider = Decider::new(
        &choices,
        |path: &str, class: Class| -> Action
            ensures { (c : Choices) → AreChosen c → result ≡ choice c path.now class }
        { chosen(path, class) },
    );
    fail_call(rt.alloc(), tree, most, false).expect(rt, "memory");
    settle_plan(rt.alloc(), tree, old, &changes, &decider)
}

/// What is planned where every call succeeds.
pub(super) fn planned(
    rt: &(impl AllocGlobal + Abort),
    tree: &mut MemTree,
    old: &Manifest,
) -> Result<Plan, SettleError> {
    planned_within(rt, tree, old, u64::MAX)
}

// The lines of a plan, and then its manifest.
fn plan_text(rt: &(impl AllocGlobal + Abort), plan: &Plan) -> String {
    let lines = plan_lines(rt.alloc(), plan).expect(rt, "memory");
    let mut text = String::from_utf8(lines).expect(rt, "a text");
    if let Some(manifest) = &plan.manifest {
        let bytes = manifest_text(rt.alloc(), manifest).expect(rt, "memory");
        let manifest = String::from_utf8(bytes).expect(rt, "a text");
        text.push_str(manifest.as_str()).expect(rt, "memory");
    }
    text
}

fn answer_text(rt: &(impl AllocGlobal + Abort), answer: Result<Plan, SettleError>) -> String {
    match answer {
        Ok(plan) => plan_text(rt, &plan),
        Err(e) => format!(in rt.alloc(); "{e:?}").expect(rt, "memory"),
    }
}

/// What is planned for a world, or why there is no plan.
pub(super) fn check_answer(
    rt: &(impl AllocGlobal + Abort),
    lines: &str,
    old: (&str, &str),
    wanted: &str,
) {
    let mut tree = world(rt.alloc(), lines).expect(rt, "a world");
    let old = manifest(rt, old);
    let answer = planned(rt, &mut tree, &old);
    assert_eq!(rt; answer_text(rt, answer).as_str(), wanted);
}

/// What is planned for a world: these lines, and this manifest.
pub(super) fn check(
    rt: &(impl AllocGlobal + Abort),
    lines: &str,
    old: (&str, &str),
    wanted: &str,
    new: (&str, &str),
) {
    let new = record(rt, new);
    let wanted = format!(in rt.alloc(); "{wanted}{new}").expect(rt, "memory");
    check_answer(rt, lines, old, wanted.as_str());
}
