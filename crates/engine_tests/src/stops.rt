// Commands that are stopped at each of their calls: after the recovery the world is the old or the
// new one.
use crate::script::{all_shown, crashed, played, said};
use deploy_engine::Limits;
use std::process::Abort;
use test_worlds::{fail_call, is_same_file};
use tree_mem::MemTree;

// The choices of the crashes that are tried. Any two of the first four pending places have each
// pair of their first three values; so have the first three, where an odd number of choices leaves
// files that aren't firm without bytes.
const CRASHES: [&[u32]; 22] = [
    &[],
    &[0],
    &[0, 0, 0, 0, 0, 0, 0, 0],
    &[1, 1, 1, 1, 1, 1, 1, 1],
    &[0, 1, 0, 1, 0, 1, 0],
    &[0, 1, 1, 1],
    &[0, 2, 2, 2],
    &[1, 0, 1, 2],
    &[1, 1, 2, 0],
    &[1, 2, 0, 1],
    &[2, 0, 2, 1],
    &[2, 1, 0, 2],
    &[2, 2, 1, 0],
    &[0, 0, 0],
    &[0, 1, 1],
    &[0, 2, 2],
    &[1, 0, 1],
    &[1, 1, 2],
    &[1, 2, 0],
    &[2, 0, 2],
    &[2, 1, 0],
    &[2, 2, 1],
];

// How many calls a command may make here.
const MOST_CALLS: u64 = 1_000;

fn push(rt: &(impl AllocGlobal + Abort), text: &mut String, part: &str) {
    text.push_str(part).expect(rt, "memory");
}

// Adds a line for each place of a staged file, or of one kept aside, where this file of the game
// is: `lines` are those of the world.
fn push_links(
    rt: &(impl AllocGlobal + Abort),
    tree: &mut MemTree,
    at: &str,
    lines: &str,
    text: &mut String,
) {
    for line in lines.lines() {
        let (other, _) = line.split_once(" = ").unwrap_or(("", ""));
        if other.starts_with("stage/") || other.starts_with("keep/aside/") {
            if is_same_file(rt.alloc(), tree, at, other).expect(rt, other) {
                push(rt, text, at);
                push(rt, text, " is ");
                push(rt, text, other);
                push(rt, text, "\n");
            }
        }
    }
}

// All that stands in the world, and which files of the game are staged files or kept aside.
fn desk(rt: &(impl AllocGlobal + Abort), tree: &mut MemTree) -> String {
    let lines = all_shown(rt, tree);
    let mut links = String::new(rt.alloc());
    for line in lines.lines() {
        let (at, _) = line.split_once(" = ").unwrap_or(("", ""));
        if at.starts_with("game/") {
            push_links(rt, tree, at, lines.as_str(), &mut links);
        }
    }
    push(rt, &mut links, lines.as_str());
    links
}

fn run(rt: &(impl AllocGlobal + Abort), words: &str, tree: &mut MemTree) -> u8 {
    let (status, _) = said(rt, words, &Limits::usual(), tree, b"");
    status
}

// The two worlds that a stopped command may leave once it is recovered.
#[derive(Drop)]
struct Ends {
    old: String,
    new: String,
}

fn both_ends(rt: &(impl AllocGlobal + Abort), start: &MemTree, words: &str) -> Ends {
    let mut tree = crashed(rt, start, &[]);
    let old = desk(rt, &mut tree);
    let status = run(rt, words, &mut tree);
    assert_eq!(rt; status, 0, "{words}");
    let new = desk(rt, &mut tree);
    assert!(rt; old.as_str() != new.as_str(), "{words}");
    Ends { old, new }
}

fn check_recovered(rt: &(impl AllocGlobal + Abort), mut tree: MemTree, ends: &Ends) {
    let status = run(rt, "recover", &mut tree);
    assert_eq!(rt; status, 0);
    let found = desk(rt, &mut tree);
    let is_end = found.as_str() == ends.old.as_str() || found.as_str() == ends.new.as_str();
    assert!(rt; is_end, "{found}");
}

// The disk as it stands, and so many images of it.
fn check_images(rt: &(impl AllocGlobal + Abort), tree: MemTree, ends: &Ends, images: usize) {
    for choices in CRASHES.iter().take(images) {
        check_recovered(rt, crashed(rt, &tree, *choices), ends);
    }
    check_recovered(rt, tree, ends);
}

// The world after this call of the command failed, and the command's status.
fn stopped(
    rt: &(impl AllocGlobal + Abort),
    start: &MemTree,
    words: &str,
    call: u64,
    done: bool,
) -> (MemTree, u8) {
    let mut tree = crashed(rt, start, &[]);
    fail_call(rt.alloc(), &mut tree, call, done).expect(rt, "memory");
    let status = run(rt, words, &mut tree);
    fail_call(rt.alloc(), &mut tree, u64::MAX, false).expect(rt, "memory");
    (tree, status)
}

/// Stops the command at each of its calls, once before its step and once behind it: after the
/// recovery the world that the script leads to is as before, or as after the command.
pub fn check_stops(rt: &(impl AllocGlobal + Abort), script: &str, words: &str) {
    for done in [false, true] {
        check_calls(rt, script, words, done, CRASHES.len());
    }
}

/// The same with so many of the crashes, and only before the steps or only behind them.
pub fn check_calls(
    rt: &(impl AllocGlobal + Abort),
    script: &str,
    words: &str,
    done: bool,
    images: usize,
) {
    let start = played(rt, script);
    let ends = both_ends(rt, &start, words);
    let mut before = 0;
    for call in 0..MOST_CALLS {
        let (tree, status) = stopped(rt, &start, words, call, done);
        if status == 0 {
            return;
        }
        assert_eq!(rt; status, 5, "{words}");
        let steps = tree.ops().len();
        // Where the call that failed was a look, the disk is that of the stop before.
        if before < steps {
            check_images(rt, tree, &ends, images);
        }
        before = steps;
    }
    panic!(rt; "{words} makes too many calls")
}

// Stops a recovery at each of its calls.
fn check_recovery(rt: &(impl AllocGlobal + Abort), image: &MemTree, ends: &Ends) {
    for call in 0..MOST_CALLS {
        let (tree, status) = stopped(rt, image, "recover", call, false);
        if status == 0 {
            return;
        }
        assert_eq!(rt; status, 5);
        check_recovered(rt, crashed(rt, &tree, &[0; 8]), ends);
    }
    panic!(rt; "a recovery makes too many calls")
}

/// Stops the recovery of the command at each of its calls, wherever the command was stopped: after
/// a second recovery the world is as before, or as after the command.
pub fn check_recoveries(rt: &(impl AllocGlobal + Abort), script: &str, words: &str) {
    let start = played(rt, script);
    let ends = both_ends(rt, &start, words);
    for call in 0..MOST_CALLS {
        let (tree, status) = stopped(rt, &start, words, call, false);
        if status == 0 {
            return;
        }
        check_recovery(rt, &crashed(rt, &tree, &[0; 8]), &ends);
    }
    panic!(rt; "{words} makes too many calls")
}
