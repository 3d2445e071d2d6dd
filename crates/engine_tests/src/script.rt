// Scripts: what happens to a world, a line each. The first sign of a line says what it is.
// `tables.rt` says how many scripts stand in one text.
//
//     + stage/a/x.txt = "A"      others add a file; `+ stage/a/d/` a folder, and
//                                `+ game/x.txt = stage/a/x.txt` one more name of a file
//     ~ game/x.txt = "B"         others give a file other bytes, under all its names
//     - game/x.txt               others take a file's name away, `- game/d/` an empty folder
//     * version = 1              the next line of the profile, which others write
//     = x.txt b H1               a row of a manifest: path, mod, digest; behind them perhaps
//                                `shadowed` and `from y.txt`; `= d/` is one of its folders
//     + manifest                 others put the manifest of these rows; `? manifest`: it stands
//     < x.txt|revert             the next line of the input
//     % text 155                 a limit
//     > order => 0               a command and its status; what it prints follows, line by line
//     ! unlink game/x; sync keep the steps of that command, all of them; `! none`: it made none
//     ? game/x.txt = "B"         what stands there now: `? game/x.txt = stage/a/x.txt` is one file,
//                                `? game/d/ = x y` a folder with these entries, `nothing` in their
//                                place: one without, `? game/x.txt -` nothing at all
//     ^ deploy => sync keep      the command is stopped by the call that makes the last of these
//                                steps; `(not done)` behind it: by the call that was to make it
//     @ 0 1                      what a crash leaves, by these choices
//     # a remark; `$` begins a row of a table
//
// A line that ends in a backslash goes on in the next one. A bar is a tab in what is printed and in
// input, and a line end in a file's bytes. In these `H0` is the digest of no bytes, `H1` that of
// "abc" and `H2` that of "A", `MANIFEST` is the text of the rows, and `ROW` stands for the first
// keys of a row.
//
// Of each command it is asked besides: one that only looks, or that answers with status 2 or 4,
// makes no step; one that is refused makes the barrier's steps at most; after status 0 or 1 nothing
// is pending.
use crate::manifests::{Rows, add_manifest, check_manifest};
use crate::worlds::{add_line, check_stands, edit_line, write_file};
use deploy_engine::{Limits, run};
use io_edge::{MemSink, MemSource};
use std::process::Abort;
use std::str;
use test_worlds::{fail_call, remove_folder, remove_outside, shown, steps_of, world};
use tree_mem::MemTree;

/// A world, and what the last command did in it.
#[derive(Drop)]
pub struct Scene {
    tree: MemTree,
    limits: Limits,
    profile: String,
    rows: Rows,
    input: String,
    words: String,
    printed: String,
    wanted: String,
    steps: String,
}

/// Goes through the lines of both texts, from an empty world on.
pub fn play(rt: &(impl AllocGlobal + Abort), start: &str, script: &str) {
    let mut scene = begin(rt);
    read(rt, &mut scene, start);
    read(rt, &mut scene, script);
    check_printed(rt, &scene);
}

/// The world that the lines lead to.
pub fn played(rt: &(impl AllocGlobal + Abort), script: &str) -> MemTree {
    let mut scene = begin(rt);
    read(rt, &mut scene, script);
    check_printed(rt, &scene);
    scene.tree
}

/// The lines without what stands around them, and each that goes on in one with the next.
pub fn joined(rt: &(impl AllocGlobal + Abort), text: &str) -> String {
    let mut whole = String::new(rt.alloc());
    for line in text.lines() {
        let line = line.trim();
        let (part, end) = match line.strip_suffix('\\') {
            Some(part) => (part, ""),
            None => (line, "\n"),
        };
        whole.push_str(part).expect(rt, "memory");
        whole.push_str(end).expect(rt, "memory");
    }
    whole
}

fn read(rt: &(impl AllocGlobal + Abort), scene: &mut Scene, script: &str) {
    for line in joined(rt, script).as_str().lines() {
        step(rt, scene, line);
    }
}

fn begin(rt: &(impl AllocGlobal + Abort)) -> Scene {
    Scene {
        tree: world(rt.alloc(), "").expect(rt, "a world"),
        limits: Limits::usual(),
        profile: String::new(rt.alloc()),
        rows: Rows::none(rt),
        input: String::new(rt.alloc()),
        words: String::new(rt.alloc()),
        printed: String::new(rt.alloc()),
        wanted: String::new(rt.alloc()),
        steps: String::new(rt.alloc()),
    }
}

fn step(rt: &(impl AllocGlobal + Abort), scene: &mut Scene, line: &str) {
    let (sign, rest) = line.split_once(' ').unwrap_or((line, ""));
    match sign {
        "" | "#" | "$" => (),
        ">" => command(rt, scene, rest),
        "!" => check_steps(rt, scene, rest),
        "=" => scene.rows.push(rt, rest),
        "?" => check_now(rt, scene, rest),
        "^" => stop(rt, scene, rest),
        "@" => crash(rt, scene, rest),
        "+" | "~" | "-" | "*" | "<" | "%" => change(rt, scene, sign, rest),
        _printed => push_line(rt, &mut scene.wanted, line),
    }
}

// What others do.
fn change(rt: &(impl AllocGlobal + Abort), scene: &mut Scene, sign: &str, rest: &str) {
    match sign {
        "+" => add_there(rt, scene, rest),
        "~" => edit_line(rt, &mut scene.tree, rest),
        "-" => take_away(rt, &mut scene.tree, rest),
        "*" => push_profile(rt, scene, rest),
        "<" => push_line(rt, &mut scene.input, rest),
        _limit => limit(rt, &mut scene.limits, rest),
    }
}

fn add_there(rt: &(impl AllocGlobal + Abort), scene: &mut Scene, rest: &str) {
    let text = scene.rows.text(rt);
    if rest == "manifest" {
        add_manifest(rt, &mut scene.tree, text.as_str());
        scene.rows = Rows::none(rt);
    } else {
        add_line(rt, &mut scene.tree, rest, text.as_str());
    }
}

fn check_now(rt: &(impl AllocGlobal + Abort), scene: &mut Scene, rest: &str) {
    if rest == "manifest" {
        let text = scene.rows.text(rt);
        check_manifest(rt, &mut scene.tree, text.as_str());
        scene.rows = Rows::none(rt);
    } else {
        check_stands(rt, &mut scene.tree, rest);
    }
}

fn take_away(rt: &(impl AllocGlobal + Abort), tree: &mut MemTree, rest: &str) {
    match rest.strip_suffix('/') {
        Some(folder) => remove_folder(rt.alloc(), tree, folder).expect(rt, rest),
        None => remove_outside(rt.alloc(), tree, rest).expect(rt, rest),
    }
}

fn push_line(rt: &(impl AllocGlobal + Abort), text: &mut String, line: &str) {
    let tabs = line.replace(rt.alloc(), '|', "\t").expect(rt, "memory");
    text.push_str(tabs.as_str()).expect(rt, "memory");
    text.push('\n').expect(rt, "memory");
}

fn push_profile(rt: &(impl AllocGlobal + Abort), scene: &mut Scene, line: &str) {
    scene.profile.push_str(line).expect(rt, "memory");
    scene.profile.push('\n').expect(rt, "memory");
    write_file(
        rt,
        &mut scene.tree,
        "keep/profile.toml",
        scene.profile.as_str(),
    );
}

fn number(rt: &(impl AllocGlobal + Abort), text: &str) -> u32 {
    text.parse::<u32>().expect(rt, text)
}

fn limit(rt: &(impl AllocGlobal + Abort), limits: &mut Limits, rest: &str) {
    let (name, value) = rest.split_once(' ').expect(rt, "a limit");
    match name {
        "mods" => limits.mods = number(rt, value),
        "entries" => limits.entries = number(rt, value),
        _text => limits.text = number(rt, value) as u64,
    }
}

// The words, with a space between each two.
fn words_of<'a>(rt: &(impl AllocGlobal + Abort), line: &'a str) -> Vec<&'a str> {
    if line.is_empty() {
        return Vec::new(rt.alloc());
    }
    line.split(' ').collect(rt.alloc()).expect(rt, "memory")
}

/// The status and the text that the words are answered with.
pub fn said(
    rt: &(impl AllocGlobal + Abort),
    line: &str,
    limits: &Limits,
    tree: &mut MemTree,
    input: &[u8],
) -> (u8, String) {
    let words = words_of(rt, line);
    let bytes = Vec::from_slice(rt.alloc(), input).expect(rt, "memory");
    let mut source = MemSource::new(bytes, 7, Vec::new(rt.alloc()));
    let mut sink = MemSink::new(Vec::new(rt.alloc()));
    let answer = run(
        rt.alloc(),
        words.as_slice(),
        limits,
        tree,
        &mut source,
        &mut sink,
    );
    let printed = str::from_utf8(sink.written()).expect(rt, "a text");
    let printed = printed.to_string(rt.alloc()).expect(rt, "memory");
    (answer.status(), printed)
}

fn all_steps(rt: &(impl AllocGlobal + Abort), tree: &MemTree) -> String {
    steps_of(rt.alloc(), tree).expect(rt, "memory")
}

// What a text has behind another that it begins with.
fn behind(rt: &(impl AllocGlobal + Abort), text: &str, front: &str) -> String {
    let rest = text.strip_prefix(front).expect(rt, "one story");
    rest.to_string(rt.alloc()).expect(rt, "memory")
}

fn command(rt: &(impl AllocGlobal + Abort), scene: &mut Scene, rest: &str) {
    check_printed(rt, scene);
    let (words, status) = rest.split_once("=> ").expect(rt, "a status");
    let words = words.trim();
    let before = all_steps(rt, &scene.tree);
    let input = scene.input.as_bytes();
    let (found, printed) = said(rt, words, &scene.limits, &mut scene.tree, input);
    assert_eq!(rt; found as u32, number(rt, status), "{words}: {printed}");
    let after = all_steps(rt, &scene.tree);
    scene.steps = behind(rt, after.as_str(), before.as_str());
    scene.words = words.to_string(rt.alloc()).expect(rt, "memory");
    scene.printed = printed;
    scene.wanted = String::new(rt.alloc());
    scene.input = String::new(rt.alloc());
    check_calm(rt, scene, found);
}

// What was printed is what the lines behind the command are.
fn check_printed(rt: &(impl AllocGlobal + Abort), scene: &Scene) {
    let words = scene.words.as_str();
    assert_eq!(rt; scene.printed.as_str(), scene.wanted.as_str(), "{words}");
}

fn only_looks(words: &str) -> bool {
    let (first, _) = words.split_once(' ').unwrap_or((words, ""));
    matches!(
        first,
        "order" | "winners" | "conflicts" | "plan" | "check" | "status"
    )
}

fn is_barriers(step: &str) -> bool {
    matches!(
        step,
        "unlink keep/intent.tmp"
            | "unlink keep/manifest.tmp"
            | "unlink keep/profile.tmp"
            | "sync keep"
    )
}

// Asks of a command what is asked of each; a batch has the steps of its lines.
fn check_calm(rt: &(impl AllocGlobal + Abort), scene: &Scene, status: u8) {
    let words = scene.words.as_str();
    if words != "batch" {
        check_quiet(rt, scene, words, status);
    }
    if status < 2 {
        check_settled(rt, &scene.tree, words);
    }
}

fn check_quiet(rt: &(impl AllocGlobal + Abort), scene: &Scene, words: &str, status: u8) {
    let steps = scene.steps.as_str();
    if only_looks(words) || status == 2 || status == 4 {
        assert_eq!(rt; steps, "", "{words}");
    }
    if status == 3 && words != "recover" {
        assert!(rt;
            steps.lines().all(|step| is_barriers(step)),
            "{words}: {steps}"
        );
    }
}

/// All that lies in the three roots.
pub fn all_shown(rt: &(impl AllocGlobal + Abort), tree: &mut MemTree) -> String {
    let mut text = String::new(rt.alloc());
    for root in ["game", "keep", "stage"] {
        let part = shown(rt.alloc(), tree, root).expect(rt, "a folder");
        text.push_str(part.as_str()).expect(rt, "memory");
    }
    text
}

/// What a crash leaves of a disk.
pub fn crashed(rt: &(impl AllocGlobal + Abort), tree: &MemTree, choices: &[u32]) -> MemTree {
    tree.crash(rt.alloc(), choices).expect(rt, "memory")
}

// Nothing is pending, and each file is firm.
fn check_settled(rt: &(impl AllocGlobal + Abort), tree: &MemTree, words: &str) {
    let mut newest = crashed(rt, tree, &[]);
    let wanted = all_shown(rt, &mut newest);
    for choices in [[0; 64].as_slice(), [0; 63].as_slice()] {
        let mut oldest = crashed(rt, tree, choices);
        let found = all_shown(rt, &mut oldest);
        assert_eq!(rt; found.as_str(), wanted.as_str(), "{words}");
    }
}

// The steps that a line tells.
fn steps_text(rt: &(impl AllocGlobal + Abort), rest: &str) -> String {
    if rest == "none" {
        return String::new(rt.alloc());
    }
    let mut text = rest.replace(rt.alloc(), "; ", "\n").expect(rt, "memory");
    text.push('\n').expect(rt, "memory");
    text
}

fn check_steps(rt: &(impl AllocGlobal + Abort), scene: &Scene, rest: &str) {
    let wanted = steps_text(rt, rest);
    let words = scene.words.as_str();
    assert_eq!(rt; scene.steps.as_str(), wanted.as_str(), "{words}");
}

// How many calls a command may make.
const MOST_CALLS: u64 = 10_000;

fn stop(rt: &(impl AllocGlobal + Abort), scene: &mut Scene, rest: &str) {
    let (words, steps) = rest.split_once(" => ").expect(rt, "steps");
    let done = !steps.ends_with("(not done)");
    let wanted = steps_text(rt, steps);
    for call in 0..MOST_CALLS {
        let mut tree = crashed(rt, &scene.tree, &[]);
        fail_call(rt.alloc(), &mut tree, call, done).expect(rt, "memory");
        let (status, printed) = said(rt, words, &scene.limits, &mut tree, b"");
        assert_eq!(rt; status, 5, "{rest}: {printed}");
        if all_steps(rt, &tree).as_str().ends_with(wanted.as_str()) {
            scene.tree = tree;
            return;
        }
    }
}

fn crash(rt: &(impl AllocGlobal + Abort), scene: &mut Scene, rest: &str) {
    let mut choices = Vec::new(rt.alloc());
    for word in words_of(rt, rest) {
        choices.push(number(rt, word)).expect(rt, "memory");
    }
    scene.tree = crashed(rt, &scene.tree, choices.as_slice());
}
