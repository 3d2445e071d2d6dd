// Worlds and steps as texts. A test works in a folder of its own below the current one. Where
// something goes wrong, `stop` ends it.
//
// A step is a line: a call of the tree with one or two places, its answer, and the calls of the
// system that it makes, as in `kind game/x | Absent | lstat ./game/x`.
use crate::HostTree;
use std::alloc::Global;
use std::fmt::Debug;
use std::os::unix::fs::symlink;
use std::process::Abort;
use std::rt::Files;
use std::{env, fs};
use tree_fs::{Entry, Place, Tree, TreeError};

/// Enters a new folder with these entries, one a line. A path that ends in a slash is a folder; what
/// follows `->` is the target of a link, and what follows `=` are the bytes of a file.
pub(super) fn enter(rt: HostRuntime, stop: &impl Abort, folder: &str, entries: &str) {
    let _ = fs::remove_dir_all(&rt, folder);
    fs::create_dir(&rt, folder).expect(stop, "a folder");
    env::set_current_dir(&rt, folder).expect(stop, "a folder");
    for entry in entries.trim().lines() {
        add(rt, stop, entry.trim());
    }
}

fn add(rt: HostRuntime, stop: &impl Abort, entry: &str) {
    let added = match (entry.split_once(" -> "), entry.split_once(" = ")) {
        (Some((path, target)), _) => symlink(&rt, target, path),
        (None, Some((path, bytes))) => fs::write(&rt, path, bytes),
        (None, None) => fs::create_dir(&rt, entry.trim_end_matches('/')),
    };
    added.expect(stop, "an entry");
}

pub(super) fn leave(rt: HostRuntime, stop: &impl Abort, folder: &str) {
    env::set_current_dir(&rt, "..").expect(stop, "the folder above");
    fs::remove_dir_all(&rt, folder).expect(stop, "a folder");
}

pub(super) fn place(alloc: Global, stop: &impl Abort, text: &str) -> Place {
    Place::parse(alloc, text).expect(stop, "a place")
}

fn shown<T: Debug + Drop>(
    alloc: Global,
    stop: &impl Abort,
    answer: Result<T, TreeError>,
) -> String {
    let text = match answer {
        Ok(value) => format!(in alloc; "{value:?}"),
        Err(error) => format!(in alloc; "{error:?}"),
    };
    text.expect(stop, "memory")
}

// The names and kinds of a listing.
fn listing(alloc: Global, stop: &impl Abort, answer: Result<Vec<Entry>, TreeError>) -> String {
    let mut text = String::new(alloc);
    match answer {
        Ok(entries) => {
            for entry in &entries {
                let comma = if text.is_empty() { "" } else { ", " };
                write!(text, "{comma}{} {:?}", entry.name.text(), entry.kind).expect(
                    stop, "memory",
                );
            }
        }
        Err(error) => write!(text, "{error:?}").expect(stop, "memory"),
    }
    text
}

/// What the tree answers to a call, as text.
pub(super) fn answer<R: Files + Clone + Drop>(
    alloc: Global,
    stop: &impl Abort,
    tree: &mut HostTree<R>,
    step: &str,
) -> String {
    let mut words = step.split(' ');
    let call = words.next().unwrap_or("");
    let at = place(alloc, stop, words.next().unwrap_or("keep"));
    let to = place(alloc, stop, words.next().unwrap_or("keep"));
    match call {
        "kind" => shown(alloc, stop, tree.kind(&at)),
        "size" => shown(alloc, stop, tree.size(&at)),
        "read" => shown(alloc, stop, tree.read_part(&at, 0, 9)),
        "list" => listing(alloc, stop, tree.list(&at)),
        "same" => shown(alloc, stop, tree.same(&at, &to)),
        _ => shown(alloc, stop, change(tree, call, &at, &to)),
    }
}

fn change<R: Files + Clone + Drop>(
    tree: &mut HostTree<R>,
    call: &str,
    at: &Place,
    to: &Place,
) -> Result<(), TreeError> {
    match call {
        "link" => tree.link(at, to),
        "unlink" => tree.unlink(at),
        "rename" => tree.rename(at, to),
        "put_new" => tree.put_new(at, b"new"),
        "make_folder" => tree.make_folder(at),
        "remove_folder" => tree.remove_folder(at),
        "sync_folder" => tree.sync_folder(at),
        "sync_file" => tree.sync_file(at),
        _ => {
            tree.forget();
            Ok(())
        }
    }
}

/// The parts of a line: the call, its answer, and the calls of the system.
pub(super) fn parts(line: &str) -> (&str, &str, &str) {
    let mut parts = line.split('|');
    let call = parts.next().unwrap_or("").trim();
    let said = parts.next().unwrap_or("").trim();
    let asked = parts.next().unwrap_or("").trim();
    (call, said, asked)
}

/// Makes the calls, one a line, and compares their answers.
pub(super) fn run<R: Files + Clone + Drop>(
    alloc: Global,
    stop: &impl Abort,
    tree: &mut HostTree<R>,
    steps: &str,
) {
    for line in steps.trim().lines() {
        let (call, wanted, _) = parts(line);
        let said = answer(alloc, stop, tree, call);
        assert_eq!(stop; said.as_str(), wanted, "{call}");
    }
}
