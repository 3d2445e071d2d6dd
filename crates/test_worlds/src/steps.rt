// The steps of a story, as texts.
use std::alloc::{AllocError, Global};
use tree_fs::{Op, Place};
use tree_mem::MemTree;

/// The steps since the story began, each in a line: its word, its places and whether it was not
/// done, as `link stage/a/x game/x`, `sync game` or `unlink game/x (not done)`.
pub fn steps_of(alloc: Global, tree: &MemTree) -> Result<String, AllocError> {
    let mut text = String::new(alloc);
    for op in tree.ops() {
        text.push_str(word_of(op))?;
        push_places(alloc, op, &mut text)?;
        if !is_done(op) {
            text.push_str(" (not done)")?;
        }
        text.push('\n')?;
    }
    Ok(text)
}

/// How many of the steps have this word.
pub fn count_steps(tree: &MemTree, word: &str) -> usize {
    tree.ops().iter().filter(|op| word_of(*op) == word).count()
}

fn word_of(op: &Op) -> &'static str {
    match op {
        Op::Link { .. } => "link",
        Op::Unlink { .. } => "unlink",
        Op::Rename { .. } => "rename",
        Op::Create { .. } => "create",
        Op::Fill { .. } => "fill",
        Op::MakeFolder { .. } => "make",
        Op::RemoveFolder { .. } => "remove",
        Op::SyncFolder { .. } => "sync",
        Op::SyncFile { .. } => "firm",
    }
}

fn is_done(op: &Op) -> bool {
    match op {
        Op::Link { done, .. }
        | Op::Unlink { done, .. }
        | Op::Rename { done, .. }
        | Op::Create { done, .. }
        | Op::Fill { done, .. }
        | Op::MakeFolder { done, .. }
        | Op::RemoveFolder { done, .. }
        | Op::SyncFolder { done, .. }
        | Op::SyncFile { done, .. } => *done,
    }
}

fn push_places(alloc: Global, op: &Op, text: &mut String) -> Result<(), AllocError> {
    match op {
        Op::Link { from, to, .. } | Op::Rename { from, to, .. } => {
            push_place(alloc, from, text)?;
            push_place(alloc, to, text)
        }
        Op::Unlink { at, .. }
        | Op::Create { at, .. }
        | Op::Fill { at, .. }
        | Op::MakeFolder { at, .. }
        | Op::RemoveFolder { at, .. }
        | Op::SyncFolder { at, .. }
        | Op::SyncFile { at, .. } => push_place(alloc, at, text),
    }
}

fn push_place(alloc: Global, at: &Place, text: &mut String) -> Result<(), AllocError> {
    let place = at.text(alloc)?;
    text.push(' ')?;
    text.push_str(place.as_str())
}
