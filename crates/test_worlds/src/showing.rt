// A world as the text that it is written in.
use crate::error::WorldError;
use crate::looking::{bytes_of, listed};
use std::alloc::Global;
use std::str;
use tree_fs::Kind;
use tree_mem::MemTree;

// How many entries are shown at most.
const MOST_ENTRIES: u32 = 100_000;

/// What lies below a folder, each entry in a line, in the order of their names: a folder with a
/// slash, then what lies in it, and a file with its bytes between quotes. The first 100,000 are
/// shown, and bytes that are no text as `?`.
pub fn shown(alloc: Global, tree: &mut MemTree, folder: &str) -> Result<String, WorldError> {
    let mut text = String::new(alloc);
    let mut waiting = Vec::new(alloc);
    push_entries(alloc, tree, folder, &mut waiting)?;
    for _ in 0..MOST_ENTRIES {
        match waiting.pop() {
            Some(line) => show_line(alloc, tree, line, &mut text, &mut waiting)?,
            None => break,
        }
    }
    Ok(text)
}

// Puts the entries of a folder behind those that wait, the first of them last.
fn push_entries(
    alloc: Global,
    tree: &mut MemTree,
    folder: &str,
    waiting: &mut Vec<String>,
) -> Result<(), WorldError> {
    for entry in listed(alloc, tree, folder)?.iter().rev() {
        let end = if entry.kind == Kind::Folder { "/" } else { "" };
        let line = format!(in alloc; "{folder}/{}{end}", entry.name.text())?;
        waiting.push(line)?;
    }
    Ok(())
}

fn show_line(
    alloc: Global,
    tree: &mut MemTree,
    line: String,
    text: &mut String,
    waiting: &mut Vec<String>,
) -> Result<(), WorldError> {
    text.push_str(line.as_str())?;
    match line.strip_suffix('/') {
        Some(folder) => push_entries(alloc, tree, folder, waiting)?,
        None => show_bytes(alloc, tree, line.as_str(), text)?,
    }
    text.push('\n')?;
    Ok(())
}

fn show_bytes(
    alloc: Global,
    tree: &mut MemTree,
    at: &str,
    text: &mut String,
) -> Result<(), WorldError> {
    let bytes = bytes_of(alloc, tree, at)?;
    let shown = str::from_utf8(&bytes).unwrap_or("?");
    text.push_str(" = \"")?;
    text.push_str(shown)?;
    text.push('"')?;
    Ok(())
}
