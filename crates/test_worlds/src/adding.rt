// Worlds that are written as texts.
use crate::error::WorldError;
use crate::looking::kind_of;
use crate::needs::{need_file, need_free};
use crate::places::place_of;
use std::alloc::Global;
use tree_fs::Kind;
use tree_mem::MemTree;

/// The world that these lines are.
pub fn world(alloc: Global, lines: &str) -> Result<MemTree, WorldError> {
    let mut tree = MemTree::new(alloc)?;
    add(alloc, &mut tree, lines)?;
    Ok(tree)
}

/// Adds to a world what these lines are. A new story begins. After an error a first part of them
/// may be there.
pub fn add(alloc: Global, tree: &mut MemTree, lines: &str) -> Result<(), WorldError> {
    for line in lines.lines() {
        add_line(alloc, tree, line.trim())?;
    }
    Ok(())
}

fn add_line(alloc: Global, tree: &mut MemTree, line: &str) -> Result<(), WorldError> {
    match line.split_once(" = ") {
        Some((at, value)) => add_value(alloc, tree, at, value),
        None => add_each_folder(alloc, tree, line),
    }
}

// A file with the bytes between the quotes, or one more name of a file.
fn add_value(alloc: Global, tree: &mut MemTree, at: &str, value: &str) -> Result<(), WorldError> {
    if let Some((above, _)) = at.rsplit_once('/') {
        add_folders(alloc, tree, above)?;
    }
    match quoted(value) {
        Some(text) => add_file(alloc, tree, at, text.as_bytes()),
        None => add_name(alloc, tree, value, at),
    }
}

fn quoted(value: &str) -> Option<&str> {
    value.strip_prefix('"')?.strip_suffix('"')
}

// The folder and those above it, where they are missing.
fn add_folders(alloc: Global, tree: &mut MemTree, text: &str) -> Result<(), WorldError> {
    if kind_of(alloc, tree, text)? != Kind::Folder {
        add_each_folder(alloc, tree, text)?;
    }
    Ok(())
}

fn add_each_folder(alloc: Global, tree: &mut MemTree, text: &str) -> Result<(), WorldError> {
    let mut folder = String::new(alloc);
    for name in text.split('/').filter(|name| !name.is_empty()) {
        if !folder.is_empty() {
            folder.push('/')?;
        }
        folder.push_str(name)?;
        add_folder(alloc, tree, folder.as_str())?;
    }
    Ok(())
}

fn add_folder(alloc: Global, tree: &mut MemTree, at: &str) -> Result<(), WorldError> {
    if kind_of(alloc, tree, at)? != Kind::Folder {
        let at = place_of(alloc, at)?;
        need_free(alloc, tree, &at)?;
        tree.add_folder(alloc, &at)?;
    }
    Ok(())
}

fn add_file(alloc: Global, tree: &mut MemTree, at: &str, bytes: &[u8]) -> Result<(), WorldError> {
    let at = place_of(alloc, at)?;
    need_free(alloc, tree, &at)?;
    tree.add_file(alloc, &at, bytes)?;
    Ok(())
}

fn add_name(alloc: Global, tree: &mut MemTree, from: &str, to: &str) -> Result<(), WorldError> {
    let from = place_of(alloc, from)?;
    let to = place_of(alloc, to)?;
    need_file(tree, &from)?;
    need_free(alloc, tree, &to)?;
    tree.link_file(alloc, &from, &to)?;
    Ok(())
}
