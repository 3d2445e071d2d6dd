// What a line of a script does to a world, and what it says of it.
use std::process::Abort;
use std::str;
use test_worlds::{add, bytes_of, edit_outside, is_same_file, kind_of, listed, put_outside};
use tree_fs::Kind;
use tree_mem::MemTree;

// The digest of "abc".
const OF_ABC: &str = "ba7816bf8f01cfea414140de5dae2223b00361a396177a9cb410ff61f20015ad";

// The digest of no bytes.
const OF_NONE: &str = "e3b0c44298fc1c149afbf4c8996fb92427ae41e4649b934ca495991b7852b855";

fn replaced(rt: &(impl AllocGlobal + Abort), text: &str, from: &str, to: &str) -> String {
    text.replace(rt.alloc(), from, to).expect(rt, "memory")
}

// That of "A".
const OF_A: &str = "559aead08264d5795d3909718cdd05abd49572e84fe55590eef31a88a08fdffd";

/// The text with the three digests in place of `H0`, `H1` and `H2`.
pub fn with_digests(rt: &(impl AllocGlobal + Abort), text: &str) -> String {
    let none = replaced(rt, text, "H0", OF_NONE);
    let one = replaced(rt, none.as_str(), "H1", OF_ABC);
    replaced(rt, one.as_str(), "H2", OF_A)
}

// The first keys of a row.
const FIRST_KEYS: &str = r#""digest":"H1","mod":"b","shadowed":false"#;

// The bytes that a text in a script is.
fn bytes_text(rt: &(impl AllocGlobal + Abort), text: &str) -> String {
    let lines = replaced(rt, text, "|", "\n");
    let rows = replaced(rt, lines.as_str(), "ROW", FIRST_KEYS);
    with_digests(rt, rows.as_str())
}

fn quoted(value: &str) -> Option<&str> {
    value.strip_prefix('"')?.strip_suffix('"')
}

/// Others add what the line is; the manifest is that of the script's rows.
pub fn add_line(rt: &(impl AllocGlobal + Abort), tree: &mut MemTree, line: &str, manifest: &str) {
    let (at, value) = line.split_once(" = ").unwrap_or((line, ""));
    match quoted(value) {
        Some(text) => add_file(
            rt,
            tree,
            at,
            replaced(rt, text, "MANIFEST", manifest).as_str(),
        ),
        None => add(rt.alloc(), tree, line).expect(rt, line),
    }
}

fn add_file(rt: &(impl AllocGlobal + Abort), tree: &mut MemTree, at: &str, text: &str) {
    let (above, _) = at.rsplit_once('/').expect(rt, at);
    add(rt.alloc(), tree, above).expect(rt, at);
    let bytes = bytes_text(rt, text);
    put_outside(rt.alloc(), tree, at, bytes.as_bytes()).expect(rt, at);
}

/// Others give a file other bytes.
pub fn edit_line(rt: &(impl AllocGlobal + Abort), tree: &mut MemTree, line: &str) {
    let (at, value) = line.split_once(" = ").expect(rt, line);
    let bytes = bytes_text(rt, quoted(value).expect(rt, line));
    edit_outside(rt.alloc(), tree, at, bytes.as_bytes()).expect(rt, line);
}

/// Others write this file, in place of its bytes where it is there.
pub fn write_file(rt: &(impl AllocGlobal + Abort), tree: &mut MemTree, at: &str, text: &str) {
    let kind = kind_of(rt.alloc(), tree, at).expect(rt, at);
    match kind {
        Kind::File => edit_outside(rt.alloc(), tree, at, text.as_bytes()).expect(rt, at),
        _ => put_outside(rt.alloc(), tree, at, text.as_bytes()).expect(rt, at),
    }
}

/// The file has these bytes.
pub fn check_text(rt: &(impl AllocGlobal + Abort), tree: &mut MemTree, at: &str, wanted: &str) {
    let found = bytes_of(rt.alloc(), tree, at).expect(rt, at);
    let found = str::from_utf8(&found).expect(rt, "a text");
    assert_eq!(rt; found, wanted, "{at}");
}

/// What the line says of a place holds.
pub fn check_stands(rt: &(impl AllocGlobal + Abort), tree: &mut MemTree, line: &str) {
    match line.split_once(" = ") {
        Some((at, value)) => check_value(rt, tree, at, value),
        None => check_absent(rt, tree, line),
    }
}

fn check_absent(rt: &(impl AllocGlobal + Abort), tree: &mut MemTree, line: &str) {
    let at = line.strip_suffix(" -").expect(rt, line);
    let kind = kind_of(rt.alloc(), tree, at).expect(rt, line);
    assert!(rt; kind == Kind::Absent, "{at} is there");
}

fn check_value(rt: &(impl AllocGlobal + Abort), tree: &mut MemTree, at: &str, value: &str) {
    match (at.strip_suffix('/'), quoted(value)) {
        (Some(folder), _) => check_names(rt, tree, folder, value),
        (None, Some(text)) => check_bytes(rt, tree, at, text),
        (None, None) => check_one_file(rt, tree, at, value),
    }
}

fn check_bytes(rt: &(impl AllocGlobal + Abort), tree: &mut MemTree, at: &str, text: &str) {
    let wanted = bytes_text(rt, text);
    check_text(rt, tree, at, wanted.as_str());
}

fn check_one_file(rt: &(impl AllocGlobal + Abort), tree: &mut MemTree, at: &str, other: &str) {
    let is_one = is_same_file(rt.alloc(), tree, at, other).expect(rt, at);
    assert!(rt; is_one, "{at} isn't the file {other}");
}

// The folder's entries have these names, with a space between each two; `nothing` is no entry.
fn check_names(rt: &(impl AllocGlobal + Abort), tree: &mut MemTree, folder: &str, names: &str) {
    let mut found = String::new(rt.alloc());
    for entry in listed(rt.alloc(), tree, folder).expect(rt, folder) {
        if !found.is_empty() {
            found.push(' ').expect(rt, "memory");
        }
        found.push_str(entry.name.text()).expect(rt, "memory");
    }
    let wanted = if names == "nothing" { "" } else { names };
    assert_eq!(rt; found.as_str(), wanted, "{folder}");
}
