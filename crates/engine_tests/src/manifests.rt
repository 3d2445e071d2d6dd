// The manifest, as the rows and folders of a script.
use crate::worlds::{check_text, with_digests, write_file};
use std::process::Abort;
use tree_mem::MemTree;

const MANIFEST: &str = "game/vortex.deployment.json";

/// The texts of the rows and of the folders, with commas between.
#[derive(Drop)]
pub struct Rows {
    files: String,
    folders: String,
}

impl Rows {
    /// Neither rows nor folders.
    pub fn none(rt: &(impl AllocGlobal + Abort)) -> Rows {
        Rows {
            files: String::new(rt.alloc()),
            folders: String::new(rt.alloc()),
        }
    }

    /// Adds what the line of a script is.
    pub fn push(&mut self, rt: &(impl AllocGlobal + Abort), line: &str) {
        match line.strip_suffix('/') {
            Some(folder) => push_folder(rt, &mut self.folders, folder),
            None => push_row(rt, &mut self.files, line),
        }
    }

    /// The bytes of the manifest.
    pub fn text(&self, rt: &(impl AllocGlobal + Abort)) -> String {
        let files = self.files.as_str();
        let folders = self.folders.as_str();
        let text = format!(in rt.alloc();
            "{{\"files\":[{files}],\"folders\":[{folders}],\"version\":2}}"
        );
        text.expect(rt, "memory")
    }
}

fn push_item(rt: &(impl AllocGlobal + Abort), list: &mut String, item: &str) {
    if !list.is_empty() {
        list.push(',').expect(rt, "memory");
    }
    list.push_str(item).expect(rt, "memory");
}

fn push_folder(rt: &(impl AllocGlobal + Abort), folders: &mut String, folder: &str) {
    let item = format!(in rt.alloc(); "\"{folder}\"").expect(rt, "memory");
    push_item(rt, folders, item.as_str());
}

fn push_row(rt: &(impl AllocGlobal + Abort), files: &mut String, line: &str) {
    let (path, rest) = line.split_once(' ').expect(rt, line);
    let (id, rest) = rest.split_once(' ').expect(rt, line);
    let (digest, rest) = rest.split_once(' ').unwrap_or((rest, ""));
    let shadowed = rest.starts_with("shadowed");
    let (_, source) = rest.split_once("from ").unwrap_or(("", path));
    let row = row_text(rt, path, id, digest, shadowed, source);
    push_item(rt, files, row.as_str());
}

fn row_text(
    rt: &(impl AllocGlobal + Abort),
    path: &str,
    id: &str,
    digest: &str,
    shadowed: bool,
    source: &str,
) -> String {
    let digest = with_digests(rt, digest);
    let digest = digest.as_str();
    let front = format!(in rt.alloc();
        "\"digest\":\"{digest}\",\"mod\":\"{id}\",\"path\":\"{path}\""
    );
    let front = front.expect(rt, "memory");
    let row = format!(in rt.alloc(); "{{{front},\"shadowed\":{shadowed},\"source\":\"{source}\"}}");
    row.expect(rt, "memory")
}

/// Others put the manifest with this text.
pub fn add_manifest(rt: &(impl AllocGlobal + Abort), tree: &mut MemTree, text: &str) {
    write_file(rt, tree, MANIFEST, text);
}

/// The manifest that stands has this text.
pub fn check_manifest(rt: &(impl AllocGlobal + Abort), tree: &mut MemTree, text: &str) {
    check_text(rt, tree, MANIFEST, text);
}
