// Deployments of small worlds: what is there, the plan, and the desks before and after it.
use crate::manifests::written_out;
use std::process::Abort;
use test_worlds::{is_same_file, kind_of, shown, world};
use tree_fs::Kind;
use tree_mem::MemTree;

#[derive(Clone, Copy)]
pub struct Deployment {
    // What there is before, as lines of a world.
    pub world: &'static str,
    pub plan: &'static str,
    // The desks as `desk_text` shows them, manifests by their names.
    pub old: &'static str,
    pub new: &'static str,
}

// Two mods have one file, and the later one wins it.
pub const FIRST: Deployment = Deployment {
    world: "stage/a/x.txt = \"A\"
stage/b/x.txt = \"abc\"",
    plan: "set game/x.txt stage/b/x.txt
manifest PLAIN",
    old: "stage/a/
stage/a/x.txt = \"A\"
stage/b/
stage/b/x.txt = \"abc\"
",
    new: "game/vortex.deployment.json = \"PLAIN\"
game/x.txt = \"abc\"
stage/a/
stage/a/x.txt = \"A\"
stage/b/
stage/b/x.txt = \"abc\"
game/x.txt = stage/b/x.txt
",
};

// The same where the game has a file of this name.
pub const COVERING: Deployment = Deployment {
    world: "stage/a/x.txt = \"A\"
stage/b/x.txt = \"abc\"
game/x.txt = \"game\"",
    plan: "save game/x.txt game/x.txt.vortex_backup
set game/x.txt stage/b/x.txt game/x.txt.vortex_backup
manifest COVERING",
    old: "game/x.txt = \"game\"
stage/a/
stage/a/x.txt = \"A\"
stage/b/
stage/b/x.txt = \"abc\"
",
    new: "game/vortex.deployment.json = \"COVERING\"
game/x.txt = \"abc\"
game/x.txt.vortex_backup = \"game\"
stage/a/
stage/a/x.txt = \"A\"
stage/b/
stage/b/x.txt = \"abc\"
game/x.txt = stage/b/x.txt
",
};

// The covered file comes back.
pub const UNCOVERING: Deployment = Deployment {
    world: "stage/b/x.txt = \"abc\"
game/x.txt = stage/b/x.txt
game/x.txt.vortex_backup = \"game\"
game/vortex.deployment.json = \"COVERING\"",
    plan: "set game/x.txt game/x.txt.vortex_backup stage/b/x.txt
clear game/x.txt.vortex_backup",
    old: "game/vortex.deployment.json = \"COVERING\"
game/x.txt = \"abc\"
game/x.txt.vortex_backup = \"game\"
stage/b/
stage/b/x.txt = \"abc\"
game/x.txt = stage/b/x.txt
",
    new: "game/x.txt = \"game\"
stage/b/
stage/b/x.txt = \"abc\"
",
};

// A folder is made for the file of a mod.
pub const MAKING: Deployment = Deployment {
    world: "stage/a/d/x.txt = \"abc\"",
    plan: "folder game/d
set game/d/x.txt stage/a/d/x.txt
manifest IN_FOLDER",
    old: "stage/a/
stage/a/d/
stage/a/d/x.txt = \"abc\"
",
    new: "game/d/
game/d/x.txt = \"abc\"
game/vortex.deployment.json = \"IN_FOLDER\"
stage/a/
stage/a/d/
stage/a/d/x.txt = \"abc\"
game/d/x.txt = stage/a/d/x.txt
",
};

// The mod is no longer enabled: its file and the folder go.
pub const TAKING_OFF: Deployment = Deployment {
    world: "stage/a/d/x.txt = \"abc\"
game/d/x.txt = stage/a/d/x.txt
game/vortex.deployment.json = \"IN_FOLDER\"",
    plan: "set game/d/x.txt - stage/a/d/x.txt
remove game/d
manifest EMPTY",
    old: "game/d/
game/d/x.txt = \"abc\"
game/vortex.deployment.json = \"IN_FOLDER\"
stage/a/
stage/a/d/
stage/a/d/x.txt = \"abc\"
game/d/x.txt = stage/a/d/x.txt
",
    new: "game/vortex.deployment.json = \"EMPTY\"
stage/a/
stage/a/d/
stage/a/d/x.txt = \"abc\"
",
};

// The names that may be of one file.
const PAIRS: [(&str, &str); 2] = [
    ("game/x.txt", "stage/b/x.txt"),
    ("game/d/x.txt", "stage/a/d/x.txt"),
];

pub fn world_before(rt: &(impl AllocGlobal + Abort), deployment: &Deployment) -> MemTree {
    let lines = written_out(rt, deployment.world);
    world(rt.alloc(), lines.as_str()).expect(rt, "a world")
}

// All that a disk has, and which names are of one file.
pub fn desk_text(rt: &(impl AllocGlobal + Abort), tree: &mut MemTree) -> String {
    let mut text = String::new(rt.alloc());
    for root in ["game", "keep", "stage"] {
        let below = shown(rt.alloc(), tree, root).expect(rt, "a folder");
        text.push_str(below.as_str()).expect(rt, "memory");
    }
    for (name, source) in PAIRS {
        if is_one(rt, tree, name, source) {
            let line = format!(in rt.alloc(); "{name} = {source}\n").expect(rt, "memory");
            text.push_str(line.as_str()).expect(rt, "memory");
        }
    }
    text
}

fn is_one(rt: &(impl AllocGlobal + Abort), tree: &mut MemTree, a: &str, b: &str) -> bool {
    is_file(rt, tree, a) && is_file(rt, tree, b) && is_same(rt, tree, a, b)
}

fn is_file(rt: &(impl AllocGlobal + Abort), tree: &mut MemTree, at: &str) -> bool {
    kind_of(rt.alloc(), tree, at).expect(rt, "a look") == Kind::File
}

fn is_same(rt: &(impl AllocGlobal + Abort), tree: &mut MemTree, a: &str, b: &str) -> bool {
    is_same_file(rt.alloc(), tree, a, b).expect(rt, "two files")
}
