// Values that refusals and lists carry.
use rel_paths::{ModId, RelPath, Text};
use std::process::Abort;
use tree_fs::{Name, Place};

pub(super) fn id(rt: &(impl AllocGlobal + Abort), text: &str) -> ModId {
    ModId::parse(rt.alloc(), text).expect(rt, "an id")
}

pub(super) fn ids(rt: &(impl AllocGlobal + Abort), texts: &[&str]) -> Vec<ModId> {
    let mut ids = Vec::new(rt.alloc());
    for text in texts {
        assert!(rt; ids.push(id(rt, *text)).is_ok());
    }
    ids
}

pub(super) fn path(rt: &(impl AllocGlobal + Abort), text: &str) -> RelPath {
    RelPath::parse(rt.alloc(), text).expect(rt, "a path")
}

pub(super) fn place(rt: &(impl AllocGlobal + Abort), text: &str) -> Place {
    Place::parse(rt.alloc(), text).expect(rt, "a place")
}

pub(super) fn name(rt: &(impl AllocGlobal + Abort), text: &str) -> Name {
    Name::parse(rt.alloc(), text).expect(rt, "a name")
}

pub(super) fn text(rt: &(impl AllocGlobal + Abort), text: &str) -> Text {
    Text::new(rt.alloc(), text).expect(rt, "memory")
}
