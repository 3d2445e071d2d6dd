// Manifests of one row.
use manifest_json::{Manifest, read_manifest};
use std::process::Abort;

// The manifest of the one row `x.txt` of the mod `b`, in the first version and in the second.
pub const FIRST: &str =
    "{\"files\":[{\"digest\":\"ba7816bf8f01cfea414140de5dae2223b00361a396177a9cb410ff61f20015ad\",\"mod\":\"b\",\"path\":\"x.txt\",\"shadowed\":false}],\"folders\":[],\"version\":1}";

pub const SECOND: &str =
    "{\"files\":[{\"digest\":\"ba7816bf8f01cfea414140de5dae2223b00361a396177a9cb410ff61f20015ad\",\"mod\":\"b\",\"path\":\"x.txt\",\"shadowed\":false,\"source\":\"x.txt\"}],\"folders\":[],\"version\":2}";

pub fn one_row(rt: &(impl AllocGlobal + Abort)) -> Manifest {
    read_manifest(rt.alloc(), SECOND.as_bytes()).expect(rt, "a manifest")
}
