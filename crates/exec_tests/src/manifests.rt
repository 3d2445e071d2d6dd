// Manifests by short names, so that worlds and plans can be read.
use manifest_json::{Manifest, read_manifest};
use std::process::Abort;

// The digest of "abc".
const DIGEST: &str = "ba7816bf8f01cfea414140de5dae2223b00361a396177a9cb410ff61f20015ad";

// What each name stands for: the file `x.txt` of the mod `b`, the same where it covers a file of
// the game, the file `d/x.txt` of the mod `a`, and no file.
const NAMED: [(&str, &str); 4] = [
    (
        "PLAIN",
        "{\"files\":[{\"digest\":\"DIGEST\",\"mod\":\"b\",\"path\":\"x.txt\",\"shadowed\":false,\"source\":\"x.txt\"}],\"folders\":[],\"version\":2}",
    ),
    (
        "COVERING",
        "{\"files\":[{\"digest\":\"DIGEST\",\"mod\":\"b\",\"path\":\"x.txt\",\"shadowed\":true,\"source\":\"x.txt\"}],\"folders\":[],\"version\":2}",
    ),
    (
        "IN_FOLDER",
        "{\"files\":[{\"digest\":\"DIGEST\",\"mod\":\"a\",\"path\":\"d/x.txt\",\"shadowed\":false,\"source\":\"d/x.txt\"}],\"folders\":[\"d\"],\"version\":2}",
    ),
    ("EMPTY", "{\"files\":[],\"folders\":[],\"version\":2}"),
];

// A text with the bytes of each manifest in the place of its name.
pub fn written_out(rt: &(impl AllocGlobal + Abort), text: &str) -> String {
    let mut out = text.to_string(rt.alloc()).expect(rt, "memory");
    for (name, bytes) in NAMED {
        out = out.replace(rt.alloc(), name, bytes).expect(rt, "memory");
    }
    out.replace(rt.alloc(), "DIGEST", DIGEST)
        .expect(rt, "memory")
}

// The manifest of this name.
pub fn manifest(rt: &(impl AllocGlobal + Abort), name: &str) -> Manifest {
    let text = written_out(rt, name);
    read_manifest(rt.alloc(), text.as_bytes()).expect(rt, "a manifest")
}
