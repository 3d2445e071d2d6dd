// Texts of manifests and digests, and what other texts are refused for.
use json::Writer;
use manifest_json::{
    FileDigest, FormatVersion, Manifest, ManifestError, manifest_text, read_manifest,
    write_manifest,
};
use std::process::Abort;

const OF_ABC: [u8; 32] = [
    0xba, 0x78, 0x16, 0xbf, 0x8f, 0x01, 0xcf, 0xea, 0x41, 0x41, 0x40, 0xde, 0x5d, 0xae, 0x22, 0x23,
    0xb0, 0x03, 0x61, 0xa3, 0x96, 0x17, 0x7a, 0x9c, 0xb4, 0x10, 0xff, 0x61, 0xf2, 0x00, 0x15, 0xad,
];

const OF_NO_BYTES: [u8; 32] = [
    0xe3, 0xb0, 0xc4, 0x42, 0x98, 0xfc, 0x1c, 0x14, 0x9a, 0xfb, 0xf4, 0xc8, 0x99, 0x6f, 0xb9, 0x24,
    0x27, 0xae, 0x41, 0xe4, 0x64, 0x9b, 0x93, 0x4c, 0xa4, 0x95, 0x99, 0x1b, 0x78, 0x52, 0xb8, 0x55,
];

const DIGEST: &str = "ba7816bf8f01cfea414140de5dae2223b00361a396177a9cb410ff61f20015ad";

// The manifest of one row, in the first version and in the second.
const FIRST: &str =
    "{\"files\":[{\"digest\":\"ba7816bf8f01cfea414140de5dae2223b00361a396177a9cb410ff61f20015ad\",\"mod\":\"b\",\"path\":\"x.txt\",\"shadowed\":false}],\"folders\":[],\"version\":1}";

const SECOND: &str =
    "{\"files\":[{\"digest\":\"ba7816bf8f01cfea414140de5dae2223b00361a396177a9cb410ff61f20015ad\",\"mod\":\"b\",\"path\":\"x.txt\",\"shadowed\":false,\"source\":\"x.txt\"}],\"folders\":[],\"version\":2}";

const NO_ROWS: &str = "{\"files\":[],\"folders\":[],\"version\":2}";

#[test]
fn a_digest_is_printed_in_hex(rt: HostRuntime) {
    for (bytes, wanted) in [
        (OF_ABC, DIGEST),
        (
            OF_NO_BYTES,
            "e3b0c44298fc1c149afbf4c8996fb92427ae41e4649b934ca495991b7852b855",
        ),
    ] {
        let text = FileDigest { bytes }.text(rt.alloc()).expect(&rt, "memory");
        assert_eq!(&rt; text.as_str(), wanted);
        assert!(&rt; FileDigest::parse(wanted) == Some(FileDigest { bytes }));
    }
}

fn read(rt: &(impl AllocGlobal + Abort), text: &str) -> Manifest {
    read_manifest(rt.alloc(), text.as_bytes()).expect(rt, "a manifest")
}

// Whether the manifest that a text is read as is printed as the other text.
fn is_read_as(rt: &(impl AllocGlobal + Abort), text: &str, wanted: &str) -> bool {
    let printed = manifest_text(rt.alloc(), &read(rt, text)).expect(rt, "memory");
    printed.as_slice() == wanted.as_bytes()
}

fn fault(rt: &(impl AllocGlobal + Abort), text: &str) -> Option<ManifestError> {
    read_manifest(rt.alloc(), text.as_bytes()).err()
}

#[test]
fn one_row_has_173_bytes_and_156_in_the_first_version(rt: HostRuntime) {
    assert_eq!(&rt; SECOND.len(), 173);
    assert_eq!(&rt; FIRST.len(), 156);
    assert!(&rt; is_read_as(&rt, SECOND, SECOND));
    assert!(&rt; is_read_as(&rt, FIRST, SECOND));
    let mut writer = Writer::new(Vec::new(rt.alloc()));
    write_manifest(
        rt.alloc(),
        &mut writer,
        FormatVersion::One,
        &read(&rt, SECOND),
    )
    .expect(&rt, "memory");
    assert!(&rt; writer.into_inner().as_slice() == FIRST.as_bytes());
}

#[test]
fn unknown_keys_are_ignored(rt: HostRuntime) {
    let text = "{\"version\":1,\"files\":[],\"folders\":[],\"more\":7}";
    assert!(&rt; is_read_as(&rt, text, NO_ROWS));
    let printed = manifest_text(rt.alloc(), &Manifest::empty(rt.alloc())).expect(&rt, "memory");
    assert!(&rt; printed.as_slice() == NO_ROWS.as_bytes());
}

#[test]
fn each_front_of_a_manifest_is_no_json(rt: HostRuntime) {
    for length in 0..SECOND.len() {
        let front = &SECOND.as_bytes()[..length];
        let fault = read_manifest(rt.alloc(), front).err();
        assert_eq!(&rt; fault, Some(ManifestError::NotJson), "at {length}");
    }
}

// The text of a manifest with files of these mods at these paths, from these sources.
fn with_files(rt: &(impl AllocGlobal + Abort), files: &[(&str, &str, &str)]) -> String {
    let alloc = rt.alloc();
    let mut text = "{\"files\":[".to_string(alloc).expect(rt, "memory");
    for (i, (id, path, source)) in files.iter().enumerate() {
        let comma = if i > 0 { "," } else { "" };
        let row = format!(in alloc;
            "{comma}{{\"digest\":\"{DIGEST}\",\"mod\":\"{id}\",\"path\":\"{path}\",\"shadowed\":true,\"source\":\"{source}\"}}"
        );
        text.push_str(row.expect(rt, "memory").as_str())
            .expect(rt, "memory");
    }
    text.push_str("],\"folders\":[\"d\",\"d-e\",\"d/e\"],\"version\":2}")
        .expect(rt, "memory");
    text
}

// The fault of a manifest with files of one mod at these paths, each from a source of its own.
fn fault_of_paths(rt: &(impl AllocGlobal + Abort), paths: &[&str]) -> Option<ManifestError> {
    let mut files = Vec::new(rt.alloc());
    for (path, source) in paths.iter().zip(["f0", "f1", "f2", "f3", "f4", "f5", "f6"]) {
        files.push(("b", *path, source)).expect(rt, "memory");
    }
    fault(rt, with_files(rt, &files).as_str())
}

#[test]
fn a_file_below_an_earlier_one_is_refused(rt: HostRuntime) {
    let nested = |i| Some(ManifestError::Nested(manifest_json::Spot::File(i)));
    for (paths, wanted) in [
        (["p", "p/q"].as_slice(), nested(1)),
        (["p", "p-q", "p/q"].as_slice(), nested(2)),
        (["a", "a-", "a-/x", "a/b"].as_slice(), nested(2)),
        (["a", "a!", "a!b", "a!b/c/d", "b"].as_slice(), nested(3)),
        (
            ["a", "a", "a/b"].as_slice(),
            Some(ManifestError::Order(manifest_json::Spot::File(1))),
        ),
        (
            ["a-b", "a.x", "a/b", "a/b.c", "a/c", "ab", "ab.c/d"].as_slice(),
            None,
        ),
    ] {
        assert_eq!(&rt; fault_of_paths(&rt, paths), wanted);
    }
}

#[test]
fn sources_of_one_mod_lie_apart(rt: HostRuntime) {
    let met = |i| Some(ManifestError::Source(manifest_json::Spot::File(i)));
    for (files, wanted) in [
        ([("a", "p", "s"), ("a", "q", "s")].as_slice(), met(1)),
        ([("a", "p", "s"), ("b", "q", "s")].as_slice(), None),
        ([("a", "p", "s/t"), ("a", "q", "s")].as_slice(), met(1)),
        ([("a", "p", "s"), ("a", "q", "s/t/u")].as_slice(), met(1)),
        (
            [("a", "p", "s-t"), ("a", "q", "s"), ("a", "r", "s.t")].as_slice(),
            None,
        ),
        (
            [
                ("a", "p", "t/u"),
                ("b", "q", "t"),
                ("a", "r", "s"),
                ("a", "s", "t"),
            ]
            .as_slice(),
            met(3),
        ),
    ] {
        assert_eq!(&rt; fault(&rt, with_files(&rt, files).as_str()), wanted);
    }
}

#[test]
fn the_first_fault_is_told(rt: HostRuntime) {
    for (text, wanted) in [
        ("[]", "Shape(Top)"),
        ("{}", "Version"),
        ("{\"version\":1.0,\"files\":[],\"folders\":[]}", "Version"),
        ("{\"version\":3,\"files\":[],\"folders\":[]}", "Version"),
        (
            "{\"version\":1,\"version\":3,\"files\":[],\"folders\":[]}",
            "Version",
        ),
        ("{\"version\":2,\"files\":[]}", "Shape(Top)"),
        (
            "{\"version\":2,\"files\":[7],\"folders\":[]}",
            "Shape(File(0))",
        ),
        (
            "{\"version\":2,\"files\":[],\"folders\":[\"a\",7]}",
            "Shape(Folder(1))",
        ),
        (
            "{\"version\":2,\"files\":[],\"folders\":[\"b\",\"a\"]}",
            "Order(Folder(1))",
        ),
        (
            "{\"version\":2,\"files\":[],\"folders\":[\"a/..\"]}",
            "BadPath(Folder(0))",
        ),
        (
            "{\"version\":2,\"files\":[],\"folders\":[\"x.vortex_backup\"]}",
            "BadPath(Folder(0))",
        ),
    ] {
        let told = format!(in rt.alloc(); "{:?}", fault(&rt, text)).expect(&rt, "memory");
        let wanted = format!(in rt.alloc(); "Some({wanted})").expect(&rt, "memory");
        assert_eq!(&rt; told.as_str(), wanted.as_str(), "at {text}");
    }
}

#[test]
fn a_copy_is_the_same(rt: HostRuntime) {
    let manifest = read(&rt, SECOND);
    let copy = manifest.copy(rt.alloc()).expect(&rt, "memory");
    assert!(&rt; copy.is_same(&manifest));
    assert!(&rt; !copy.is_same(&Manifest::empty(rt.alloc())));
    for row in copy.rows.as_slice() {
        let changed = row
            .with_digest(FileDigest { bytes: OF_NO_BYTES })
            .expect(&rt, "memory");
        assert!(&rt; changed.digest.bytes == OF_NO_BYTES);
        assert_eq!(&rt; changed.source().expect(&rt, "memory").text(), "x.txt");
    }
}
