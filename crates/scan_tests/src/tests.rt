// Scans of mods and digests of files on a disk in memory.
use rel_paths::ModId;
use stage_scan::{Scan, digest_of, scan_mod};
use std::process::Abort;
use test_worlds::{add, fail_call, need_file, place_of, world};
use tree_mem::MemTree;

// How many entries there are, and each file.
fn found_text(rt: &(impl AllocGlobal + Abort), scan: &Scan) -> String {
    let mut text = format!(in rt.alloc(); "{}:", scan.entries).expect(rt, "memory");
    for path in scan.files.as_slice() {
        text.push(' ').expect(rt, "memory");
        text.push_str(path.text()).expect(rt, "memory");
    }
    text
}

// What a scan of the mod `a` answers.
fn scan_text(rt: &(impl AllocGlobal + Abort), tree: &mut MemTree, most: u32) -> String {
    let id = ModId::parse(rt.alloc(), "a").expect(rt, "an id");
    match scan_mod(rt.alloc(), tree, &id, most) {
        Ok(scan) => found_text(rt, &scan),
        Err(e) => format!(in rt.alloc(); "{e:?}").expect(rt, "memory"),
    }
}

fn check_scan(rt: &(impl AllocGlobal + Abort), tree: &mut MemTree, most: u32, wanted: &str) {
    let found = scan_text(rt, tree, most);
    assert_eq!(rt; found.as_str(), wanted, "at most {most}");
}

// A scan of this world answers so.
fn check_world(rt: &(impl AllocGlobal + Abort), lines: &str, most: u32, wanted: &str) {
    let mut tree = world(rt.alloc(), lines).expect(rt, "a world");
    check_scan(rt, &mut tree, most, wanted);
}

const SMALL: &str = "stage/a/b = \"\"
stage/a/a/c = \"\"
stage/a/a.d = \"\"";

#[test]
fn files_come_in_path_order_and_folders_count_too(rt: HostRuntime) {
    for (most, wanted) in [
        (0, "TooMany"),
        (3, "TooMany"),
        (4, "4: a.d a/c b"),
        (5, "4: a.d a/c b"),
    ] {
        check_world(&rt, SMALL, most, wanted);
    }
}

#[test]
fn what_has_no_files_is_scanned(rt: HostRuntime) {
    check_world(&rt, "stage/a/", 0, "0:");
    check_world(&rt, "stage/a/d/e/", 2, "2:");
}

#[test]
fn what_is_no_folder_is_told(rt: HostRuntime) {
    check_world(&rt, "", 9, "NoFolder");
    check_world(&rt, "stage/a = \"\"", 9, "NoFolder");
}

// A mod with a file of this name.
fn check_named(rt: &(impl AllocGlobal + Abort), name: &str, wanted: &str) {
    let lines = format!(in rt.alloc(); "stage/a/{name} = \"\"").expect(rt, "memory");
    check_world(rt, lines.as_str(), 1, wanted);
}

#[test]
fn a_name_of_241_bytes_is_bad(rt: HostRuntime) {
    let long = "n".repeat(rt.alloc(), 240).expect(&rt, "memory");
    let found = format!(in rt.alloc(); "1: {long}").expect(&rt, "memory");
    check_named(&rt, long.as_str(), found.as_str());
    let longer = format!(in rt.alloc(); "{long}n").expect(&rt, "memory");
    let fault = format!(in rt.alloc(); "BadEntry {{ folder: stage/a, name: {longer} }}");
    check_named(&rt, longer.as_str(), fault.expect(&rt, "memory").as_str());
}

#[test]
fn the_65th_name_is_bad(rt: HostRuntime) {
    let folders = "/d".repeat(rt.alloc(), 64).expect(&rt, "memory");
    let folder = format!(in rt.alloc(); "stage/a{folders}").expect(&rt, "memory");
    let mut tree = world(rt.alloc(), folder.as_str()).expect(&rt, "a world");
    check_scan(&rt, &mut tree, 64, "64:");
    let line = format!(in rt.alloc(); "{folder}/x = \"\"").expect(&rt, "memory");
    add(rt.alloc(), &mut tree, line.as_str()).expect(&rt, "a world");
    let fault = format!(in rt.alloc(); "BadEntry {{ folder: {folder}, name: x }}");
    check_scan(&rt, &mut tree, 65, fault.expect(&rt, "memory").as_str());
    check_scan(&rt, &mut tree, 64, "TooMany");
}

const RESERVED: &str = "stage/a/x.vortex_backup/in = \"\"
stage/a/y = \"\"";

#[test]
fn a_reserved_path_is_told(rt: HostRuntime) {
    let backup = "Reserved(stage/a/x.vortex_backup)";
    let manifest = "Reserved(stage/a/vortex.deployment.json)";
    for (lines, wanted) in [
        ("stage/a/x.vortex_backup = \"\"", backup),
        (RESERVED, backup),
        ("stage/a/vortex.deployment.json = \"\"", manifest),
    ] {
        check_world(&rt, lines, 1, wanted);
        check_world(&rt, lines, 0, "TooMany");
    }
}

// The scan makes so many calls, and fails where one of them does.
fn check_calls(rt: &(impl AllocGlobal + Abort), lines: &str, calls: u64, wanted: &str) {
    let mut tree = world(rt.alloc(), lines).expect(rt, "a world");
    for call in 0..calls {
        fail_call(rt.alloc(), &mut tree, call, false).expect(rt, "a plan");
        check_scan(rt, &mut tree, 4, "Failed");
    }
    fail_call(rt.alloc(), &mut tree, calls, false).expect(rt, "a plan");
    check_scan(rt, &mut tree, 4, wanted);
}

// One look at the mod's folder, and one listing of it and of each folder in it that may be entered.
#[test]
fn a_scan_lists_each_folder_once(rt: HostRuntime) {
    check_calls(&rt, SMALL, 3, "4: a.d a/c b");
    check_calls(&rt, RESERVED, 2, "Reserved(stage/a/x.vortex_backup)");
}

// The digest of the file `game/x`, as hex, where the call with this number is planned to fail.
fn digest_text(rt: &(impl AllocGlobal + Abort), tree: &mut MemTree, call: u64) -> String {
    let at = place_of(rt.alloc(), "game/x").expect(rt, "a place");
    match need_file(tree, &at) {
        Ok(()) => {
            fail_call(rt.alloc(), tree, call, false).expect(rt, "a plan");
            match digest_of(tree, &at) {
                Ok(digest) => digest.text(rt.alloc()).expect(rt, "memory"),
                Err(e) => format!(in rt.alloc(); "{e:?}").expect(rt, "memory"),
            }
        }
        Err(error) => panic!(rt; "{error}"),
    }
}

// One call for the size, and one for each piece.
fn check_digest(rt: &(impl AllocGlobal + Abort), text: &str, calls: u64, wanted: &str) {
    let lines = format!(in rt.alloc(); "game/x = \"{text}\"").expect(rt, "memory");
    let mut tree = world(rt.alloc(), lines.as_str()).expect(rt, "a world");
    for call in 0..calls {
        let failed = digest_text(rt, &mut tree, call);
        assert_eq!(rt; failed.as_str(), "Failed", "call {call}");
    }
    let digest = digest_text(rt, &mut tree, calls);
    assert_eq!(rt; digest.as_str(), wanted);
}

#[test]
fn a_digest_is_that_of_all_bytes(rt: HostRuntime) {
    let of_none = "e3b0c44298fc1c149afbf4c8996fb92427ae41e4649b934ca495991b7852b855";
    check_digest(&rt, "", 1, of_none);
    let of_abc = "ba7816bf8f01cfea414140de5dae2223b00361a396177a9cb410ff61f20015ad";
    check_digest(&rt, "abc", 2, of_abc);
    let letters = "a".repeat(rt.alloc(), 65_537).expect(&rt, "memory");
    let of_letters = "008ffc88d3c96a9f307524eb361e47c5222a887fc45fa0c1fb8d429c5c23b430";
    check_digest(&rt, letters.as_str(), 3, of_letters);
}
