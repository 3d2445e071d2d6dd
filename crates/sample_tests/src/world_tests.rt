// The worlds of 7 and of 100.
use profile_toml::{Profile, RuleKind, read_profile};
use sample_world::make;
use std::process::Abort;
use test_worlds::{bytes_of, kind_of, listed};
use tree_fs::Kind;
use tree_mem::MemTree;

fn sample(rt: &(impl AllocGlobal + Abort), number: u64) -> MemTree {
    make(rt.alloc(), number).expect(rt, "a world")
}

// Checks how many entries a folder has, and the first and the last of them.
fn check_listing(
    rt: &(impl AllocGlobal + Abort),
    tree: &mut MemTree,
    folder: &str,
    count: usize,
    first: &str,
    last: &str,
) {
    let entries = listed(rt.alloc(), tree, folder).expect(rt, "a listing");
    assert_eq!(rt; entries.len(), count);
    assert_eq!(rt; entries.first().expect(rt, "an entry").name.text(), first);
    assert_eq!(rt; entries.last().expect(rt, "an entry").name.text(), last);
}

fn check_bytes(rt: &(impl AllocGlobal + Abort), tree: &mut MemTree, file: &str, bytes: &str) {
    let found = bytes_of(rt.alloc(), tree, file).expect(rt, "a file");
    assert!(rt; found.as_slice() == bytes.as_bytes());
}

fn check_absent(rt: &(impl AllocGlobal + Abort), tree: &mut MemTree, place: &str) {
    let kind = kind_of(rt.alloc(), tree, place).expect(rt, "a kind");
    assert!(rt; kind == Kind::Absent);
}

// How many files lie in the folders of a folder.
fn count_files(rt: &(impl AllocGlobal + Abort), tree: &mut MemTree, above: &str) -> usize {
    let mut count: usize = 0;
    let folders = listed(rt.alloc(), tree, above).expect(rt, "a listing");
    for folder in &folders {
        let folder = format!(in rt.alloc(); "{above}/{}", folder.name.text()).expect(rt, "memory");
        let files = listed(rt.alloc(), tree, folder.as_str()).expect(rt, "a listing");
        count = count.saturating_add(files.len());
    }
    count
}

fn count_staged(rt: &(impl AllocGlobal + Abort), tree: &mut MemTree) -> usize {
    let mut count: usize = 0;
    let mods = listed(rt.alloc(), tree, "stage").expect(rt, "a listing");
    for entry in &mods {
        let folder = format!(in rt.alloc(); "stage/{}", entry.name.text()).expect(rt, "memory");
        count = count.saturating_add(count_files(rt, tree, folder.as_str()));
    }
    count
}

fn profile_of(rt: &(impl AllocGlobal + Abort), tree: &mut MemTree) -> Profile {
    let bytes = bytes_of(rt.alloc(), tree, "keep/profile.toml").expect(rt, "a file");
    read_profile(rt.alloc(), &bytes).expect(rt, "a profile")
}

// How many rules the mods have together.
fn count_rules(profile: &Profile) -> usize {
    let mut count: usize = 0;
    for (_, entry) in profile.mods() {
        count = count.saturating_add(entry.rules().len());
    }
    count
}

#[test]
fn mods_share_their_files_by_halves(rt: HostRuntime) {
    let mut tree = sample(&rt, 7);
    check_listing(&rt, &mut tree, "stage", 27, "m000", "m026");
    check_listing(&rt, &mut tree, "stage/m000", 1, "d000", "d000");
    check_listing(
        &rt,
        &mut tree,
        "stage/m000/d000",
        100,
        "f00000.txt",
        "f00099.txt",
    );
    check_listing(&rt, &mut tree, "stage/m001", 2, "d000", "d001");
    check_listing(
        &rt,
        &mut tree,
        "stage/m001/d000",
        50,
        "f00050.txt",
        "f00099.txt",
    );
    check_listing(
        &rt,
        &mut tree,
        "stage/m001/d001",
        50,
        "f00100.txt",
        "f00149.txt",
    );
    check_listing(
        &rt,
        &mut tree,
        "stage/m026/d013",
        100,
        "f01300.txt",
        "f01399.txt",
    );
    check_bytes(&rt, &mut tree, "stage/m000/d000/f00000.txt", "0 0");
    check_bytes(&rt, &mut tree, "stage/m000/d000/f00050.txt", "0 50");
    check_bytes(&rt, &mut tree, "stage/m001/d000/f00050.txt", "1 50");
    check_bytes(&rt, &mut tree, "stage/m026/d013/f01399.txt", "26 1399");
}

#[test]
fn the_game_has_one_file_in_seven_of_every_other_hundred(rt: HostRuntime) {
    let mut tree = sample(&rt, 7);
    check_listing(&rt, &mut tree, "game", 7, "d000", "d012");
    check_listing(&rt, &mut tree, "game/d000", 15, "f00000.txt", "f00098.txt");
    check_listing(&rt, &mut tree, "game/d002", 14, "f00203.txt", "f00294.txt");
    check_listing(&rt, &mut tree, "game/d012", 14, "f01204.txt", "f01295.txt");
    check_bytes(&rt, &mut tree, "game/d000/f00007.txt", "game 7");
    check_bytes(&rt, &mut tree, "game/d012/f01295.txt", "game 1295");
    check_absent(&rt, &mut tree, "game/d000/f00001.txt");
    check_absent(&rt, &mut tree, "game/d001");
    assert_eq!(&rt; count_files(&rt, &mut tree, "game"), 100);
}

#[test]
fn nothing_was_done_yet(rt: HostRuntime) {
    let mut tree = sample(&rt, 7);
    assert!(&rt; tree.ops().is_empty());
    check_listing(&rt, &mut tree, "keep", 1, "profile.toml", "profile.toml");
}

#[test]
fn a_mod_in_ten_has_a_rule_and_one_in_twenty_an_override(rt: HostRuntime) {
    let mut tree = sample(&rt, 7);
    let profile = profile_of(&rt, &mut tree);
    assert_eq!(&rt; profile.mods().len(), 27);
    assert_eq!(&rt; count_rules(&profile), 2);
    let (id, entry) = profile.mods().get_index(17).expect(&rt, "a mod");
    assert_eq!(&rt; id.text(), "m017");
    assert!(&rt; entry.is_enabled());
    let rule = entry.rules().first().expect(&rt, "a rule");
    assert!(&rt; rule.kind() == RuleKind::Before);
    assert_eq!(&rt; rule.refers().text(), "m016");
    assert_eq!(&rt; profile.overrides().len(), 1);
    let (path, entry) = profile.overrides().get_index(0).expect(&rt, "an override");
    assert_eq!(&rt; path.text(), "d003/f00350.txt");
    assert_eq!(&rt; entry.mod_id().text(), "m007");
}

#[test]
fn the_sample_of_100_is_large(rt: HostRuntime) {
    let mut tree = sample(&rt, 100);
    assert_eq!(&rt; count_staged(&rt, &mut tree), 12_000);
    assert_eq!(&rt; count_files(&rt, &mut tree, "game"), 435);
    let profile = profile_of(&rt, &mut tree);
    assert_eq!(&rt; profile.mods().len(), 120);
    assert_eq!(&rt; count_rules(&profile), 11);
    assert_eq!(&rt; profile.overrides().len(), 5);
}
