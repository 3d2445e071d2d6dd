// A profile that is written.
use crate::looks::need_open;
use profile_write::write_profile;
use rel_paths::Control;
use std::process::Abort;
use test_worlds::{fail_call, shown, steps_of, world};
use tree_fs::TreeError;
use tree_mem::MemTree;

// What a writing answers where this call fails.
fn failing_at(
    rt: &(impl AllocGlobal + Abort),
    tree: &mut MemTree,
    call: u64,
    done: bool,
) -> Result<(), TreeError> {
    need_open(tree, Control::ProfileTemp).expect(rt, "an open temp");
    need_open(tree, Control::Profile).expect(rt, "an open place");
    fail_call(rt.alloc(), tree, call, done).expect(rt, "memory");
    write_profile(tree, b"new")
}

fn check_keep(rt: &(impl AllocGlobal + Abort), tree: &mut MemTree, wanted: &str) {
    let keep = shown(rt.alloc(), tree, "keep").expect(rt, "a folder");
    assert_eq!(rt; keep.as_str(), wanted);
}

fn check_written(rt: &(impl AllocGlobal + Abort), lines: &str, steps: &str) {
    let mut tree = world(rt.alloc(), lines).expect(rt, "a world");
    failing_at(rt, &mut tree, u64::MAX, false).expect(rt, "a profile");
    let made = steps_of(rt.alloc(), &tree).expect(rt, "memory");
    assert_eq!(rt; made.as_str(), steps);
    check_keep(rt, &mut tree, "keep/profile.toml = \"new\"\n");
    let mut stopped = tree.crash(rt.alloc(), &[0, 0]).expect(rt, "memory");
    check_keep(rt, &mut stopped, "keep/profile.toml = \"new\"\n");
}

const WRITTEN: &str = "create keep/profile.tmp
fill keep/profile.tmp
firm keep/profile.tmp
rename keep/profile.tmp keep/profile.toml
sync keep
";

const RENEWED: &str = "unlink keep/profile.tmp
create keep/profile.tmp
fill keep/profile.tmp
firm keep/profile.tmp
rename keep/profile.tmp keep/profile.toml
sync keep
";

#[test]
fn a_profile_comes_to_its_place_by_its_temp(rt: HostRuntime) {
    for (lines, steps) in [
        ("", WRITTEN),
        ("keep/profile.toml = \"old\"", WRITTEN),
        ("keep/profile.tmp = \"left\"", RENEWED),
    ] {
        check_written(&rt, lines, steps);
    }
}

// What a stop picks of the values that the pending places held.
const CHOICES: [&[u32]; 5] = [
    &[],
    &[0],
    &[0, 0, 0, 0, 0, 0, 0, 0],
    &[1, 1, 1, 1, 1, 1, 1, 1],
    &[0, 1, 0, 1, 0, 1, 0],
];

// The profile has the old text or the new one; a temp may be there.
fn check_left(rt: &(impl AllocGlobal + Abort), tree: &MemTree, choices: &[u32]) {
    let mut left = tree.crash(rt.alloc(), choices).expect(rt, "memory");
    let keep = shown(rt.alloc(), &mut left, "keep").expect(rt, "a folder");
    let text = keep.as_str();
    let is_old = text.contains("keep/profile.toml = \"old\"\n");
    assert!(rt;
        is_old || text.contains("keep/profile.toml = \"new\"\n"),
        "{text}"
    );
}

// Whether a writing has a call of this number. Where that fails, its step done or not, the answer
// tells it.
fn check_call(rt: &(impl AllocGlobal + Abort), call: u64, done: bool) -> bool {
    let mut tree = world(rt.alloc(), "keep/profile.toml = \"old\"").expect(rt, "a world");
    let answer = failing_at(rt, &mut tree, call, done);
    for choices in CHOICES {
        check_left(rt, &tree, choices);
    }
    answer == Err(TreeError::Failed)
}

#[test]
fn a_stop_leaves_the_old_profile_or_the_new_one(rt: HostRuntime) {
    for call in 0..5 {
        assert!(&rt; check_call(&rt, call, false), "at {call}");
        assert!(&rt; check_call(&rt, call, true), "at {call}");
    }
    assert!(&rt; !check_call(&rt, 5, false));
}
