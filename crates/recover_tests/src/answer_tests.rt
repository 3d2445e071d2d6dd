// What recovery answers, and its steps.
use crate::intents::{BACK, BACK_CLEAR, BLOCKED, FIRST_VERSION, OVER, PUT};
use crate::runs::{Fault, NEVER, answer, desk, executed, recovered};
use std::process::Abort;
use test_worlds::{bytes_of, is_same_file, kind_of, put_outside, steps_of, world};
use tree_fs::Kind;
use tree_mem::MemTree;

// A world with these bytes at the intent place.
fn with_intent(rt: &(impl AllocGlobal + Abort), lines: &str, text: &str) -> MemTree {
    let mut tree = world(rt.alloc(), lines).expect(rt, "a world");
    put_outside(rt.alloc(), &mut tree, "keep/intent.json", text.as_bytes()).expect(rt, "a file");
    tree
}

fn check_answer(rt: &(impl AllocGlobal + Abort), tree: &mut MemTree, wanted: &str) {
    let found = answer(rt, recovered(rt, tree, NEVER));
    assert_eq!(rt; found.as_str(), wanted);
}

fn check_steps(rt: &(impl AllocGlobal + Abort), tree: &MemTree, wanted: &str) {
    let steps = steps_of(rt.alloc(), tree).expect(rt, "memory");
    assert_eq!(rt; steps.as_str(), wanted);
}

#[test]
fn nothing_is_recovered_where_no_intent_stands(rt: HostRuntime) {
    for (lines, steps) in [
        ("game/x = \"g\"", "sync keep\n"),
        (
            "keep/intent.tmp = \"{\"",
            "unlink keep/intent.tmp\nsync keep\n",
        ),
        (
            "keep/profile.tmp = \"\"\nkeep/manifest.tmp = \"{}\"\nkeep/profile.toml = \"p\"",
            "unlink keep/manifest.tmp\nunlink keep/profile.tmp\nsync keep\n",
        ),
    ] {
        let mut tree = world(rt.alloc(), lines).expect(&rt, "a world");
        let mut tree = tree.crash(rt.alloc(), &[]).expect(&rt, "memory");
        check_answer(&rt, &mut tree, "nothing");
        check_steps(&rt, &tree, steps);
    }
}

#[test]
fn bytes_that_are_no_intent_are_told(rt: HostRuntime) {
    for text in ["", "{\"clears\":[", "{}", &PUT[..200], &BACK_CLEAR[1..]] {
        let mut tree = with_intent(&rt, "stage/b/x.txt = \"abc\"", text);
        check_answer(&rt, &mut tree, "the intent can't be read");
        check_steps(&rt, &tree, "sync keep\n");
        let bytes = bytes_of(rt.alloc(), &mut tree, "keep/intent.json").expect(&rt, "a file");
        assert_eq!(&rt; bytes.as_slice(), text.as_bytes());
    }
}

// The intent is carried out, or this is told and it stays.
fn check_intent(rt: &(impl AllocGlobal + Abort), lines: &str, text: &str, wanted: &str) {
    let mut tree = with_intent(rt, lines, text);
    check_answer(rt, &mut tree, wanted);
    let kind = kind_of(rt.alloc(), &mut tree, "keep/intent.json").expect(rt, "a look");
    let is_done = wanted.starts_with("set ");
    assert!(rt; (kind == Kind::Absent) == is_done);
    if is_done {
        check_answer(rt, &mut tree, "nothing");
    }
}

#[test]
fn an_intent_tells_its_counts_or_what_is_in_the_way(rt: HostRuntime) {
    for (lines, text, wanted) in [
        ("stage/b/x.txt = \"abc\"", PUT, "set 1, cleared 0"),
        // a set that is done counts too
        (
            "stage/b/x.txt = \"abc\"\ngame/x.txt = stage/b/x.txt",
            PUT,
            "set 1, cleared 0",
        ),
        ("stage/b/x.txt = \"abc\"", FIRST_VERSION, "set 1, cleared 0"),
        (
            "stage/b/x.txt = \"abc\"\ngame/x.txt = \"game\"",
            OVER,
            "set 1, cleared 0",
        ),
        (
            "stage/b/x.txt = \"abc\"\ngame/x.txt.vortex_backup = \"game\"",
            BACK,
            "set 1, cleared 1",
        ),
        // a clear that is done counts too
        ("game/x.txt = \"game\"", BACK_CLEAR, "set 0, cleared 1"),
        ("", PUT, "stage/b/x.txt is no file"),
        (
            "stage/b/x.txt = \"abc\"\ngame/x.txt",
            PUT,
            "game/x.txt is in the way",
        ),
        ("stage/b/x.txt = \"abc\"", BLOCKED, "game/q is in the way"),
        (
            "game/x.txt.vortex_backup",
            BACK_CLEAR,
            "game/x.txt.vortex_backup is in the way",
        ),
    ] {
        check_intent(&rt, lines, text, wanted);
    }
}

const STAGED: &str = "stage/b/x.txt = \"abc\"";

// A call that fails may have done its step.
#[test]
fn a_link_that_is_made_though_it_failed_stays(rt: HostRuntime) {
    for call in 0..100 {
        let mut tree = world(rt.alloc(), STAGED).expect(&rt, "a world");
        let fault = Fault { call, done: true };
        if executed(&rt, &mut tree, PUT, fault).is_ok() {
            return;
        }
        if kind_of(rt.alloc(), &mut tree, "game/x.txt").expect(&rt, "a look") == Kind::File {
            recovered(&rt, &mut tree, NEVER).expect(&rt, "recovery");
            let same = is_same_file(rt.alloc(), &mut tree, "game/x.txt", "stage/b/x.txt");
            assert!(&rt; same.expect(&rt, "two files"));
        }
    }
}

// The steps of a set form, and those of a clear form.
#[test]
fn the_steps_are_those_that_are_left(rt: HostRuntime) {
    let mut tree = with_intent(
        &rt,
        "stage/b/x.txt = \"abc\"\ngame/x.txt.vortex_backup = \"game\"",
        BACK,
    );
    check_answer(&rt, &mut tree, "set 1, cleared 1");
    check_steps(
        &rt,
        &tree,
        "sync keep
sync keep
link game/x.txt.vortex_backup game/x.txt
sync game
create keep/intent.tmp
fill keep/intent.tmp
firm keep/intent.tmp
rename keep/intent.tmp keep/intent.json
sync keep
sync game
sync keep
unlink game/x.txt.vortex_backup
sync game
unlink keep/intent.json
sync keep
",
    );
    let mut tree = with_intent(&rt, "game/x.txt = \"game\"", BACK_CLEAR);
    check_answer(&rt, &mut tree, "set 0, cleared 1");
    check_steps(
        &rt,
        &tree,
        "sync keep\nsync keep\nsync game\nsync keep\nsync game\nunlink keep/intent.json\nsync keep\n",
    );
}

const BEGUN: &str = "create keep/intent.tmp
fill keep/intent.tmp
firm keep/intent.tmp
rename keep/intent.tmp keep/intent.json
sync keep (not done)
";

// Where the sync behind the intent's rename fails, a stop may leave the intent or not.
#[test]
fn an_intent_that_is_not_synced_stands_or_not(rt: HostRuntime) {
    let mut tree = world(rt.alloc(), STAGED).expect(&rt, "a world");
    let fault = Fault {
        call: 4,
        done: false,
    };
    assert!(&rt; executed(&rt, &mut tree, PUT, fault).is_err());
    check_steps(&rt, &tree, BEGUN);
    let mut left = tree.crash(rt.alloc(), &[]).expect(&rt, "memory");
    check_answer(&rt, &mut left, "set 1, cleared 0");
    let same = is_same_file(rt.alloc(), &mut left, "game/x.txt", "stage/b/x.txt");
    assert!(&rt; same.expect(&rt, "two files"));
    let old = "stage/b/\nstage/b/x.txt = \"abc\"\n";
    let mut left = tree.crash(rt.alloc(), &[0, 0]).expect(&rt, "memory");
    check_answer(&rt, &mut left, "nothing");
    assert_eq!(&rt; desk(&rt, &mut left).as_str(), old);
}
