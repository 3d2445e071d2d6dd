// Commands that are stopped at each of their calls, and recoveries that are.
use crate::intents::{ASIDE, BACK, IMPORT, OVER, PUT, TURN};
use crate::runs::{Fault, NEVER, desk, executed, recovered};
use std::process::Abort;
use test_worlds::{is_same_file, world};
use tree_mem::MemTree;

// A world, the intent of a command on it, and all that lies below the roots before the command and
// after it, when two places are names of one file.
#[derive(Clone, Copy)]
struct Case {
    lines: &'static str,
    intent: &'static str,
    old: &'static str,
    new: &'static str,
    one: [&'static str; 2],
}

// The choices by which a disk is left.
const CHOICES: [&[u32]; 5] = [
    &[],
    &[0],
    &[0, 0, 0, 0, 0, 0, 0, 0],
    &[1, 1, 1, 1, 1, 1, 1, 1],
    &[0, 1, 0, 1, 0, 1, 0],
];

// A file of a mod comes to a place where nothing is.
const PUT_CASE: Case = Case {
    lines: "stage/a/x.txt = \"A\"\nstage/b/x.txt = \"abc\"\n",
    intent: PUT,
    old: "stage/a/\nstage/a/x.txt = \"A\"\nstage/b/\nstage/b/x.txt = \"abc\"\n",
    new: "game/vortex.deployment.json = \"{\"files\":[{\"digest\":\"ba7816bf8f01cfea414140de5dae2223b00361a396177a9cb410ff61f20015ad\",\"mod\":\"b\",\"path\":\"x.txt\",\"shadowed\":false,\"source\":\"x.txt\"}],\"folders\":[],\"version\":2}\"\ngame/x.txt = \"abc\"\nstage/a/\nstage/a/x.txt = \"A\"\nstage/b/\nstage/b/x.txt = \"abc\"\n",
    one: ["game/x.txt", "stage/b/x.txt"],
};

// A file of the game is saved, and a file of a mod takes its place.
const OVER_CASE: Case = Case {
    lines: "stage/a/x.txt = \"A\"\nstage/b/x.txt = \"abc\"\ngame/x.txt = \"game\"",
    intent: OVER,
    old: "game/x.txt = \"game\"\nstage/a/\nstage/a/x.txt = \"A\"\nstage/b/\nstage/b/x.txt = \"abc\"\n",
    new: "game/vortex.deployment.json = \"{\"files\":[{\"digest\":\"ba7816bf8f01cfea414140de5dae2223b00361a396177a9cb410ff61f20015ad\",\"mod\":\"b\",\"path\":\"x.txt\",\"shadowed\":true,\"source\":\"x.txt\"}],\"folders\":[],\"version\":2}\"\ngame/x.txt = \"abc\"\ngame/x.txt.vortex_backup = \"game\"\nstage/a/\nstage/a/x.txt = \"A\"\nstage/b/\nstage/b/x.txt = \"abc\"\n",
    one: ["game/x.txt", "stage/b/x.txt"],
};

// The saved file of the game comes back.
const BACK_CASE: Case = Case {
    lines: "stage/a/x.txt = \"A\"\nstage/b/x.txt = \"abc\"\ngame/x.txt = stage/b/x.txt\ngame/x.txt.vortex_backup = \"game\"\ngame/vortex.deployment.json = \"{\"files\":[{\"digest\":\"ba7816bf8f01cfea414140de5dae2223b00361a396177a9cb410ff61f20015ad\",\"mod\":\"b\",\"path\":\"x.txt\",\"shadowed\":true,\"source\":\"x.txt\"}],\"folders\":[],\"version\":2}\"",
    intent: BACK,
    old: "game/vortex.deployment.json = \"{\"files\":[{\"digest\":\"ba7816bf8f01cfea414140de5dae2223b00361a396177a9cb410ff61f20015ad\",\"mod\":\"b\",\"path\":\"x.txt\",\"shadowed\":true,\"source\":\"x.txt\"}],\"folders\":[],\"version\":2}\"\ngame/x.txt = \"abc\"\ngame/x.txt.vortex_backup = \"game\"\nstage/a/\nstage/a/x.txt = \"A\"\nstage/b/\nstage/b/x.txt = \"abc\"\n",
    new: "game/x.txt = \"game\"\nstage/a/\nstage/a/x.txt = \"A\"\nstage/b/\nstage/b/x.txt = \"abc\"\n",
    one: ["game/x.txt", "game/x.txt"],
};

// What others put over the link goes aside.
const ASIDE_CASE: Case = Case {
    lines: "stage/a/x.txt = \"A\"\nstage/b/x.txt = \"abc\"\ngame/x.txt = \"new\"\ngame/x.txt.vortex_backup = \"game\"\ngame/vortex.deployment.json = \"{\"files\":[{\"digest\":\"ba7816bf8f01cfea414140de5dae2223b00361a396177a9cb410ff61f20015ad\",\"mod\":\"b\",\"path\":\"x.txt\",\"shadowed\":true,\"source\":\"x.txt\"}],\"folders\":[],\"version\":2}\"",
    intent: ASIDE,
    old: "game/vortex.deployment.json = \"{\"files\":[{\"digest\":\"ba7816bf8f01cfea414140de5dae2223b00361a396177a9cb410ff61f20015ad\",\"mod\":\"b\",\"path\":\"x.txt\",\"shadowed\":true,\"source\":\"x.txt\"}],\"folders\":[],\"version\":2}\"\ngame/x.txt = \"new\"\ngame/x.txt.vortex_backup = \"game\"\nstage/a/\nstage/a/x.txt = \"A\"\nstage/b/\nstage/b/x.txt = \"abc\"\n",
    new: "game/x.txt = \"game\"\nkeep/aside/\nkeep/aside/1/\nkeep/aside/1/game/\nkeep/aside/1/game/x.txt = \"new\"\nstage/a/\nstage/a/x.txt = \"A\"\nstage/b/\nstage/b/x.txt = \"abc\"\n",
    one: ["game/x.txt", "game/x.txt"],
};

// What others put over the link becomes the file of the mod.
const IMPORT_CASE: Case = Case {
    lines: "stage/a/x.txt = \"A\"\nstage/b/x.txt = \"abc\"\ngame/x.txt = \"new\"\ngame/vortex.deployment.json = \"{\"files\":[{\"digest\":\"ba7816bf8f01cfea414140de5dae2223b00361a396177a9cb410ff61f20015ad\",\"mod\":\"b\",\"path\":\"x.txt\",\"shadowed\":false,\"source\":\"x.txt\"}],\"folders\":[],\"version\":2}\"",
    intent: IMPORT,
    old: "game/vortex.deployment.json = \"{\"files\":[{\"digest\":\"ba7816bf8f01cfea414140de5dae2223b00361a396177a9cb410ff61f20015ad\",\"mod\":\"b\",\"path\":\"x.txt\",\"shadowed\":false,\"source\":\"x.txt\"}],\"folders\":[],\"version\":2}\"\ngame/x.txt = \"new\"\nstage/a/\nstage/a/x.txt = \"A\"\nstage/b/\nstage/b/x.txt = \"abc\"\n",
    new: "game/vortex.deployment.json = \"{\"files\":[{\"digest\":\"ba7816bf8f01cfea414140de5dae2223b00361a396177a9cb410ff61f20015ad\",\"mod\":\"b\",\"path\":\"x.txt\",\"shadowed\":false,\"source\":\"x.txt\"}],\"folders\":[],\"version\":2}\"\ngame/x.txt = \"new\"\nkeep/aside/\nkeep/aside/1/\nkeep/aside/1/stage/\nkeep/aside/1/stage/b/\nkeep/aside/1/stage/b/x.txt = \"abc\"\nstage/a/\nstage/a/x.txt = \"A\"\nstage/b/\nstage/b/x.txt = \"new\"\n",
    one: ["game/x.txt", "stage/b/x.txt"],
};

// A folder is made, and another one is taken off.
const TURN_CASE: Case = Case {
    lines: "stage/a/e/z = \"Z\"\nstage/b/d/y = \"abc\"\ngame/e/z = stage/a/e/z\n",
    intent: TURN,
    old: "game/e/\ngame/e/z = \"Z\"\nstage/a/\nstage/a/e/\nstage/a/e/z = \"Z\"\nstage/b/\nstage/b/d/\nstage/b/d/y = \"abc\"\n",
    new: "game/d/\ngame/d/y = \"abc\"\ngame/vortex.deployment.json = \"{\"files\":[{\"digest\":\"ba7816bf8f01cfea414140de5dae2223b00361a396177a9cb410ff61f20015ad\",\"mod\":\"b\",\"path\":\"d/y\",\"shadowed\":false,\"source\":\"d/y\"}],\"folders\":[\"d\"],\"version\":2}\"\nstage/a/\nstage/a/e/\nstage/a/e/z = \"Z\"\nstage/b/\nstage/b/d/\nstage/b/d/y = \"abc\"\n",
    one: ["game/d/y", "stage/b/d/y"],
};

const CASES: [Case; 6] = [
    PUT_CASE,
    OVER_CASE,
    BACK_CASE,
    ASIDE_CASE,
    IMPORT_CASE,
    TURN_CASE,
];

// Recovery ends in the old desk or in the new one.
fn check_recovers(rt: &(impl AllocGlobal + Abort), tree: &mut MemTree, case: &Case) {
    recovered(rt, tree, NEVER).expect(rt, "recovery");
    let found = desk(rt, tree);
    if found.as_str() != case.old {
        assert_eq!(rt; found.as_str(), case.new);
        let [a, b] = case.one;
        assert!(rt; is_same_file(rt.alloc(), tree, a, b).expect(rt, "two files"));
    }
}

// So it does for each disk that a stop may leave.
fn check_left(rt: &(impl AllocGlobal + Abort), tree: &MemTree, case: &Case) {
    for choices in CHOICES {
        let mut left = tree.crash(rt.alloc(), choices).expect(rt, "memory");
        check_recovers(rt, &mut left, case);
    }
}

// The world after its command, which stops at this call, and whether there was no such call.
fn stopped(rt: &(impl AllocGlobal + Abort), case: &Case, fault: Fault) -> (MemTree, bool) {
    let mut tree = world(rt.alloc(), case.lines).expect(rt, "a world");
    let over = executed(rt, &mut tree, case.intent, fault).is_ok();
    (tree, over)
}

// The command is stopped at each of its calls.
fn check_stops(rt: &(impl AllocGlobal + Abort), case: &Case, done: bool) {
    for call in 0..200 {
        let (mut tree, over) = stopped(rt, case, Fault { call, done });
        check_left(rt, &tree, case);
        if over {
            return;
        }
        check_recovers(rt, &mut tree, case);
    }
    panic!(rt; "the command has no end")
}

#[test]
fn a_stopped_command_ends_in_the_old_desk_or_in_the_new_one(rt: HostRuntime) {
    for case in CASES {
        check_stops(&rt, &case, false);
        check_stops(&rt, &case, true);
    }
}

// Recovery of a stopped command is stopped at each of its calls, and run again.
fn check_recoveries(rt: &(impl AllocGlobal + Abort), tree: &MemTree, case: &Case) {
    for call in 0..200 {
        let mut left = tree.crash(rt.alloc(), CHOICES[2]).expect(rt, "memory");
        let over = recovered(rt, &mut left, Fault { call, done: false }).is_ok();
        let mut again = left.crash(rt.alloc(), CHOICES[2]).expect(rt, "memory");
        check_recovers(rt, &mut again, case);
        if over {
            return;
        }
    }
    panic!(rt; "recovery has no end")
}

// A call that only looks leaves what the call before it left.
#[test]
fn a_stopped_recovery_may_be_run_again(rt: HostRuntime) {
    let mut steps = 0;
    for call in 0..200 {
        let fault = Fault { call, done: false };
        let (tree, over) = stopped(&rt, &OVER_CASE, fault);
        if over {
            return;
        }
        if tree.ops().len() > steps {
            steps = tree.ops().len();
            check_recoveries(&rt, &tree, &OVER_CASE);
        }
    }
    panic!(&rt; "the command has no end")
}
