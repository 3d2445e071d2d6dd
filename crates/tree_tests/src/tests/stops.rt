// What stops leave, by choices.
use std::process::Abort;
use test_worlds::{link, make_folder, put_new, shown, sync_folder, unlink, world};
use tree_mem::MemTree;

// Pending are `game/a`, `game/c`, `game/d` with three values, `stage/gone`, which is unlinked, and
// `game/f`, now a folder. The files `game/c` and `keep/n` aren't firm.
fn unsettled_world(rt: &(impl AllocGlobal + Abort)) -> MemTree {
    let lines = "stage/one = \"one\"
        stage/two = \"two\"
        stage/gone = \"gone\"
        game/d = \"old\"
        game/f = \"file\"";
    let mut tree = world(rt.alloc(), lines).expect(rt, "a world");
    put_new(rt.alloc(), &mut tree, "keep/n", b"note").expect(rt, "a step");
    sync_folder(rt.alloc(), &mut tree, "keep").expect(rt, "a step");
    unlink(rt.alloc(), &mut tree, "stage/gone").expect(rt, "a step");
    unlink(rt.alloc(), &mut tree, "game/f").expect(rt, "a step");
    make_folder(rt.alloc(), &mut tree, "game/f").expect(rt, "a step");
    unlink(rt.alloc(), &mut tree, "game/d").expect(rt, "a step");
    link(rt.alloc(), &mut tree, "stage/two", "game/d").expect(rt, "a step");
    put_new(rt.alloc(), &mut tree, "game/c", b"new").expect(rt, "a step");
    link(rt.alloc(), &mut tree, "stage/one", "game/a").expect(rt, "a step");
    tree
}

fn check_left(rt: &(impl AllocGlobal + Abort), tree: &MemTree, choices: &[u32], wanted: &str) {
    let mut left = tree.crash(rt.alloc(), choices).expect(rt, "memory");
    let mut text = shown(rt.alloc(), &mut left, "game").expect(rt, "a text");
    let keep = shown(rt.alloc(), &mut left, "keep").expect(rt, "a text");
    let stage = shown(rt.alloc(), &mut left, "stage").expect(rt, "a text");
    text.push_str(keep.as_str()).expect(rt, "memory");
    text.push_str(stage.as_str()).expect(rt, "memory");
    assert_eq!(rt; text.as_str(), wanted);
    assert!(rt; left.ops().is_empty());
}

#[test]
fn a_stop_leaves_what_is_chosen(rt: HostRuntime) {
    let tree = unsettled_world(&rt);
    let cases: [(&[u32], &str); 5] = [
        (
            &[],
            "game/a = \"one\"\ngame/c = \"new\"\ngame/d = \"two\"\ngame/f/\nkeep/n = \"note\"\nstage/one = \"one\"\nstage/two = \"two\"\n",
        ),
        (
            &[0],
            "game/c = \"\"\ngame/d = \"two\"\ngame/f/\nkeep/n = \"\"\nstage/one = \"one\"\nstage/two = \"two\"\n",
        ),
        (
            &[0, 0, 0, 0, 0, 0, 0, 0],
            "game/d = \"old\"\ngame/f/\nkeep/n = \"note\"\nstage/gone = \"gone\"\nstage/one = \"one\"\nstage/two = \"two\"\n",
        ),
        (
            &[1, 1, 1, 1, 1, 1, 1, 1],
            "game/a = \"one\"\ngame/c = \"new\"\ngame/f/\nkeep/n = \"note\"\nstage/one = \"one\"\nstage/two = \"two\"\n",
        ),
        (
            &[0, 1, 0, 1, 0, 1, 0],
            "game/c = \"\"\ngame/d = \"old\"\ngame/f/\nkeep/n = \"\"\nstage/one = \"one\"\nstage/two = \"two\"\n",
        ),
    ];
    for (choices, wanted) in &cases {
        check_left(&rt, &tree, *choices, *wanted);
    }
}
