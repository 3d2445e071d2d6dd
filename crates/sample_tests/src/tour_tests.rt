// Tours over the worlds of 7 and of 100.
use deploy_engine::streams::{MemSink, MemSource};
use deploy_engine::{Answer, Limits, Tour, run, tour};
use sample_world::make;
use std::process::Abort;
use test_worlds::fail_call;
use tree_fs::{Op, Root};
use tree_mem::MemTree;

const TOUR_OF_7: Tour = Tour {
    mods: 27,
    files: 2_700,
    winners: 1_400,
    by_override: 1,
    by_rule: 99,
    by_position: 1_200,
    pairs: 24,
    saved: 100,
    folders: 7,
    changes: 0,
    plain: 100,
};

fn sample(rt: &(impl AllocGlobal + Abort), number: u64) -> MemTree {
    make(rt.alloc(), number).expect(rt, "a world")
}

// How many links from `stage` to `game` were made.
fn count_deployed(tree: &MemTree) -> usize {
    let mut count: usize = 0;
    for op in tree.ops() {
        if let Op::Link {
            from,
            to,
            done: true,
        } = op
        {
            if from.root == Root::Stage && to.root == Root::Game {
                count = count.saturating_add(1);
            }
        }
    }
    count
}

#[test]
fn a_tour_counts_what_its_commands_find(rt: HostRuntime) {
    let mut world = sample(&rt, 7);
    match tour(rt.alloc(), &mut world) {
        Ok(found) => assert_eq!(&rt; found, TOUR_OF_7),
        Err(_answer) => panic!(&rt; "a tour"),
    }
    assert!(&rt; count_deployed(&world) >= 1_400);
}

#[test]
fn a_tour_ends_at_a_fault(rt: HostRuntime) {
    let mut world = sample(&rt, 7);
    fail_call(rt.alloc(), &mut world, 0, false).expect(&rt, "memory");
    match tour(rt.alloc(), &mut world) {
        Err(Answer::TreeFault) => {}
        _ => panic!(&rt; "a fault"),
    }
}

#[test]
fn a_sample_prints_the_counts_of_its_tour(rt: HostRuntime) {
    let alloc = rt.alloc();
    let mut tree = MemTree::new(alloc).expect(&rt, "memory");
    let mut source = MemSource::new(Vec::new(alloc), 1, Vec::new(alloc));
    let mut sink = MemSink::new(Vec::new(alloc));
    let words = ["sample", "7"];
    let limits = Limits::usual();
    match run(alloc, &words, &limits, &mut tree, &mut source, &mut sink) {
        Answer::Ok => {}
        _ => panic!(&rt; "an answer"),
    }
    let printed = b"mods 27\nfiles 2700\nwinners 1400\noverride 1\nrule 99\nposition 1200\n\
        pairs 24\nsaved 100\nfolders 7\nchanges 0\nplain 100\n";
    assert!(&rt; sink.written() == printed.as_slice());
    assert!(&rt; tree.ops().is_empty());
}
