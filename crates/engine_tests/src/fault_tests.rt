// What the commands that only look answer where a call of the tree, the source or the sink fails.
use crate::script::{crashed, played, said};
use deploy_engine::{Limits, run};
use io_edge::{MemSink, MemSource};
use std::process::Abort;
use std::str;
use test_worlds::fail_call;
use tree_mem::MemTree;

const LOOKS: [&str; 5] = ["order", "winners", "conflicts", "check", "status"];

const WORLD: &str = r#"
    + stage/a/x.txt = "A"
    + stage/a/d/y = "A"
    + stage/b/x.txt = "abc"
    + game/x.txt = stage/b/x.txt
    = x.txt b H1
    + manifest
    * version = 1
    * mods = [{id = "a"}, {id = "b"}]
"#;

// How many calls a command may make here.
const MOST_CALLS: u64 = 1_000;

// Whether the command, with this call of the tree failing, answers that the tree failed: then it
// prints nothing.
fn fails(rt: &(impl AllocGlobal + Abort), words: &str, tree: &mut MemTree, call: u64) -> bool {
    fail_call(rt.alloc(), tree, call, true).expect(rt, "memory");
    let (status, printed) = said(rt, words, &Limits::usual(), tree, b"");
    assert!(rt; tree.ops().is_empty(), "{words}");
    assert!(rt; status == 0 || status == 5, "{words}: {status}");
    assert_eq!(rt; printed.is_empty(), status == 5, "{words}");
    status == 5
}

// How many calls of the tree the command makes; each is one that may fail.
fn count_calls(rt: &(impl AllocGlobal + Abort), words: &str) -> u64 {
    let world = played(rt, WORLD);
    for call in 0..MOST_CALLS {
        let mut tree = crashed(rt, &world, &[]);
        if !fails(rt, words, &mut tree, call) {
            return call;
        }
    }
    MOST_CALLS
}

#[test]
fn a_failing_call_ends_a_look_without_a_word(rt: HostRuntime) {
    for words in LOOKS {
        let calls = count_calls(&rt, words);
        assert!(&rt; 0 < calls && calls < MOST_CALLS, "{words}");
    }
}

// The status and what was printed where these calls of the sink and of the source fail.
fn check_streams(
    rt: &(impl AllocGlobal + Abort),
    words: &str,
    sink_fails: Vec<u64>,
    source_fails: Vec<u64>,
    status: u8,
) {
    let mut tree = played(rt, WORLD);
    let mut source = MemSource::new(Vec::new(rt.alloc()), 1, source_fails);
    let mut sink = MemSink::new(sink_fails);
    let limits = Limits::usual();
    let answer = run(
        rt.alloc(),
        &[words],
        &limits,
        &mut tree,
        &mut source,
        &mut sink,
    );
    assert_eq!(rt; answer.status(), status, "{words}");
    let printed = str::from_utf8(sink.written()).expect(rt, "a text");
    assert_eq!(rt; printed.is_empty(), status == 7, "{words}: {printed}");
    assert!(rt; tree.ops().is_empty(), "{words}");
}

fn first_call(rt: &(impl AllocGlobal + Abort)) -> Vec<u64> {
    vec![in rt.alloc(); 0u64].expect(rt, "memory")
}

#[test]
fn a_sink_that_fails_is_told(rt: HostRuntime) {
    for words in LOOKS {
        check_streams(&rt, words, first_call(&rt), Vec::new(rt.alloc()), 7);
    }
}

#[test]
fn a_source_that_would_fail_is_not_asked(rt: HostRuntime) {
    for words in LOOKS {
        check_streams(&rt, words, Vec::new(rt.alloc()), first_call(&rt), 0);
    }
}

#[test]
fn a_refusal_and_usage_are_lost_where_the_sink_fails(rt: HostRuntime) {
    check_streams(&rt, "orders", first_call(&rt), Vec::new(rt.alloc()), 7);
}
