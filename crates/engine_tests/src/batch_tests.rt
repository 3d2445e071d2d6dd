// `batch`: its lines, each a command.
use crate::script::{played, said};
use crate::tables::play_all;
use deploy_engine::{Limits, run};
use io_edge::{MemSink, MemSource};
use std::process::Abort;

const CASES: &str = r#"
    == TWO_MODS:
    + stage/a/x.txt = "A"
    + stage/b/x.txt = "abc"

    == each_line_is_a_command_and_empty_lines_are_skipped from TWO_MODS
    > batch => 0
    < order
    <
    < winners
    < order|--
    > batch => 0
    a
    b
    x.txt|b|order
    a
    b

    == a_batch_ends_at_the_first_answer_that_is_not_ok from TWO_MODS
    < order
    < bad
    < winners
    > batch => 2
    a
    b
    usage
    < order
    < batch
    > batch => 2
    a
    b
    usage
    < settle|--from-input
    > batch => 2
    usage
    < order|
    > batch => 2
    usage
    < order||
    > batch => 2
    usage
    < winners
    < enable
    > batch => 2
    x.txt|b|order
    usage

    == a_refusal_ends_a_batch from TWO_MODS
    * version = 1
    * mods = [{id = "a"}, {id = "gone"}]
    < order
    < winners
    < order
    > batch => 3
    a
    gone
    refused|19|NoFolder|gone
    + keep/intent.json = ""
    < status
    < order
    > batch => 3
    refused|37|BadIntent
    < order
    < status
    > batch => 4
    recover first

    == changes_end_a_batch
    = x.txt b H1
    + manifest
    < status
    < check
    < order
    > batch => 1
    files 1
    folders 0
    intent none
    Gone|x.txt
    changes 1

    == a_batch_without_lines_does_nothing
    # Neither a control place nor an intent keeps a batch from its lines.
    + keep/intent.json = ""
    + keep/profile.toml/
    > batch => 0
    ! none
    > batch -- => 0
    > batch now => 2
    usage
"#;

#[test]
fn each_case_holds(rt: HostRuntime) {
    play_all(&rt, CASES);
}

// The batch of this input in a world without mods has this status and prints this.
fn check_input(rt: &(impl AllocGlobal + Abort), input: &[u8], status: u8, printed: &str) {
    let mut tree = played(rt, "");
    let (found, text) = said(rt, "batch", &Limits::usual(), &mut tree, input);
    assert_eq!(rt; text.as_str(), printed);
    assert_eq!(rt; found, status);
    assert!(rt; tree.ops().is_empty());
}

#[test]
fn a_line_ends_at_a_line_feed_or_at_the_end_of_input(rt: HostRuntime) {
    let changes = "changes 0\n";
    check_input(&rt, b"check", 0, changes);
    check_input(&rt, b"\n\ncheck\n", 0, changes);
    check_input(&rt, b"check\r\n\r\n", 0, changes);
    check_input(&rt, b"check\r", 2, "usage\n");
    check_input(
        &rt,
        b"check\n\xff\ncheck\n",
        3,
        "changes 0\nrefused\t41\tBadLine\t2\n",
    );
}

// A line of so many bytes, in which `check` is followed by tabs.
fn long_line(rt: &(impl AllocGlobal + Abort), count: usize) -> String {
    let tabs = "\t"
        .repeat(rt.alloc(), count.saturating_sub(5))
        .expect(rt, "memory");
    let tabs = tabs.as_str();
    format!(in rt.alloc(); "check\ncheck{tabs}\n").expect(rt, "memory")
}

#[test]
fn a_line_has_4096_bytes_at_most(rt: HostRuntime) {
    let line = long_line(&rt, 4_097);
    let printed = "changes 0\nrefused\t39\tLineTooLong\t2\n";
    check_input(&rt, line.as_bytes(), 3, printed);
    let line = long_line(&rt, 4_096);
    check_input(&rt, line.as_bytes(), 2, "changes 0\nusage\n");
}

#[test]
fn a_batch_has_10000_lines_at_most(rt: HostRuntime) {
    let mut lines = "\n".repeat(rt.alloc(), 9_999).expect(&rt, "memory");
    lines.push_str("check\n").expect(&rt, "memory");
    check_input(&rt, lines.as_bytes(), 0, "changes 0\n");
    lines.push_str("\n").expect(&rt, "memory");
    check_input(
        &rt,
        lines.as_bytes(),
        3,
        "changes 0\nrefused\t40\tTooManyLines\n",
    );
}

// The batch where these calls of the source and of the sink fail.
fn check_streams(
    rt: &(impl AllocGlobal + Abort),
    source_fails: Vec<u64>,
    sink_fails: Vec<u64>,
    status: u8,
) {
    let mut tree = played(rt, "+ stage/a/x.txt = \"A\"\n+ stage/b/x.txt = \"abc\"");
    let input = Vec::from_slice(rt.alloc(), b"order\nbad\n").expect(rt, "memory");
    let mut source = MemSource::new(input, 100, source_fails);
    let mut sink = MemSink::new(sink_fails);
    let limits = Limits::usual();
    let answer = run(
        rt.alloc(),
        &["batch"],
        &limits,
        &mut tree,
        &mut source,
        &mut sink,
    );
    assert_eq!(rt; answer.status(), status);
    assert!(rt; sink.written().is_empty());
}

fn first_call(rt: &(impl AllocGlobal + Abort)) -> Vec<u64> {
    vec![in rt.alloc(); 0u64].expect(rt, "memory")
}

#[test]
fn a_failing_source_or_sink_ends_a_batch(rt: HostRuntime) {
    check_streams(&rt, first_call(&rt), Vec::new(rt.alloc()), 6);
    check_streams(&rt, Vec::new(rt.alloc()), first_call(&rt), 7);
}
