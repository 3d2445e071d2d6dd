// `settle --from-input`: actions for single paths, a line of input each.
use crate::script::{play, played, said};
use deploy_engine::{Limits, run};
use io_edge::{MemSink, MemSource};
use std::process::Abort;

const TWO_CHANGES: &str = r#"
    + stage/a/x.txt = "A"
    + stage/b/x.txt = "abc"
    + stage/b/w = "abc"
    > deploy => 0
    deployed 2, set 2, saved 0
    - game/x.txt
    + game/x.txt = "abc"
    - game/w
"#;

#[test]
fn a_line_decides_for_its_path_alone(rt: HostRuntime) {
    play(
        &rt,
        TWO_CHANGES,
        r#"
        < x.txt|revert
        > settle --from-input => 0
        settled 2, set 2, saved 1
        ? game/x.txt = stage/b/x.txt
        ? game/w = stage/b/w
        ? keep/aside/1/game/ = nothing
        > check => 0
        changes 0
        "#,
    );
    play(
        &rt,
        TWO_CHANGES,
        r#"
        <
        < w|drop
        <
        < x.txt|aside
        > settle --replaced import --from-input --deleted=restore => 0
        settled 2, set 1, saved 1
        ? game/ = vortex.deployment.json x.txt
        ? game/x.txt = stage/b/x.txt
        ? keep/aside/1/game/x.txt = "abc"
        = x.txt b H1
        ? manifest
        "#,
    );
}

#[test]
fn without_lines_the_options_decide(rt: HostRuntime) {
    play(
        &rt,
        TWO_CHANGES,
        r#"
        > settle --from-input => 0
        settled 2, set 2, saved 1
        ? keep/aside/1/game/x.txt = "abc"
        < x.txt|revert
        > settle --from-input => 3
        refused|42|BadAnswer|1
        "#,
    );
}

// Lines that aren't read where input isn't asked for.
#[test]
fn input_is_no_matter_without_its_option(rt: HostRuntime) {
    play(
        &rt,
        TWO_CHANGES,
        r#"
        < no answer
        > settle => 0
        settled 2, set 2, saved 1
        "#,
    );
}

// Each is an input and its first line that is no answer.
#[test]
fn a_line_that_is_no_answer_is_refused(rt: HostRuntime) {
    for (lines, line) in [
        ("< x.txt|keep", "1"),
        ("< x.txt|nothing", "1"),
        ("< x.txt|", "1"),
        ("< x.txt", "1"),
        ("< x.txt revert", "1"),
        ("< |revert", "1"),
        ("< x.txt|revert|", "1"),
        ("< x.txt|revert|w", "1"),
        ("< y|revert", "1"),
        ("< /x.txt|revert", "1"),
        ("<\n< x.txt|revert\n<\n< x.txt|revert", "4"),
        ("< w|drop\n< x.txt|drop\n< y|drop", "2"),
    ] {
        let script = format!(in rt.alloc();
            "{lines}
            > settle --from-input => 3
            refused|42|BadAnswer|{line}
            ! sync keep"
        );
        play(&rt, TWO_CHANGES, script.expect(&rt, "memory").as_str());
    }
}

// Each row is settled otherwise than the others; `f`, `g` and `i` cover files of the game.
const ALL_PAIRS: &str = r#"
    + stage/m/a = "abc"
    + game/a = "A"
    + stage/m/b = "abc"
    + game/b = "A"
    + stage/m/c = "abc"
    + game/c = "A"
    + stage/m/d = "A"
    + game/d = stage/m/d
    + stage/m/e = "abc"
    + stage/m/f = "abc"
    + game/f.vortex_backup = "game f"
    + game/g.vortex_backup = "game g"
    + game/h = "A"
    + game/i = "A"
    + game/i.vortex_backup = "game i"
    = a m H0
    = b m H0
    = c m H0
    = d m H0
    = e m H0
    = f m H0 shadowed
    = g m H0 shadowed
    = h m H0
    = i m H0 shadowed
    + manifest
"#;

#[test]
fn each_change_is_settled_by_its_own_action(rt: HostRuntime) {
    play(
        &rt,
        ALL_PAIRS,
        r#"
        < a|aside
        < b|import
        < c|revert
        < d|keep
        < e|restore
        < f|drop
        < g|drop
        < h|restore
        < i|drop
        > settle --from-input => 0
        settled 9, set 8, saved 4
        = a m H1
        = b m H2
        = c m H1
        = d m H2
        = e m H1
        = h m H2
        ? manifest
        ? game/ = a b c d e f g h i vortex.deployment.json
        ? game/a = stage/m/a
        ? game/b = stage/m/b
        ? game/c = stage/m/c
        ? game/d = stage/m/d
        ? game/e = stage/m/e
        ? game/f = "game f"
        ? game/g = "game g"
        ? game/h = stage/m/h
        ? game/i = "game i"
        ? stage/m/ = a b c d e f h
        ? keep/aside/1/game/ = a i
        ? keep/aside/1/game/a = "A"
        ? keep/aside/1/game/i = "A"
        ? keep/aside/1/stage/m/ = b
        ? keep/aside/1/stage/m/b = "abc"
        > check => 0
        changes 0
        > settle => 0
        settled 0, set 0, saved 0
        "#,
    );
}

// The changes' places come before the input, and the input before what is in the way.
#[test]
fn input_is_looked_at_between_the_changes_and_the_plan(rt: HostRuntime) {
    play(
        &rt,
        TWO_CHANGES,
        r#"
        + keep/aside/4294967295/
        < y|drop
        > settle --from-input => 3
        refused|42|BadAnswer|1
        > settle => 3
        refused|35|AsideFull
        - stage/b/w
        + stage/b/w/
        < y|drop
        > settle --from-input => 3
        refused|33|Blocked|stage/b/w
        "#,
    );
}

// Settles by this input.
fn check_input(rt: &(impl AllocGlobal + Abort), input: &[u8], status: u8, printed: &str) {
    let mut tree = played(rt, TWO_CHANGES);
    let limits = Limits::usual();
    let (found, text) = said(rt, "settle --from-input", &limits, &mut tree, input);
    assert_eq!(rt; text.as_str(), printed);
    assert_eq!(rt; found, status);
}

const SETTLED: &str = "settled 2, set 2, saved 1\n";

#[test]
fn lines_of_input_are_read_as_those_of_a_batch(rt: HostRuntime) {
    check_input(&rt, b"x.txt\trevert", 0, SETTLED);
    check_input(&rt, b"\r\nx.txt\trevert\r\n", 0, SETTLED);
    check_input(&rt, b"x.txt\trevert\r", 3, "refused\t42\tBadAnswer\t1\n");
    check_input(
        &rt,
        b"x.txt\trevert\n\xff\n",
        3,
        "refused\t41\tBadLine\t2\n",
    );
    check_input(&rt, b"y\trevert\n\xff\n", 3, "refused\t42\tBadAnswer\t1\n");
    let long = "y".repeat(rt.alloc(), 4_097).expect(&rt, "memory");
    check_input(&rt, long.as_bytes(), 3, "refused\t39\tLineTooLong\t1\n");
    let many = "\n".repeat(rt.alloc(), 10_001).expect(&rt, "memory");
    check_input(&rt, many.as_bytes(), 3, "refused\t40\tTooManyLines\n");
}

#[test]
fn a_source_that_fails_is_told(rt: HostRuntime) {
    let mut tree = played(&rt, TWO_CHANGES);
    let input = Vec::from_slice(rt.alloc(), b"x.txt\trevert\n").expect(&rt, "memory");
    let fails = vec![in rt.alloc(); 0u64].expect(&rt, "memory");
    let mut source = MemSource::new(input, 100, fails);
    let mut sink = MemSink::new(Vec::new(rt.alloc()));
    let limits = Limits::usual();
    let answer = run(
        rt.alloc(),
        &["settle", "--from-input"],
        &limits,
        &mut tree,
        &mut source,
        &mut sink,
    );
    assert_eq!(&rt; answer.status(), 6);
    assert!(&rt; sink.written().is_empty());
}
