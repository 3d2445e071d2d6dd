// Inputs about changes, line by line.
ghost use Rattle.manifest_json.specs.Paths.{AreRising};
ghost use Rattle.change_detect.specs.Changes.{change_paths};

use change_choices::{Action, PathActions};
use change_detect::{Change, all_changes};
use choice_lines::{InputError, read_choices};
use io_edge::{MemSource, Source};
use manifest_json::read_manifest;
use std::process::Abort;
use test_worlds::world;

// A row of each path, whose digest is that of no bytes.
const ROWS: &str = r#"{"files":[
    {"digest":"e3b0c44298fc1c149afbf4c8996fb92427ae41e4649b934ca495991b7852b855","mod":"b","path":"a/changed","shadowed":false},
    {"digest":"e3b0c44298fc1c149afbf4c8996fb92427ae41e4649b934ca495991b7852b855","mod":"b","path":"b/deleted","shadowed":false},
    {"digest":"e3b0c44298fc1c149afbf4c8996fb92427ae41e4649b934ca495991b7852b855","mod":"b","path":"c gone","shadowed":false},
    {"digest":"e3b0c44298fc1c149afbf4c8996fb92427ae41e4649b934ca495991b7852b855","mod":"b","path":"d/replaced","shadowed":false},
    {"digest":"e3b0c44298fc1c149afbf4c8996fb92427ae41e4649b934ca495991b7852b855","mod":"b","path":"e/staged","shadowed":false}
    ],"folders":[],"version":1}"#;

const WORLD: &str = "stage/b/a/changed = \"abc\"
game/a/changed = stage/b/a/changed
stage/b/b/deleted = \"\"
stage/b/d/replaced = \"\"
game/d/replaced = \"\"
game/e/staged = \"\"";

// One change of each class, in path order.
fn one_of_each(rt: &(impl AllocGlobal + Abort)) -> Vec<Change>
    ensures { AreRising (change_paths result.items) }
{
    let rows = read_manifest(rt.alloc(), ROWS.as_bytes()).expect(rt, "a manifest");
    let mut tree = world(rt.alloc(), WORLD).expect(rt, "a world");
    all_changes(rt.alloc(), &mut tree, &rows).expect(rt, "a change of each row")
}

// A source of this input in small pieces, which fails at the call with this number.
fn source_of(rt: &(impl AllocGlobal + Abort), input: &[u8], fails: &[u64]) -> MemSource {
    let bytes = Vec::from_slice(rt.alloc(), input).expect(rt, "memory");
    let fails = Vec::from_slice(rt.alloc(), fails).expect(rt, "memory");
    MemSource::new(bytes, 3, fails)
}

fn name_of(rt: &(impl AllocGlobal + Abort), error: InputError) -> String {
    let name = match error {
        InputError::Unread(error) => format!(in rt.alloc(); "{error:?}"),
        InputError::BadAnswer(line) => format!(in rt.alloc(); "BadAnswer({line})"),
    };
    name.expect(rt, "memory")
}

// The word of each change's own action, or a dash where it has none.
fn words_of(rt: &(impl AllocGlobal + Abort), changes: &[Change], actions: &PathActions) -> String {
    let mut text = String::new(rt.alloc());
    for change in changes {
        let word = match actions.get(&change.path) {
            Some(action) => action.word(),
            None => "-",
        };
        text.push_str(word).expect(rt, "memory");
        text.push(' ').expect(rt, "memory");
    }
    text
}

// What is read of this input about one change of each class.
fn read(rt: &(impl AllocGlobal + Abort), input: &[u8], fails: &[u64]) -> String {
    let changes = one_of_each(rt);
    let mut source = source_of(rt, input, fails);
    match read_choices(rt.alloc(), &changes, &mut source) {
        Ok(actions) => words_of(rt, &changes, &actions),
        Err(error) => name_of(rt, error),
    }
}

fn check(rt: &(impl AllocGlobal + Abort), input: &[u8], wanted: &str) {
    let found = read(rt, input, &[]);
    assert_eq!(rt; found.as_str(), wanted);
}

#[test]
fn each_line_gives_its_path_an_action(rt: HostRuntime) {
    let table: [(&[u8], &str); 7] = [
        (b"", "- - - - - "),
        (b"\n\r\n\n", "- - - - - "),
        (b"d/replaced\trevert", "- - - revert - "),
        (b"d/replaced\timport\n", "- - - import - "),
        (
            b"\nd/replaced\taside\r\n\nb/deleted\tdrop\n",
            "- drop - aside - ",
        ),
        (
            b"e/staged\trestore\nd/replaced\trevert\nc gone\tdrop\nb/deleted\trestore\na/changed\tkeep\n",
            "keep restore drop revert restore ",
        ),
        (b"e/staged\tdrop", "- - - - drop "),
    ];
    for (input, wanted) in table {
        check(&rt, input, wanted);
    }
}

#[test]
fn a_line_that_is_no_answer_is_told(rt: HostRuntime) {
    let lines: [&[u8]; 17] = [
        b"d/replaced",
        b"d/replaced\t",
        b"d/replaced revert",
        b"d/replaced\trevert\t",
        b"d/replaced\t\trevert",
        b"\td/replaced\trevert",
        b"d/replaced\tRevert",
        b"d/replaced\trevert ",
        b" d/replaced\trevert",
        b"revert\td/replaced",
        b"d/unchanged\trevert",
        b"d\trevert",
        b"\trevert",
        b"d/replaced\tkeep",
        b"a/changed\trevert",
        b"c gone\trestore",
        b" ",
    ];
    for line in lines {
        check(&rt, line, "BadAnswer(1)");
        let mut later = Vec::from_slice(rt.alloc(), b"\ne/staged\tdrop\n").expect(&rt, "memory");
        later.extend_from_slice(line).expect(&rt, "memory");
        check(&rt, &later, "BadAnswer(3)");
    }
}

#[test]
fn a_path_has_one_answer(rt: HostRuntime) {
    let table: [(&[u8], &str); 3] = [
        (b"b/deleted\tdrop\nb/deleted\tdrop\n", "BadAnswer(2)"),
        (b"b/deleted\tdrop\nb/deleted\trestore", "BadAnswer(2)"),
        (
            b"b/deleted\tdrop\nd/replaced\taside\n\nb/deleted\tdrop",
            "BadAnswer(4)",
        ),
    ];
    for (input, wanted) in table {
        check(&rt, input, wanted);
    }
}

#[test]
fn the_first_line_that_is_refused_is_told(rt: HostRuntime) {
    let table: [(&[u8], &str); 6] = [
        (b"\xff", "NotText(1)"),
        (b"d/replaced\trevert\n\xff\tkeep\n", "NotText(2)"),
        (b"d/replaced\tkeep\n\xff\n", "BadAnswer(1)"),
        (b"\xff\nd/replaced\tkeep\n", "NotText(1)"),
        (b"c gone\tdrop\nx\tdrop\nc gone\tdrop\n", "BadAnswer(2)"),
        (b"c gone\tdrop\nc gone\tdrop\nx\tdrop\n", "BadAnswer(2)"),
    ];
    for (input, wanted) in table {
        check(&rt, input, wanted);
    }
}

// So many empty lines, and then this text.
fn behind_lines(rt: &(impl AllocGlobal + Abort), lines: usize, text: &[u8]) -> Vec<u8> {
    let mut input = Vec::new(rt.alloc());
    for _ in 0..lines {
        input.push(b'\n').expect(rt, "memory");
    }
    input.extend_from_slice(text).expect(rt, "memory");
    input
}

#[test]
fn lines_have_a_number_and_a_length(rt: HostRuntime) {
    let last = behind_lines(&rt, 9_999, b"c gone\tdrop\n");
    check(&rt, &last, "- - drop - - ");
    let many = behind_lines(&rt, 10_000, b"c gone\tdrop\n");
    check(&rt, &many, "TooMany");
    let mut long = behind_lines(&rt, 1, b"c gone\tdrop");
    for _ in 0..4_086usize {
        long.push(b' ').expect(&rt, "memory");
    }
    check(&rt, &long, "TooLong(2)");
    long.pop();
    check(&rt, &long, "BadAnswer(2)");
}

#[test]
fn a_source_that_fails_ends_the_reading(rt: HostRuntime) {
    let input = b"c gone\tdrop\nd/replaced\tkeep\n";
    for call in [0u64, 1, 3] {
        let found = read(&rt, input, &[call]);
        assert_eq!(&rt; found.as_str(), "Failed");
    }
    let found = read(&rt, input, &[10]);
    assert_eq!(&rt; found.as_str(), "BadAnswer(2)");
}

#[test]
fn the_input_is_read_to_its_end(rt: HostRuntime) {
    let changes = one_of_each(&rt);
    let mut source = source_of(&rt, b"c gone\tdrop\n\n\n", &[]);
    let answer = read_choices(rt.alloc(), &changes, &mut source);
    assert!(&rt; answer.is_ok());
    let left = source.pull(9).expect(&rt, "bytes");
    assert!(&rt; left.is_empty());
}
