// Which calls of the system each call of the tree makes, in order.
use super::recorded::{Record, Recorded};
use super::steps::{answer, enter, leave, parts};
use crate::HostTree;
use std::io::ErrorKind;
use std::process::Abort;

const WORLD: &str = "
    stage/
    stage/m/
    stage/m/e/
    stage/m/e/y = abc
    game/";

// The first call makes the missing root. A folder is looked at once, be it by `kind` or by a
// listing. The base is synced before the first change, and a change lets go of what was looked at;
// else nothing is asked twice. A file is kept open from one part to the next, and no longer. The
// folders above those that are made or removed are synced once, before a file gets or loses a name;
// one that is removed itself isn't, and is known no more. Where a folder went, those beside it are
// synced without the one above. Where no folder was found, none is looked
// for again before the next change. In a folder that was made, nothing is looked for behind the last
// file that came into it. A new file is synced where it was written. A folder in which
// nothing was changed since is not synced again, nor those above it. After `forget` all but the
// base's sync is asked again.
const STEPS: &str = "
    kind stage/m | Folder | stat ./stage, stat ./game, stat ./keep, mkdir ./keep, stat ./keep, lstat ./stage/m
    list stage/m | e Folder | list ./stage/m/, lstat ./stage/m/e
    list stage/m/e | y File | list ./stage/m/e/, lstat ./stage/m/e/y
    kind game/y | Absent | lstat ./game/y
    link stage/m/e/y game/y | () | open ., fsync ., link ./game/y
    kind game/y | File | lstat ./game/y
    kind stage/m/e/y | File | lstat ./stage/m/e/y
    same game/y stage/m/e/y | true |
    size game/y | 3 |
    read game/y | [97, 98, 99] | open ./game/y, read ./game/y
    read game/y | [97, 98, 99] | seek ./game/y, read ./game/y
    read stage/m/e/y | [97, 98, 99] | open ./stage/m/e/y, read ./stage/m/e/y
    kind game/z | Absent | lstat ./game/z
    read stage/m/e/y | [97, 98, 99] | open ./stage/m/e/y, read ./stage/m/e/y
    make_folder game/d | () | mkdir ./game/d
    make_folder game/d/e | () | mkdir ./game/d/e
    make_folder game/d/f | () | mkdir ./game/d/f
    kind game/d/f | Folder |
    link stage/m/e/y game/d/e/x | () | open ./game, fsync ./game, open ./game/d, fsync ./game/d, link ./game/d/e/x
    kind game/d/e/x | File | lstat ./game/d/e/x
    kind game/d/e/y | Absent |
    kind game/d/e/a | Absent | lstat ./game/d/e/a
    sync_folder game/d/e | () | open ./game/d/e, fsync ./game/d/e
    sync_folder game/d/e | () |
    unlink game/d/e/x | () | unlink ./game/d/e/x
    sync_folder game/d/e | () | open ./game/d/e, fsync ./game/d/e
    remove_folder game/d/e | () | rmdir ./game/d/e
    kind game/d/e/x | Absent | lstat ./game/d/e
    kind game/d/e/z | Absent |
    sync_folder game/d/f | () | open ./game/d/f, fsync ./game/d/f
    sync_folder game/d | () | open ./game/d, fsync ./game/d
    sync_folder game/d | () |
    remove_folder game/d/f | () | rmdir ./game/d/f
    kind game/d/e/z | Absent | lstat ./game/d/e
    remove_folder game/d | () | rmdir ./game/d
    put_new keep/one | () | open ./game, fsync ./game, open ./keep/one, write ./keep/one, fsync ./keep/one
    sync_file keep/one | () | lstat ./keep/one, open ./keep/one, fsync ./keep/one
    rename keep/one keep/two | () | rename ./keep/one
    kind keep/one | Absent | lstat ./keep/one
    kind keep/two | File | lstat ./keep/two
    sync_folder stage/m | () | open ./stage, fsync ./stage, open ./stage/m, fsync ./stage/m
    sync_folder stage/m/e | () | open ./stage/m/e, fsync ./stage/m/e
    sync_folder keep | () | open ./keep, fsync ./keep
    kind keep/two | File |
    forget | () |
    kind keep/two | File | stat ./stage, stat ./game, stat ./keep, lstat ./keep/two
    list stage/m | e Folder | lstat ./stage/m, list ./stage/m/, lstat ./stage/m/e
    sync_folder stage/m | () | open ./stage, fsync ./stage, open ./stage/m, fsync ./stage/m
    make_folder game/d | () | mkdir ./game/d
    kind game/d/x | Absent |
    forget | () |
    kind game/d/x | Absent | stat ./stage, stat ./game, stat ./keep, lstat ./game/d, lstat ./game/d/x";

#[test]
fn each_call_asks_the_system_in_order_and_nothing_twice(rt: HostRuntime) {
    enter(rt, &rt, "host_calls", WORLD);
    let record = Record::new(rt, None, false);
    let mut tree = HostTree::open(Recorded(&record), rt.alloc(), ".").expect(&rt, "memory");
    for line in STEPS.trim().lines() {
        let (call, said, asked) = parts(line);
        assert_eq!(&rt;
            answer(rt.alloc(), &rt, &mut tree, call).as_str(),
            said,
            "{call}"
        );
        assert_eq!(&rt; record.take_log().as_str(), asked, "{call}");
    }
    leave(rt, &rt, "host_calls");
}

// Takes the steps in a new world in which the system's call of this number fails. Its error is the
// answer of the step that made it, and nothing is asked after it. Answers whether there is such a
// call.
fn fails_at(
    rt: HostRuntime,
    stop: &impl Abort,
    number: u32,
    kind: ErrorKind,
    wanted: &str,
) -> bool {
    enter(rt, stop, "host_errors", WORLD);
    let record = Record::new(rt, Some((number, kind)), false);
    let mut tree = HostTree::open(Recorded(&record), rt.alloc(), ".").expect(stop, "memory");
    let mut has_failed = false;
    for line in STEPS.trim().lines() {
        let (call, _, _) = parts(line);
        let said = answer(rt.alloc(), stop, &mut tree, call);
        has_failed = record.calls() > number;
        if has_failed {
            assert_eq!(stop; said.as_str(), wanted, "{call}, call {number}");
            assert_eq!(stop; record.calls(), number.saturating_add(1), "{call}");
            break;
        }
    }
    let is_counted = has_failed && wanted == "Failed";
    assert_eq!(stop; tree.faults.get(), u64::from(is_counted));
    leave(rt, stop, "host_errors");
    has_failed
}

#[test]
fn an_error_of_the_system_ends_the_call_that_met_it(rt: HostRuntime) {
    for (kind, wanted) in [
        (ErrorKind::PermissionDenied, "Failed"),
        (ErrorKind::OutOfMemory, "Memory"),
    ] {
        let mut calls = 0u32;
        for number in 0..99u32 {
            if !fails_at(rt, &rt, number, kind, wanted) {
                calls = number;
                break;
            }
        }
        assert_eq!(&rt; calls, 85);
    }
}

#[test]
fn an_interrupted_read_is_made_again(rt: HostRuntime) {
    enter(rt, &rt, "host_interrupts", WORLD);
    let record = Record::new(rt, Some((9, ErrorKind::Interrupted)), false);
    let mut tree = HostTree::open(Recorded(&record), rt.alloc(), ".").expect(&rt, "memory");
    let said = answer(rt.alloc(), &rt, &mut tree, "kind stage/m/e/y");
    assert_eq!(&rt; said.as_str(), "File");
    let said = answer(rt.alloc(), &rt, &mut tree, "read stage/m/e/y");
    assert_eq!(&rt; said.as_str(), "[97, 98, 99]");
    assert!(&rt;
        record
            .take_log()
            .as_str()
            .ends_with("read ./stage/m/e/y, read ./stage/m/e/y")
    );
    leave(rt, &rt, "host_interrupts");
}
