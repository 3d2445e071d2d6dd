// The steps of an intent that is begun, marked clear and finished.
ghost use Rattle.std.specs.Prelude.{◌≡◌, IfOk};
ghost use Rattle.intent_json.specs.Forms.{set_form, clear_form};

use crate::intents::{CLEAR, SET, ready};
use crate::looks::need_open;
use crate::spent::{check_later, check_steps, give_up};
use intent_journal::{Held, OpenIntent, Ready, begin, finish, leave, mark_clear};
use rel_paths::Control;
use std::process::Abort;
use test_worlds::{bytes_of, fail_call, world};
use tree_mem::MemTree;

fn begun(
    rt: &(impl AllocGlobal + Abort),
    tree: &mut MemTree,
    ready: &Ready,
) -> Result<OpenIntent, Held>
    ensures { IfOk result (λ intent. intent ≡ set_form ready.now) }
{
    need_open(tree, Control::IntentTemp).expect(rt, "an open temp");
    need_open(tree, Control::Intent).expect(rt, "an open place");
    begin(tree, ready)
}

fn marked(
    rt: &(impl AllocGlobal + Abort),
    tree: &mut MemTree,
    intent: OpenIntent,
    ready: &Ready,
) -> Result<OpenIntent, Held>
    requires { intent ≡ set_form ready.now }
{
    need_open(tree, Control::IntentTemp).expect(rt, "an open temp");
    need_open(tree, Control::Intent).expect(rt, "an open place");
    mark_clear(intent, tree, ready)
}

fn finished(
    rt: &(impl AllocGlobal + Abort),
    tree: &mut MemTree,
    intent: OpenIntent,
) -> Result<(), Held> {
    need_open(tree, Control::Intent).expect(rt, "an open place");
    finish(intent, tree)
}

// An intent is begun, which has to work.
fn begin_it(rt: &(impl AllocGlobal + Abort), tree: &mut MemTree, ready: &Ready) -> OpenIntent
    ensures { result ≡ set_form ready.now }
{
    match begun(rt, tree, ready) {
        Ok(intent) => intent,
        Err(held) => {
            give_up(tree, held);
            panic!(rt; "it can't be begun")
        }
    }
}

// It is marked clear, which has to work.
fn mark_it(
    rt: &(impl AllocGlobal + Abort),
    tree: &mut MemTree,
    intent: OpenIntent,
    ready: &Ready,
) -> OpenIntent
    requires { intent ≡ set_form ready.now }
{
    match marked(rt, tree, intent, ready) {
        Ok(intent) => intent,
        Err(held) => {
            give_up(tree, held);
            panic!(rt; "it can't be marked")
        }
    }
}

fn check_intent(rt: &(impl AllocGlobal + Abort), tree: &mut MemTree, wanted: &str) {
    let bytes = bytes_of(rt.alloc(), tree, "keep/intent.json").expect(rt, "an intent");
    assert!(rt; bytes.as_slice() == wanted.as_bytes());
}

#[test]
fn an_intent_is_begun_marked_and_finished(rt: HostRuntime) {
    let ready = ready(&rt, SET);
    let mut tree = world(rt.alloc(), "stage/b/x.txt = \"abc\"").expect(&rt, "a world");
    let intent = begin_it(&rt, &mut tree, &ready);
    check_intent(&rt, &mut tree, SET);
    let intent = mark_it(&rt, &mut tree, intent, &ready);
    check_intent(&rt, &mut tree, CLEAR);
    match finished(&rt, &mut tree, intent) {
        Ok(()) => {}
        Err(held) => {
            give_up(&mut tree, held);
        }
    }
    check_steps(&rt, &tree, WHOLE_WAY);
}

const WHOLE_WAY: &str = "create keep/intent.tmp
fill keep/intent.tmp
firm keep/intent.tmp
rename keep/intent.tmp keep/intent.json
sync keep
create keep/intent.tmp
fill keep/intent.tmp
firm keep/intent.tmp
rename keep/intent.tmp keep/intent.json
sync keep
unlink keep/intent.json
sync keep
";

// What a beginning answers where an old temp is there and this call fails, and its steps. The first
// two calls are looks before it.
fn check_begin(rt: &(impl AllocGlobal + Abort), call: u64, done: bool, held: &str, steps: &str) {
    let ready = ready(rt, SET);
    let mut tree = world(rt.alloc(), "keep/intent.tmp = \"{\"").expect(rt, "a world");
    fail_call(rt.alloc(), &mut tree, call, done).expect(rt, "memory");
    let found = match begun(rt, &mut tree, &ready) {
        Ok(intent) => {
            leave(intent);
            "intent"
        }
        Err(error) => give_up(&mut tree, error),
    };
    assert_eq!(rt; found, held);
    check_steps(rt, &tree, steps);
}

#[test]
fn a_beginning_holds_what_it_has(rt: HostRuntime) {
    for (call, done, held, steps) in [
        (2, false, "nothing", ""),
        (3, false, "nothing", "unlink keep/intent.tmp (not done)\n"),
        (3, true, "nothing", "unlink keep/intent.tmp\n"),
        (4, false, "nothing", "unlink keep/intent.tmp\n"),
        (4, true, "nothing", PUT),
        (5, false, "nothing", NOT_FIRM),
        (6, false, "temp", NOT_RENAMED),
        (6, true, "temp", RENAMED),
        (7, false, "temp", NOT_SYNCED),
        (7, true, "temp", SYNCED),
        (8, false, "intent", SYNCED),
    ] {
        check_begin(&rt, call, done, held, steps);
    }
}

const PUT: &str = "unlink keep/intent.tmp
create keep/intent.tmp
fill keep/intent.tmp
";

const NOT_FIRM: &str = "unlink keep/intent.tmp
create keep/intent.tmp
fill keep/intent.tmp
firm keep/intent.tmp (not done)
";

// The temp is discarded then.
const NOT_RENAMED: &str = "unlink keep/intent.tmp
create keep/intent.tmp
fill keep/intent.tmp
firm keep/intent.tmp
rename keep/intent.tmp keep/intent.json (not done)
unlink keep/intent.tmp
";

const RENAMED: &str = "unlink keep/intent.tmp
create keep/intent.tmp
fill keep/intent.tmp
firm keep/intent.tmp
rename keep/intent.tmp keep/intent.json
";

const NOT_SYNCED: &str = "unlink keep/intent.tmp
create keep/intent.tmp
fill keep/intent.tmp
firm keep/intent.tmp
rename keep/intent.tmp keep/intent.json
sync keep (not done)
";

const SYNCED: &str = "unlink keep/intent.tmp
create keep/intent.tmp
fill keep/intent.tmp
firm keep/intent.tmp
rename keep/intent.tmp keep/intent.json
sync keep
";

// What an end holds where this call fails. The first call is a look before it.
fn check_finish(rt: &(impl AllocGlobal + Abort), call: u64, done: bool, held: &str, steps: &str) {
    let ready = ready(rt, SET);
    let mut tree = world(rt.alloc(), "").expect(rt, "a world");
    let intent = begin_it(rt, &mut tree, &ready);
    let before = tree.ops().len();
    fail_call(rt.alloc(), &mut tree, call, done).expect(rt, "memory");
    let found = match finished(rt, &mut tree, intent) {
        Ok(()) => "nothing",
        Err(error) => give_up(&mut tree, error),
    };
    assert_eq!(rt; found, held);
    check_later(rt, &tree, before, steps);
}

#[test]
fn an_end_holds_the_intent(rt: HostRuntime) {
    for (call, done, held, steps) in [
        (1, false, "intent", ""),
        (2, false, "intent", "unlink keep/intent.json (not done)\n"),
        (2, true, "intent", "unlink keep/intent.json\n"),
        (
            3,
            false,
            "intent",
            "unlink keep/intent.json\nsync keep (not done)\n",
        ),
        (4, false, "nothing", "unlink keep/intent.json\nsync keep\n"),
    ] {
        check_finish(&rt, call, done, held, steps);
    }
}

// What a mark holds where this call fails. The first two calls are looks before it.
fn check_mark(rt: &(impl AllocGlobal + Abort), call: u64, done: bool, held: &str, steps: &str) {
    let ready = ready(rt, SET);
    let mut tree = world(rt.alloc(), "").expect(rt, "a world");
    let intent = begin_it(rt, &mut tree, &ready);
    let before = tree.ops().len();
    fail_call(rt.alloc(), &mut tree, call, done).expect(rt, "memory");
    let found = match marked(rt, &mut tree, intent, &ready) {
        Ok(intent) => {
            leave(intent);
            "nothing"
        }
        Err(error) => give_up(&mut tree, error),
    };
    assert_eq!(rt; found, held);
    check_later(rt, &tree, before, steps);
}

#[test]
fn a_mark_holds_the_intent_and_what_it_has(rt: HostRuntime) {
    for (call, done, held, steps) in [
        (2, false, "intent", ""),
        (3, false, "intent", ""),
        (4, false, "intent", MARK_NOT_FIRM),
        (5, false, "intent and temp", MARK_NOT_RENAMED),
        (6, false, "intent and temp", MARK_NOT_SYNCED),
        (7, false, "nothing", MARKED),
    ] {
        check_mark(&rt, call, done, held, steps);
    }
}

const MARK_NOT_FIRM: &str = "create keep/intent.tmp
fill keep/intent.tmp
firm keep/intent.tmp (not done)
";

const MARK_NOT_RENAMED: &str = "create keep/intent.tmp
fill keep/intent.tmp
firm keep/intent.tmp
rename keep/intent.tmp keep/intent.json (not done)
unlink keep/intent.tmp
";

const MARK_NOT_SYNCED: &str = "create keep/intent.tmp
fill keep/intent.tmp
firm keep/intent.tmp
rename keep/intent.tmp keep/intent.json
sync keep (not done)
";

const MARKED: &str = "create keep/intent.tmp
fill keep/intent.tmp
firm keep/intent.tmp
rename keep/intent.tmp keep/intent.json
sync keep
";
