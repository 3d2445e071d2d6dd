// Intents that are found, and the bytes of control files.
ghost use Rattle.std.specs.Prelude.{◌≡◌, IfOk};
ghost use Rattle.tree_fs.specs.Story.{disk_of};
ghost use Rattle.tree_mem.specs.MemStory.{mem_story};
ghost use Rattle.intent_journal.specs.Found.{IsFound};

use crate::intents::{CLEAR, SET, WHOLE};
use crate::looks::{need_control, need_open};
use crate::spent::check_steps;
use intent_journal::{IntentError, adopt_intent, control_bytes, find_intent, leave};
use intent_json::{Intent, Phase, intent_text};
use rel_paths::Control;
use std::process::Abort;
use test_worlds::{fail_call, put_outside, world};
use tree_mem::MemTree;

// A world with these bytes at the intent place.
fn with_intent(rt: &(impl AllocGlobal + Abort), text: &str) -> MemTree {
    let mut tree = world(rt.alloc(), "").expect(rt, "a world");
    put_outside(rt.alloc(), &mut tree, "keep/intent.json", text.as_bytes()).expect(rt, "a file");
    tree
}

fn found(rt: &(impl AllocGlobal + Abort), tree: &mut MemTree) -> Result<Option<Intent>, IntentError>
    ensures { IfOk result (IsFound (disk_of (mem_story tree.new))) }
{
    need_open(tree, Control::Intent).expect(rt, "an open place");
    find_intent(rt.alloc(), tree)
}

// The text of the intent that is found, or the answer in a word.
fn answer_text(rt: &(impl AllocGlobal + Abort), tree: &mut MemTree) -> String {
    match found(rt, tree) {
        Ok(None) => format!(in rt.alloc(); "nothing").expect(rt, "memory"),
        Ok(Some(intent)) => {
            let text = intent_text(rt.alloc(), intent.phase, &intent.plan).expect(rt, "memory");
            String::from_utf8(text).expect(rt, "a text")
        }
        Err(e) => format!(in rt.alloc(); "{e:?}").expect(rt, "memory"),
    }
}

fn check_found(rt: &(impl AllocGlobal + Abort), tree: &mut MemTree, wanted: &str) {
    let text = answer_text(rt, tree);
    assert_eq!(rt; text.as_str(), wanted);
    check_steps(rt, tree, "");
}

#[test]
fn nothing_is_found_where_nothing_is(rt: HostRuntime) {
    let mut tree = world(rt.alloc(), "keep/intent.tmp = \"{}\"").expect(&rt, "a world");
    check_found(&rt, &mut tree, "nothing");
}

#[test]
fn an_intent_is_found_as_it_was_written(rt: HostRuntime) {
    for text in [SET, CLEAR, WHOLE] {
        let mut tree = with_intent(&rt, text);
        check_found(&rt, &mut tree, text);
    }
}

#[test]
fn other_bytes_are_no_intent(rt: HostRuntime) {
    for text in ["", "{", "{\"clears\":[", "{}", &SET[..328]] {
        let mut tree = with_intent(&rt, text);
        check_found(&rt, &mut tree, "BadIntent");
    }
}

#[test]
fn a_look_that_fails_is_told(rt: HostRuntime) {
    for call in 1..4 {
        let mut tree = with_intent(&rt, SET);
        fail_call(rt.alloc(), &mut tree, call, false).expect(&rt, "memory");
        check_found(&rt, &mut tree, "Failed");
    }
}

// The phase of the intent that is adopted, and the steps of that.
fn check_adopted(rt: &(impl AllocGlobal + Abort), text: &str, wanted: Phase) {
    let mut tree = with_intent(rt, text);
    let intent = found(rt, &mut tree).expect(rt, "a look");
    let intent = intent.expect(rt, "an intent");
    match adopt_intent(&mut tree, &intent) {
        Ok(guard) => leave(guard),
        Err(_) => panic!(rt; "it can't be adopted"),
    }
    assert!(rt; intent.phase == wanted);
    check_steps(rt, &tree, "sync keep\n");
}

#[test]
fn an_adopted_intent_is_settled(rt: HostRuntime) {
    check_adopted(&rt, SET, Phase::Set);
    check_adopted(&rt, CLEAR, Phase::Clear);
}

// So many bytes.
fn letters(rt: &(impl AllocGlobal + Abort), count: usize) -> Vec<u8> {
    let mut bytes = Vec::new(rt.alloc());
    bytes.resize(count, b'a').expect(rt, "memory");
    bytes
}

// Whether a file of so many bytes is read whole, where this call fails.
fn is_read(rt: &(impl AllocGlobal + Abort), count: usize, call: u64) -> bool {
    let mut tree = world(rt.alloc(), "").expect(rt, "a world");
    let bytes = letters(rt, count);
    put_outside(rt.alloc(), &mut tree, "keep/profile.toml", &bytes).expect(rt, "a file");
    fail_call(rt.alloc(), &mut tree, call, false).expect(rt, "memory");
    need_control(&mut tree, Control::Profile).expect(rt, "a file");
    match control_bytes(rt.alloc(), &mut tree, Control::Profile) {
        Ok(read) => read.as_slice() == bytes.as_slice(),
        Err(_) => false,
    }
}

#[test]
fn a_file_is_read_in_parts_of_65536_bytes(rt: HostRuntime) {
    for (count, calls) in [(0, 2), (1, 3), (65_536, 3), (65_537, 4), (131_073, 5)] {
        assert!(&rt; !is_read(&rt, count, calls - 1), "of {count} bytes");
        assert!(&rt; is_read(&rt, count, calls), "of {count} bytes");
    }
}
