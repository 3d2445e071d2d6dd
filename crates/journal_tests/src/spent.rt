// Guards that are spent, and what they were.
use intent_journal::{Held, OpenIntent, TempFile, discard, leave};
use std::process::Abort;
use test_worlds::steps_of;
use tree_mem::MemTree;

// Spends what an error holds, and says what that is.
pub fn give_up(tree: &mut MemTree, held: Held) -> &'static str {
    let Held {
        error: _,
        intent,
        temp,
    } = held;
    let left = leave_it(intent);
    let gone = discard_it(tree, temp);
    match (left, gone) {
        (true, true) => "intent and temp",
        (true, false) => "intent",
        (false, true) => "temp",
        (false, false) => "nothing",
    }
}

fn leave_it(intent: Option<OpenIntent>) -> bool {
    match intent {
        Some(intent) => {
            leave(intent);
            true
        }
        None => false,
    }
}

fn discard_it(tree: &mut MemTree, temp: Option<TempFile>) -> bool {
    match temp {
        Some(temp) => {
            let _ = discard(temp, tree);
            true
        }
        None => false,
    }
}

// The steps since the story began.
pub fn check_steps(rt: &(impl AllocGlobal + Abort), tree: &MemTree, wanted: &str) {
    let steps = steps_of(rt.alloc(), tree).expect(rt, "memory");
    assert_eq!(rt; steps.as_str(), wanted);
}

// The steps behind the first so many.
pub fn check_later(rt: &(impl AllocGlobal + Abort), tree: &MemTree, before: usize, wanted: &str) {
    let steps = steps_of(rt.alloc(), tree).expect(rt, "memory");
    let mut later = String::new(rt.alloc());
    for line in steps.as_str().lines().skip(before) {
        later.push_str(line).expect(rt, "memory");
        later.push('\n').expect(rt, "memory");
    }
    assert_eq!(rt; later.as_str(), wanted);
}
