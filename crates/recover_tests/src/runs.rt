// Commands and recoveries of which a call may fail.
ghost use Rattle.std.specs.Prelude.{◌≡◌};
ghost use Rattle.tree_mem.specs.MemStory.{mem_story};

use crate::intents::ready;
use crate::looks::{need_open, need_temps};
use plan_exec::{ExecError, execute};
use recover_run::{RecoverError, Recovered, recover};
use rel_paths::Control;
use std::process::Abort;
use test_worlds::{fail_call, shown};
use tree_mem::MemTree;

// The call that fails, and whether it does its step first.
#[derive(Clone, Copy)]
pub struct Fault {
    pub call: u64,
    pub done: bool,
}

// No call has this number.
pub const NEVER: Fault = Fault {
    call: u64::MAX,
    done: false,
};

fn fail(rt: &(impl AllocGlobal + Abort), tree: &mut MemTree, fault: Fault)
    ensures { mem_story tree.new ≡ mem_story tree.old }
{
    fail_call(rt.alloc(), tree, fault.call, fault.done).expect(rt, "memory");
}

// The plan of an intent is carried out.
pub fn executed(
    rt: &(impl AllocGlobal + Abort),
    tree: &mut MemTree,
    text: &str,
    fault: Fault,
) -> Result<(), ExecError> {
    let ready = ready(rt, text);
    need_open(tree, Control::IntentTemp).expect(rt, "an open temp");
    need_open(tree, Control::Intent).expect(rt, "an open place");
    need_open(tree, Control::ManifestTemp).expect(rt, "an open temp");
    need_open(tree, Control::Manifest).expect(rt, "an open place");
    fail(rt, tree, fault);
    execute(tree, &ready)
}

pub fn recovered(
    rt: &(impl AllocGlobal + Abort),
    tree: &mut MemTree,
    fault: Fault,
) -> Result<Recovered, RecoverError> {
    need_temps(tree).expect(rt, "open temps");
    need_open(tree, Control::Intent).expect(rt, "an open place");
    need_open(tree, Control::Manifest).expect(rt, "an open place");
    fail(rt, tree, fault);
    recover(rt.alloc(), tree)
}

// What recovery answers.
pub fn answer(rt: &(impl AllocGlobal + Abort), outcome: Result<Recovered, RecoverError>) -> String {
    match outcome {
        Ok(Recovered::Nothing) => format!(in rt.alloc(); "nothing").expect(rt, "memory"),
        Ok(Recovered::Finished { sets, clears }) => {
            format!(in rt.alloc(); "set {sets}, cleared {clears}").expect(rt, "memory")
        }
        Err(e) => format!(in rt.alloc(); "{e}").expect(rt, "memory"),
    }
}

// All that lies below the roots.
pub fn desk(rt: &(impl AllocGlobal + Abort), tree: &mut MemTree) -> String {
    let mut text = shown(rt.alloc(), tree, "game").expect(rt, "a look");
    for root in ["keep", "stage"] {
        let below = shown(rt.alloc(), tree, root).expect(rt, "a look");
        text.push_str(below.as_str()).expect(rt, "memory");
    }
    text
}
