// Plans that are carried out whole.
use crate::looks::need_open_places;
use intent_journal::Ready;
use plan_exec::{ExecError, execute};
use std::process::Abort;
use test_worlds::fail_call;
use tree_mem::MemTree;

// What the whole of a plan answers where this call fails.
pub fn failing_at(
    rt: &(impl AllocGlobal + Abort),
    tree: &mut MemTree,
    ready: &Ready,
    call: u64,
    done: bool,
) -> Result<(), ExecError> {
    need_open_places(tree).expect(rt, "open places");
    fail_call(rt.alloc(), tree, call, done).expect(rt, "memory");
    execute(tree, ready)
}

// Carries out a plan, which has to work within so many calls.
pub fn carry_out(rt: &(impl AllocGlobal + Abort), tree: &mut MemTree, ready: &Ready, calls: u64) {
    failing_at(rt, tree, ready, calls, false).expect(rt, "a plan that can be carried out");
}
