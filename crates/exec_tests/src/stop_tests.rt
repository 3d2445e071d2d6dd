// Deployments that are stopped: each call fails in turn, and then the machine may stop.
use crate::carrying::failing_at;
use crate::deployments::{
    COVERING, Deployment, FIRST, MAKING, TAKING_OFF, UNCOVERING, desk_text, world_before,
};
use crate::manifests::written_out;
use crate::plans::ready;
use crate::recovery::recover;
use intent_journal::Ready;
use plan_exec::ExecError;
use std::process::Abort;
use tree_mem::MemTree;

// What a stop picks of the values that the pending places held.
const CHOICES: [&[u32]; 5] = [
    &[],
    &[0],
    &[0, 0, 0, 0, 0, 0, 0, 0],
    &[1, 1, 1, 1, 1, 1, 1, 1],
    &[0, 1, 0, 1, 0, 1, 0],
];

// A deployment, what its steps need, and its two desks.
#[derive(Drop)]
struct Trial {
    deployment: Deployment,
    ready: Ready,
    old: String,
    new: String,
}

fn trial_of(rt: &(impl AllocGlobal + Abort), deployment: &Deployment) -> Trial {
    Trial {
        deployment: *deployment,
        ready: ready(rt, deployment.plan),
        old: written_out(rt, deployment.old),
        new: written_out(rt, deployment.new),
    }
}

// Recovery leads to the old desk or to the new one.
fn check_recovered(rt: &(impl AllocGlobal + Abort), trial: &Trial, tree: &mut MemTree) {
    recover(rt, tree);
    let desk = desk_text(rt, tree);
    let text = desk.as_str();
    assert!(rt;
        text == trial.old.as_str() || text == trial.new.as_str(),
        "{text}"
    );
}

fn check_left(rt: &(impl AllocGlobal + Abort), trial: &Trial, tree: &MemTree, choices: &[u32]) {
    let mut left = tree.crash(rt.alloc(), choices).expect(rt, "memory");
    check_recovered(rt, trial, &mut left);
}

// It does so of each disk that a stop leaves by the choices, by any of three values at each of the
// first three pending places, and without a stop.
fn check_stopped(rt: &(impl AllocGlobal + Abort), trial: &Trial, tree: &mut MemTree) {
    for choices in CHOICES {
        check_left(rt, trial, tree, choices);
    }
    for number in 0..27 {
        check_left(rt, trial, tree, &[number / 9, number / 3 % 3, number % 3]);
    }
    check_recovered(rt, trial, tree);
}

// Whether the deployment has a call of this number. Where that fails, its step done or not, the
// answer tells it, and recovery is checked.
fn check_call(rt: &(impl AllocGlobal + Abort), trial: &Trial, call: u64, done: bool) -> bool {
    let mut tree = world_before(rt, &trial.deployment);
    match failing_at(rt, &mut tree, &trial.ready, call, done) {
        Ok(()) => false,
        Err(error) => {
            assert!(rt; error == ExecError::Failed, "{error}");
            check_stopped(rt, trial, &mut tree);
            true
        }
    }
}

// So it is for each call of the deployment, of which there are fewer than a hundred; the first one
// that it doesn't have is behind all that it has.
fn check_calls(rt: &(impl AllocGlobal + Abort), deployment: &Deployment) {
    let trial = trial_of(rt, deployment);
    let mut goes_on = true;
    for call in 0..100 {
        let fails = check_call(rt, &trial, call, false);
        assert!(rt;
            goes_on || !fails,
            "a call before {call} failed, and no answer told it"
        );
        if fails {
            check_call(rt, &trial, call, true);
        }
        goes_on = fails;
    }
    assert!(rt; !goes_on, "a deployment without an end");
}

#[test]
fn a_stop_in_a_first_deployment_leaves_the_old_desk_or_the_new_one(rt: HostRuntime) {
    check_calls(&rt, &FIRST);
}

#[test]
fn a_stop_while_a_file_is_covered_leaves_the_old_desk_or_the_new_one(rt: HostRuntime) {
    check_calls(&rt, &COVERING);
}

#[test]
fn a_stop_while_a_covered_file_comes_back_leaves_the_old_desk_or_the_new_one(rt: HostRuntime) {
    check_calls(&rt, &UNCOVERING);
}

#[test]
fn a_stop_in_a_deployment_into_a_new_folder_leaves_the_old_desk_or_the_new_one(rt: HostRuntime) {
    check_calls(&rt, &MAKING);
}

#[test]
fn a_stop_while_a_folder_is_taken_off_leaves_the_old_desk_or_the_new_one(rt: HostRuntime) {
    check_calls(&rt, &TAKING_OFF);
}
