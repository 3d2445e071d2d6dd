// Settlements that are stopped at each of their calls.
use crate::stops::{check_calls, check_recoveries, check_stops};

// Others put a file with equal bytes over the link. It has a second name, as the staged file has.
const REPLACED: &str = r#"
    + stage/a/x.txt = "A"
    + stage/b/x.txt = "abc"
    > deploy => 0
    deployed 1, set 1, saved 0
    - game/x.txt
    + game/x.txt = "abc"
    + game/found = game/x.txt
    + game/linked = stage/b/x.txt
"#;

// A row of each class. Folders are made in each of the three roots, and one is taken off.
const OF_EACH_CLASS: &str = r#"
    + stage/b/c = "A"
    + game/c = stage/b/c
    + stage/b/d/d = "A"
    + game/g/
    + game/g/g.vortex_backup = "game g"
    + stage/b/p = "abc"
    + game/p = "A"
    + game/s/s = "A"
    + game/t/
    = c b H0
    = d/d b H0
    = g/g b H0 shadowed
    = p b H0
    = s/s b H0
    = t/t b H0
    = d/
    = s/
    = t/
    + manifest
"#;

#[test]
fn a_settlement_that_imports_is_old_or_new(rt: HostRuntime) {
    check_stops(&rt, REPLACED, "settle --replaced import");
}

#[test]
fn a_settlement_that_reverts_is_old_or_new(rt: HostRuntime) {
    check_stops(&rt, REPLACED, "settle --replaced=revert");
}

// Of the crashes these are the first: no choice, the two that leave the least, the newest, and one
// that mixes them.
const FEW: usize = 5;

const DROPS: &str = "settle --replaced import --deleted drop --source-deleted drop";

#[test]
fn a_settlement_of_each_class_that_stops_before_a_step_is_old_or_new(rt: HostRuntime) {
    check_calls(&rt, OF_EACH_CLASS, "settle", false, FEW);
}

#[test]
fn a_settlement_of_each_class_that_stops_behind_a_step_is_old_or_new(rt: HostRuntime) {
    check_calls(&rt, OF_EACH_CLASS, "settle", true, FEW);
}

#[test]
fn a_settlement_that_drops_and_stops_before_a_step_is_old_or_new(rt: HostRuntime) {
    check_calls(&rt, OF_EACH_CLASS, DROPS, false, FEW);
}

#[test]
fn a_settlement_that_drops_and_stops_behind_a_step_is_old_or_new(rt: HostRuntime) {
    check_calls(&rt, OF_EACH_CLASS, DROPS, true, FEW);
}

#[test]
fn recoveries_of_a_settlement_may_be_stopped_as_often(rt: HostRuntime) {
    check_recoveries(&rt, REPLACED, "settle --replaced import");
}
