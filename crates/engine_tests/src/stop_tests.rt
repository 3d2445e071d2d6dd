// Deployments that are stopped at each of their calls.
use crate::stops::{check_recoveries, check_stops};

const TWO_MODS: &str = r#"
    + stage/a/x.txt = "A"
    + stage/b/x.txt = "abc"
"#;

const COVERED: &str = r#"
    + stage/a/x.txt = "A"
    + stage/b/x.txt = "abc"
    + game/x.txt = "game"
"#;

// A deployment with folders to make and to take off, saves, sets and clears.
const OF_EACH_KIND: &str = r#"
    + stage/a/a = "A"
    + stage/a/d/e/x = "A"
    + stage/b/n/m/y = "B"
    + stage/b/z = "B"
    + game/a = "game a"
    + game/z = "game z"
    * version = 1
    * mods = [{id = "a"}, {id = "b", enabled = false}]
    > deploy => 0
    deployed 2, set 2, saved 1
    ~ keep/profile.toml = "version = 1|mods = [{id = "a", enabled = false}, {id = "b"}]"
"#;

#[test]
fn a_first_deployment_is_old_or_new(rt: HostRuntime) {
    check_stops(&rt, TWO_MODS, "deploy");
}

#[test]
fn a_deployment_over_a_file_of_the_game_is_old_or_new(rt: HostRuntime) {
    check_stops(&rt, COVERED, "deploy");
}

#[test]
fn a_deployment_with_a_plan_of_each_kind_is_old_or_new(rt: HostRuntime) {
    check_stops(&rt, OF_EACH_KIND, "deploy");
}

#[test]
fn recoveries_may_be_stopped_as_often(rt: HostRuntime) {
    check_recoveries(&rt, COVERED, "deploy");
}
