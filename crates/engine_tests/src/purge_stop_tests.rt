// Purges that are stopped at each of their calls.
use crate::stops::{check_recoveries, check_stops};

// Others put a file over a link that covers a file of the game. Both have a second name.
const REPLACED: &str = r#"
    + stage/a/x.txt = "A"
    + stage/b/x.txt = "abc"
    + game/x.txt = "game"
    + game/original = game/x.txt
    > deploy => 0
    deployed 1, set 1, saved 1
    - game/x.txt
    + game/x.txt = "new"
    + game/found = game/x.txt
"#;

// A purge that makes folders and takes some off, keeps files aside, and gives originals back.
const OF_EACH_KIND: &str = r#"
    + stage/a/a = "A"
    + stage/a/b = "A"
    + stage/a/d/e/x = "A"
    + stage/a/d/e/y = "A"
    + game/a = "game a"
    + game/b = "game b"
    > deploy => 0
    deployed 4, set 4, saved 2
    - game/b
    - game/d/e/y
    + game/d/e/y = "A"
"#;

#[test]
fn a_purge_of_nothing_but_the_manifest_is_old_or_new(rt: HostRuntime) {
    check_stops(&rt, "+ manifest", "purge");
}

#[test]
fn a_purge_with_a_file_kept_aside_is_old_or_new(rt: HostRuntime) {
    check_stops(&rt, REPLACED, "purge");
}

#[test]
fn a_purge_with_a_plan_of_each_kind_is_old_or_new(rt: HostRuntime) {
    check_stops(&rt, OF_EACH_KIND, "purge");
}

#[test]
fn recoveries_of_a_purge_may_be_stopped_as_often(rt: HostRuntime) {
    check_recoveries(&rt, REPLACED, "purge");
}
