// `plan`: what a deployment would do, and nothing of it done.
use crate::tables::play_all;

const CASES: &str = r#"
    == a_plan_tells_what_a_deployment_would_do
    > plan => 0
    files 0
    + stage/a/x.txt = "A"
    + stage/b/x.txt = "abc"
    > plan => 0
    set|game/x.txt|stage/b/x.txt
    files 1
    + game/x.txt = "game"
    > plan => 0
    save|game/x.txt|game/x.txt.vortex_backup
    set|game/x.txt|stage/b/x.txt
    files 1
    ? game/ = x.txt
    > deploy => 0
    deployed 1, set 1, saved 1
    > plan => 0
    files 1

    == each_kind_of_line_comes_in_its_order
    + stage/a/a = "A"
    + stage/a/d/e/x = "A"
    + stage/b/n/m/y = "B"
    + stage/b/z = "B"
    + game/a = "game"
    + game/z = "game"
    * version = 1
    * mods = [{id = "a"}, {id = "b", enabled = false}]
    > deploy => 0
    deployed 2, set 2, saved 1
    ~ keep/profile.toml = "version = 1|mods = [{id = "a", enabled = false}, {id = "b"}]"
    > plan => 0
    folder|game/n
    folder|game/n/m
    save|game/z|game/z.vortex_backup
    set|game/a|game/a.vortex_backup
    set|game/d/e/x|-
    set|game/n/m/y|stage/b/n/m/y
    set|game/z|stage/b/z
    clear|game/a.vortex_backup
    remove|game/d/e
    remove|game/d
    files 2

    == saves_come_in_the_order_of_their_destinations
    # Backups don't keep the order of their paths.
    + stage/b/a = "B"
    + stage/b/a! = "B"
    + game/a = "game"
    + game/a! = "game"
    > plan => 0
    save|game/a!|game/a!.vortex_backup
    save|game/a|game/a.vortex_backup
    set|game/a|stage/b/a
    set|game/a!|stage/b/a!
    files 2

    == a_plan_is_refused_as_its_deployment_is
    + stage/a/p = "A"
    + game/p = "game"
    + game/p.vortex_backup = "k"
    > plan => 3
    refused|34|BackupTaken|p
    - game/p.vortex_backup
    - game/p
    + game/p/
    > plan => 3
    refused|33|Blocked|game/p
    = p/q a H1
    + manifest
    > plan => 3
    refused|31|ChangesFound|p/q|1
    * version = 3
    > plan => 3
    refused|4|ProfileVersion
    + keep/intent.json = ""
    > plan => 4
    recover first

    == a_turned_path_is_told_before_what_is_in_the_way
    + stage/a/p/q = "abc"
    + game/p/q = stage/a/p/q
    = p/q a H1
    + manifest
    * version = 1
    * mods = [{id = "b"}]
    + stage/b/p = "B"
    + stage/b/z = "B"
    + game/z/
    > plan => 3
    refused|32|Turned|p

    == a_long_plan_is_printed
    # The length of a plan is no matter to `plan`.
    + stage/b/x.txt = "abc"
    % text 10
    > plan => 0
    set|game/x.txt|stage/b/x.txt
    files 1
    > deploy => 3
    refused|36|PlanTooLong|331
"#;

#[test]
fn each_case_holds(rt: HostRuntime) {
    play_all(&rt, CASES);
}
