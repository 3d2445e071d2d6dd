// `winners`: which mod wins each path, and what can't be deployed.
use crate::script::play;
use crate::tables::play_all;
use std::process::Abort;

const CASES: &str = r#"
    == the_last_mod_of_the_load_order_wins_a_path
    > winners => 0
    + stage/a/x = "A"
    + stage/a/d/y = "A"
    + stage/b/x = "B"
    + stage/b/d.e = "B"
    + stage/b/empty/folder/
    > winners => 0
    d.e|b|order
    d/y|a|order
    x|b|order
    * version = 1
    * mods = [{id = "b"}, {id = "a"}]
    > winners => 0
    d.e|b|order
    d/y|a|order
    x|a|order

    == a_rule_changes_the_winner
    + stage/a/x = "A"
    + stage/b/x = "B"
    * version = 1
    * mods = [{id = "a", rules = [{kind = "after", ref = "b"}]}, {id = "b"}]
    > winners => 0
    x|a|order

    == a_disabled_mod_provides_nothing
    + stage/a/x = "A"
    + stage/b/x = "B"
    + stage/b/y = "B"
    + stage/c/z = "no mod of the profile"
    * version = 1
    * mods = [{id = "a"}, {id = "b", enabled = false}, {id = "gone", enabled = false}]
    > winners => 0
    x|a|order

    == THREE_MODS:
    + stage/a/x = "A"
    + stage/b/x = "B"
    + stage/c/y = "C"
    * version = 1
    * mods = [{id = "a"}, {id = "b"}, {id = "c"}, {id = "d", enabled = false}]

    == an_override_decides_where_its_mod_has_the_file from THREE_MODS
    * overrides = [{path = "x", mod = "a"}]
    > winners => 0
    x|a|override
    y|c|order
    ==
    * overrides = [{path = "x", mod = "b"}, {path = "y", mod = "c"}]
    > winners => 0
    x|b|override
    y|c|override

    == an_override_to_a_mod_that_has_no_such_file_has_no_effect
    + stage/a/y = "A"
    + stage/b/x.txt = "B"
    * version = 1
    * mods = [{id = "a"}, {id = "b"}]
    * overrides = [{path = "x.txt", mod = "a"}, {path = "z", mod = "b"}]
    > winners => 0
    x.txt|b|order
    y|a|order

    == an_override_to_a_disabled_mod_has_no_effect from THREE_MODS
    + stage/d/x = "D"
    * overrides = [{path = "x", mod = "d"}, {path = "y", mod = "z"}]
    > winners => 0
    x|b|order
    y|c|order

    == a_reserved_entry_is_refused
    $ x.vortex_backup = "A" & x.vortex_backup
    $ d/x.vortex_backup/e/ & d/x.vortex_backup
    $ vortex.deployment.json = "A" & vortex.deployment.json
    $ vortex.deployment.json/ & vortex.deployment.json
    + stage/a/$1
    > winners => 3
    refused|22|Reserved|stage/a/$2
    ==
    + stage/a/d/vortex.deployment.json = "A"
    > winners => 0
    d/vortex.deployment.json|a|order

    == a_mod_of_the_profile_needs_its_folder
    + stage/a/x = "A"
    + stage/b = "no folder"
    * version = 1
    * mods = [{id = "a"}, {id = "b"}, {id = "c"}]
    > winners => 3
    refused|19|NoFolder|b
    > order => 0
    a
    b
    c

    == the_first_mod_with_a_fault_is_told
    # Mods are scanned in the profile's order, whatever the load order.
    + stage/a/x.vortex_backup = "A"
    + stage/b/y.vortex_backup = "B"
    * version = 1
    * mods = [{id = "b", rules = [{kind = "after", ref = "a"}]}, {id = "a"}]
    > winners => 3
    refused|22|Reserved|stage/b/y.vortex_backup

    == the_first_entry_of_the_walk_with_a_fault_is_told
    + stage/a/d/z.vortex_backup = "A"
    + stage/a/d.vortex_backup/
    > winners => 3
    refused|22|Reserved|stage/a/d/z.vortex_backup

    == FIVE_ENTRIES:
    + stage/a/d/x = "A"
    + stage/b/y = "B"
    + stage/b/d/e/
    * version = 1
    * mods = [{id = "a"}, {id = "off", enabled = false}, {id = "b"}]
    + stage/off/z = "no matter"

    == entries_of_all_enabled_mods_are_counted_together from FIVE_ENTRIES
    % entries 5
    > winners => 0
    d/x|a|order
    y|b|order
    % entries 4
    > winners => 3
    refused|23|TooManyEntries|4
    % entries 0
    > conflicts => 3
    refused|23|TooManyEntries|0

    == an_entry_over_the_limit_is_told_before_its_own_fault
    + stage/a/x = "A"
    + stage/a/y.vortex_backup = "A"
    % entries 1
    > winners => 3
    refused|23|TooManyEntries|1
    % entries 2
    > winners => 3
    refused|22|Reserved|stage/a/y.vortex_backup

    == a_path_below_another_is_refused
    + stage/a/p = "A"
    + stage/b/p/q = "B"
    > winners => 3
    refused|24|FileAndFolder|p
    > conflicts => 3
    refused|24|FileAndFolder|p

    == the_least_path_with_another_below_it_is_told
    # `d.x` stands between `d` and `d/x` in byte order.
    + stage/a/q = "A"
    + stage/a/d = "A"
    + stage/a/d.x = "A"
    + stage/b/q/r = "B"
    + stage/b/d/x/y = "B"
    > winners => 3
    refused|24|FileAndFolder|d

    == TYPED:
    * version = 2
    * types = [{id = "dll", base = "bin/x64"}, {id = "top", base = "d"}]
    * [[mods]]
    * id = "a"
    * type = "dll"
    * [[mods]]
    * id = "b"

    == the_files_of_a_mod_with_a_base_lie_below_it from TYPED
    + stage/a/x = "A"
    + stage/b/bin/x64/x = "B"
    + stage/b/x = "B"
    > winners => 0
    bin/x64/x|b|order
    x|b|order
    > conflicts => 0
    path|bin/x64/x|b|position|a|b
    pair|a|b

    == rules_and_cycles_are_told_before_any_scan
    * version = 1
    * [[mods]]
    * id = "gone"
    * rules = [{kind = "after", ref = "gone"}]
    > winners => 3
    refused|18|Cycle|gone
    > conflicts => 3
    refused|18|Cycle|gone
    * [[mods]]
    * id = "b"
    * rules = [{kind = "requires", ref = "z"}]
    > winners => 3
    refused|16|Missing|b|z
"#;

#[test]
fn each_case_holds(rt: HostRuntime) {
    play_all(&rt, CASES);
}

// `winners` where the mod a has a file whose name, NAME in what is wanted, has so many bytes.
fn check_name(rt: &(impl AllocGlobal + Abort), count: usize, end: &str) {
    let name = "n".repeat(rt.alloc(), count).expect(rt, "memory");
    let script = format!(in rt.alloc(); "+ stage/a/{name} = \"A\"\n> winners => {end}");
    let text = script.expect(rt, "memory");
    let text = text.as_str().replace(rt.alloc(), "NAME", name.as_str());
    play(rt, "", text.expect(rt, "memory").as_str());
}

#[test]
fn a_name_has_240_bytes_at_most(rt: HostRuntime) {
    check_name(&rt, 240, "0\nNAME|a|order");
    check_name(&rt, 241, "3\nrefused|21|BadEntry|stage/a|NAME");
}

// A path of so many bytes, in names of 200 bytes and a last one.
fn long_path(rt: &(impl AllocGlobal + Abort), count: usize) -> String {
    let name = "n".repeat(rt.alloc(), 199).expect(rt, "memory");
    let mut path = String::new(rt.alloc());
    for _ in 0..5 {
        path.push_str(name.as_str()).expect(rt, "memory");
        path.push('/').expect(rt, "memory");
    }
    let last = "m".repeat(rt.alloc(), count.saturating_sub(1000));
    path.push_str(last.expect(rt, "memory").as_str())
        .expect(rt, "memory");
    path
}

const TEN_BYTES: &str = r#"
    * version = 2
    * types = [{id = "t", base = "base/of/10"}]
    * [[mods]]
    * id = "a"
    * type = "t"
    * [[mods]]
    * id = "b"
"#;

// `winners` where the mod a, with a base of 10 bytes, has a file whose path has so many bytes.
fn check_target(rt: &(impl AllocGlobal + Abort), count: usize, more: &str, end: &str) {
    let path = long_path(rt, count);
    let script = format!(in rt.alloc();
        "+ stage/a/PATH = \"A\"\n+ stage/b/{more}\n> winners => {end}"
    );
    let script = script.expect(rt, "memory");
    let script = script.as_str().replace(rt.alloc(), "PATH", path.as_str());
    play(rt, TEN_BYTES, script.expect(rt, "memory").as_str());
}

#[test]
fn a_path_below_a_base_has_1024_bytes_at_most(rt: HostRuntime) {
    check_target(&rt, 1013, "", "0\nbase/of/10/PATH|a|order");
    check_target(&rt, 1014, "", "3\nrefused|52|TargetLong|a|PATH");
    check_target(&rt, 1020, "", "3\nrefused|52|TargetLong|a|PATH");
}

#[test]
fn a_long_target_is_told_after_all_scans_and_before_the_winners(rt: HostRuntime) {
    let reserved = "3\nrefused|22|Reserved|stage/b/x.vortex_backup";
    check_target(&rt, 1014, "x.vortex_backup = \"B\"", reserved);
    let below = "x = \"B\"\n+ stage/a/y = \"A\"\n+ stage/b/base/of = \"B\"";
    check_target(&rt, 1014, below, "3\nrefused|52|TargetLong|a|PATH");
    check_target(&rt, 1013, below, "3\nrefused|24|FileAndFolder|base/of");
}
