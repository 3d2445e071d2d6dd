// `order`: the load order, and what is wrong with the rules.
use crate::tables::play_all;

const CASES: &str = r#"
    == without_a_profile_the_mods_come_in_byte_order
    > order => 0
    + stage/b/x.txt = "B"
    + stage/a!/d/
    + stage/B/
    + stage/a/
    + stage/readme.txt = "no mod"
    > order => 0
    B
    a
    a!
    b

    == the_profiles_order_is_kept_where_no_rule_says_otherwise
    + stage/other/x.txt = "no mod of the profile"
    * version = 1
    > order => 0
    * mods = [{id = "b"}, {id = "a"}, {id = "c", enabled = false}, {id = "B"}]
    > order => 0
    b
    a
    B

    == TURNED:
    * version = 1
    * mods = [{id = "a", rules = [{kind = "after", ref = "b"}]}, {id = "b"}]

    == a_mod_comes_after_the_one_that_its_rule_names from TURNED
    > order => 0
    b
    a

    == the_earliest_free_mod_comes_next
    * version = 1
    * mods = [{id = "a"}, {id = "b"}, {id = "c", rules = [{kind = "before", ref = "a"}]}]
    > order => 0
    b
    c
    a

    == a_cycle_is_told_along_its_edges_from_its_earliest_mod
    * version = 1
    * [[mods]]
    * id = "a"
    * rules = [{kind = "after", ref = "b"}]
    * [[mods]]
    * id = "b"
    * rules = [{kind = "after", ref = "c"}]
    * [[mods]]
    * id = "c"
    * rules = [{kind = "after", ref = "a"}]
    > order => 3
    refused|18|Cycle|a|c|b

    == a_mod_that_must_load_before_itself_is_a_cycle
    * version = 1
    * mods = [{id = "a", rules = [{kind = "after", ref = "a"}]}]
    > order => 3
    refused|18|Cycle|a

    == what_only_hangs_on_a_cycle_is_no_part_of_it
    * version = 1
    * [[mods]]
    * id = "a"
    * [[mods]]
    * id = "b"
    * rules = [{kind = "before", ref = "c"}]
    * [[mods]]
    * id = "c"
    * rules = [{kind = "before", ref = "b"}, {kind = "before", ref = "d"}]
    * [[mods]]
    * id = "d"
    > order => 3
    refused|18|Cycle|b|c

    == a_required_mod_must_be_enabled
    * version = 1
    * mods = [{id = "a", rules = [{kind = "requires", ref = "b"}]}, {id = "b", enabled = false}]
    > order => 3
    refused|16|Missing|a|b
    ==
    * version = 1
    * mods = [{id = "a", rules = [{kind = "requires", ref = "b"}]}, {id = "b", enabled = true}]
    > order => 0
    a
    b

    == a_rule_on_a_mod_that_is_not_there_has_no_effect
    * version = 1
    * [[mods]]
    * id = "a"
    * rules = [{kind = "before", ref = "z"}, {kind = "conflicts", ref = "z"}]
    > order => 0
    a

    == a_conflict_needs_another_enabled_mod
    * version = 1
    * [[mods]]
    * id = "a"
    * rules = [{kind = "conflicts", ref = "a"}, {kind = "conflicts", ref = "c"}]
    * [[mods]]
    * id = "b"
    * rules = [{kind = "recommends", ref = "z"}, {kind = "conflicts", ref = "a"}]
    * [[mods]]
    * id = "c"
    * enabled = false
    * rules = [{kind = "requires", ref = "z"}, {kind = "before", ref = "a"}]
    > order => 3
    refused|17|Conflict|b|a

    == rules_of_a_disabled_mod_and_recommendations_have_no_effect
    * version = 1
    * [[mods]]
    * id = "a"
    * rules = [{kind = "recommends", ref = "b"}, {kind = "recommends", ref = "z"}]
    * [[mods]]
    * id = "b"
    * [[mods]]
    * id = "c"
    * enabled = false
    * rules = [{kind = "requires", ref = "z"}, {kind = "before", ref = "a"}]
    > order => 0
    a
    b

    == the_first_failing_rule_is_told
    # By mod, and then by rule.
    * version = 1
    * [[mods]]
    * id = "b"
    * rules = [{kind = "conflicts", ref = "a"}, {kind = "requires", ref = "z"}]
    * [[mods]]
    * id = "a"
    * rules = [{kind = "requires", ref = "y"}]
    > order => 3
    refused|17|Conflict|b|a
    ==
    * version = 1
    * [[mods]]
    * id = "b"
    * rules = [{kind = "requires", ref = "z"}, {kind = "conflicts", ref = "a"}]
    * [[mods]]
    * id = "a"
    * rules = [{kind = "requires", ref = "y"}]
    > order => 3
    refused|16|Missing|b|z

    == a_failing_rule_is_told_before_a_cycle
    * version = 1
    * [[mods]]
    * id = "a"
    * rules = [{kind = "after", ref = "a"}]
    * [[mods]]
    * id = "b"
    * rules = [{kind = "requires", ref = "z"}]
    > order => 3
    refused|16|Missing|b|z

    == RELEASED:
    * version = 2
    * [[mods]]
    * id = "base"
    * release = "1.4.0"
    * [[mods]]
    * id = "patch"

    == a_range_asks_for_a_release_that_it_matches from RELEASED
    * rules = [{kind = "requires", ref = "base", range = "^1.2"}]
    > order => 0
    base
    patch
    ==
    * rules = [{kind = "requires", ref = "base", range = "^2"}]
    > order => 3
    refused|16|Missing|patch|base

    == a_range_matches_no_mod_without_a_release
    * version = 2
    * [[mods]]
    * id = "base"
    * [[mods]]
    * id = "patch"
    * rules = [{kind = "requires", ref = "base", range = "^1.2"}]
    > order => 3
    refused|16|Missing|patch|base

    == a_rule_whose_range_does_not_match_has_no_effect from RELEASED
    * [[mods.rules]]
    * kind = "before"
    * ref = "base"
    * range = "^2"
    * [[mods.rules]]
    * kind = "conflicts"
    * ref = "base"
    * range = "<1"
    > order => 0
    base
    patch
    ==
    * rules = [{kind = "before", ref = "base", range = "^1"}]
    > order => 0
    patch
    base

    == only_the_mods_of_the_profile_are_limited from TURNED
    + stage/other/
    % mods 2
    > order => 0
    b
    a
    % mods 1
    > order => 3
    refused|10|TooManyMods|2

    == the_mods_without_a_profile_are_limited_too
    + stage/a/
    + stage/b/
    + stage/c = ""
    % mods 2
    > order => 0
    a
    b
    % mods 1
    > order => 3
    refused|10|TooManyMods|2

    == too_many_mods_are_told_before_a_failing_rule
    # The limit counts disabled mods, and is told before any rule.
    * version = 1
    * mods = [{id = "a", rules = [{kind = "requires", ref = "z"}]}, {id = "b", enabled = false}]
    % mods 1
    > order => 3
    refused|10|TooManyMods|2
"#;

#[test]
fn each_case_holds(rt: HostRuntime) {
    play_all(&rt, CASES);
}
