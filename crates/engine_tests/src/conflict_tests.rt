// `conflicts`: the paths that more than one mod provides, and the pairs that no rule decides.
use crate::tables::play_all;

const CASES: &str = r#"
    == TWO_MODS:
    + stage/a/x.txt = "A"
    + stage/b/x.txt = "abc"

    == where_no_rule_speaks_the_position_decides from TWO_MODS
    > conflicts => 0
    path|x.txt|b|position|a|b
    pair|a|b

    == where_a_rule_decides_there_is_no_pair from TWO_MODS
    * version = 1
    * mods = [{id = "a", rules = [{kind = "after", ref = "b"}]}, {id = "b"}]
    > conflicts => 0
    path|x.txt|a|rule|b|a

    == without_conflicts_nothing_is_printed
    > conflicts => 0
    + stage/a/x = "A"
    + stage/b/y = "B"
    + stage/c/x = "C"
    * version = 1
    * mods = [{id = "a"}, {id = "b"}, {id = "c", enabled = false}]
    > conflicts => 0

    == CHAIN:
    + stage/a/x = "A"
    + stage/b/x = "B"
    + stage/c/x = "C"
    * version = 1
    * [[mods]]
    * id = "a"
    * [[mods]]
    * id = "b"
    * rules = [{kind = "after", ref = "a"}]
    * [[mods]]
    * id = "c"
    * rules = [{kind = "after", ref = "b"}]

    == rules_decide_along_a_chain from CHAIN
    > conflicts => 0
    path|x|c|rule|a|b|c

    == an_override_is_the_reason_where_it_decides from CHAIN
    * [[overrides]]
    * path = "x"
    * mod = "a"
    > conflicts => 0
    path|x|a|override|a|b|c

    == an_override_that_does_not_decide_is_no_reason from CHAIN
    * [[overrides]]
    * path = "x"
    * mod = "z"
    > conflicts => 0
    path|x|c|rule|a|b|c

    == a_rule_is_the_reason_only_where_each_other_mod_leads_to_the_winner
    # The rule of c decides against a, and not against b.
    + stage/a/x = "A"
    + stage/b/x = "B"
    + stage/c/x = "C"
    * version = 1
    * mods = [{id = "a"}, {id = "b"}, {id = "c", rules = [{kind = "after", ref = "a"}]}]
    > conflicts => 0
    path|x|c|position|a|b|c
    pair|a|b
    pair|b|c

    == providers_come_in_load_order_and_pairs_in_the_profiles
    # The load order is a, c, b; the profile's is c, a, b.
    + stage/a/x = "A"
    + stage/b/x = "B"
    + stage/c/x = "C"
    * version = 1
    * mods = [{id = "c", rules = [{kind = "after", ref = "a"}]}, {id = "a"}, {id = "b"}]
    > conflicts => 0
    path|x|b|position|a|c|b
    pair|c|b
    pair|a|b

    == a_pair_is_told_once_for_all_its_paths
    + stage/a/d/x = "A"
    + stage/a/y = "A"
    + stage/a/z = "A"
    + stage/b/d/x = "B"
    + stage/b/y = "B"
    + stage/c/z = "C"
    > conflicts => 0
    path|d/x|b|position|a|b
    path|y|b|position|a|b
    path|z|c|position|a|c
    pair|a|b
    pair|a|c

    == a_walk_may_lead_through_a_mod_that_has_no_such_file
    # A walk leads from a by way of the mod between, which has no such file.
    + stage/a/x = "A"
    + stage/between/other = "M"
    + stage/c/x = "C"
    * version = 1
    * [[mods]]
    * id = "c"
    * rules = [{kind = "after", ref = "between"}]
    * [[mods]]
    * id = "between"
    * rules = [{kind = "after", ref = "a"}]
    * [[mods]]
    * id = "a"
    > conflicts => 0
    path|x|c|rule|a|c
"#;

#[test]
fn each_case_holds(rt: HostRuntime) {
    play_all(&rt, CASES);
}
