// Edits of the profile: what they answer, and what the profile reads as afterwards.
use crate::tables::play_all;

const CASES: &str = r#"
    == TWO_MODS:
    + stage/a/x.txt = "A"
    + stage/b/x.txt = "abc"

    == a_mod_that_is_disabled_is_taken_off from TWO_MODS
    > deploy => 0
    deployed 1, set 1, saved 0
    > disable b => 0
    profile written
    ? game/x.txt = stage/b/x.txt
    > deploy => 0
    deployed 1, set 1, saved 0
    ? game/x.txt = stage/a/x.txt
    > disable b => 0
    profile unchanged
    ! sync keep
    > enable b => 0
    profile written
    > deploy => 0
    deployed 1, set 1, saved 0
    ? game/x.txt = stage/b/x.txt

    == IN_A_FOLDER:
    + stage/a/d/x.txt = "abc"
    > deploy => 0
    deployed 1, set 1, saved 0
    = d/x.txt a H1
    = d/
    ? manifest
    > disable a => 0
    profile written

    == the_folder_of_a_mod_that_is_disabled_goes_unless_others_use_it from IN_A_FOLDER
    > deploy => 0
    deployed 0, set 1, saved 0
    ? game/ = vortex.deployment.json
    ? manifest
    ==
    + game/d/y = "mine"
    > deploy => 0
    deployed 0, set 1, saved 0
    ? game/d/ = y
    ? game/d/y = "mine"
    = d/
    ? manifest

    == a_mod_that_is_enabled_anew_is_the_last from TWO_MODS
    + stage/c/x.txt = "C"
    * version = 1
    * mods = [{id = "c"}, {id = "b", enabled = false}]
    > enable a => 0
    profile written
    > enable b => 0
    profile written
    > order => 0
    c
    b
    a
    > enable z => 0
    profile written
    > order => 0
    c
    b
    a
    z
    > winners => 3
    refused|19|NoFolder|z

    == without_a_profile_the_mods_that_are_there_are_written from TWO_MODS
    > enable a => 0
    profile unchanged
    ! sync keep
    ? keep/ = nothing
    > disable a => 0
    profile written
    + stage/c/x.txt = "C"
    > order => 0
    b
    > disable c => 3
    refused|12|NoMod|c
    > enable c => 0
    profile written
    > order => 0
    b
    c

    == a_rule_is_added_once from TWO_MODS
    > rule a after b => 0
    profile written
    > order => 0
    b
    a
    > rule a after b => 3
    refused|13|SameRule
    ! sync keep
    > drop-override q => 3
    refused|15|NoOverride|q
    ! sync keep
    > enable z => 0
    profile written
    > order => 0
    b
    a
    z

    == each_kind_of_rule_has_its_word from TWO_MODS
    > rule b before a => 0
    profile written
    > order => 0
    b
    a
    > rule b recommends z => 0
    profile written
    > order => 0
    b
    a
    > rule a conflicts b => 0
    profile written
    > order => 3
    refused|17|Conflict|a|b
    > drop-rule a conflicts b => 0
    profile written
    > rule a requires z => 0
    profile written
    > order => 3
    refused|16|Missing|a|z
    > enable z => 0
    profile written
    > rule z after z => 0
    profile written
    > order => 3
    refused|18|Cycle|z

    == a_rule_is_dropped_by_its_kind_and_reference from TWO_MODS
    > rule a after b => 0
    profile written
    > drop-rule a before b => 3
    refused|14|NoRule
    > drop-rule a after a => 3
    refused|14|NoRule
    > drop-rule b after a => 3
    refused|14|NoRule
    ! sync keep
    > drop-rule a after b => 0
    profile written
    > order => 0
    a
    b
    > drop-rule a after b => 3
    refused|14|NoRule

    == the_first_such_rule_is_dropped
    # Of two rules of one kind and reference the first goes, whatever their ranges.
    * version = 2
    * [[mods]]
    * id = "base"
    * release = "1.4.0"
    * [[mods]]
    * id = "patch"
    * rules = [{kind = "requires", ref = "base", range = "^2"}, \
      {kind = "requires", ref = "base"}]
    > order => 3
    refused|16|Missing|patch|base
    > rule patch requires base => 3
    refused|13|SameRule
    > drop-rule patch requires base => 0
    profile written
    > order => 0
    base
    patch
    > drop-rule patch requires base => 0
    profile written
    > drop-rule patch requires base => 3
    refused|14|NoRule

    == an_override_is_set_changed_and_dropped from TWO_MODS
    > override x.txt a => 0
    profile written
    > winners => 0
    x.txt|a|override
    > override x.txt a => 0
    profile unchanged
    ! sync keep
    > override x.txt b => 0
    profile written
    > winners => 0
    x.txt|b|override
    > override d/y a => 0
    profile written
    > drop-override x.txt => 0
    profile written
    > winners => 0
    x.txt|b|order
    > drop-override x.txt => 3
    refused|15|NoOverride|x.txt
    > drop-override d/y => 0
    profile written

    == the_mod_of_an_edit_must_be_in_the_profile from TWO_MODS
    $ disable z
    $ rule z after a
    $ drop-rule z after a
    $ override x.txt z
    > $1 => 3
    refused|12|NoMod|z
    ! sync keep
    ? keep/ = nothing
    ==
    > rule a after z => 0
    profile written

    == the_number_of_mods_is_limited from TWO_MODS
    % mods 2
    > enable z => 3
    refused|10|TooManyMods|3
    ! sync keep
    > enable b => 0
    profile unchanged
    > disable b => 0
    profile written
    > enable b => 0
    profile written
    % mods 1
    > disable b => 3
    refused|10|TooManyMods|2
    ! sync keep

    == RANGED:
    * version = 2
    * mods = [{id = "base", release = "1.4.0"}, {id = "patch", \
      rules = [{kind = "requires", ref = "base", range = "^2"}]}]

    == a_release_is_set_and_rules_with_ranges_go_by_it from RANGED
    > order => 3
    refused|16|Missing|patch|base
    > release base 2.1.0 => 0
    profile written
    > order => 0
    base
    patch
    > release base 2.1.0 => 0
    profile unchanged
    ! sync keep
    > release base 3.0.0 => 0
    profile written
    > order => 3
    refused|16|Missing|patch|base
    > release z 1.0.0 => 3
    refused|12|NoMod|z

    == a_profile_is_upgraded_once from TWO_MODS
    > release a 1.0.0 => 3
    refused|49|OldProfile
    ! sync keep
    > release z 1.0.0 => 3
    refused|49|OldProfile
    > upgrade => 0
    profile written
    > upgrade => 0
    profile unchanged
    ! sync keep
    > release a 1.0 => 2
    usage
    ! none
    > release a 1.0.0 => 0
    profile written
    > order => 0
    a
    b

    == an_unknown_key_that_version_2_knows_keeps_from_an_upgrade
    # A profile of version 1 and the key that version 2 would read otherwise.
    $ mods = [{id = "a", release = 1}] & mods[0].release
    $ mods = [{id = "a", type = "t", release = 1}] & mods[0].release
    $ mods = [{id = "a"}, {id = "b", type = "t"}] & mods[1].type
    $ mods = [{id = "a", rules = [{kind = "after", ref = "b", range = "1"}]}] & \
      mods[0].rules[0].range
    $ types = []|mods = [{id = "a", release = 1}] & types
    $ types = []|fold = true & fold
    + keep/profile.toml = "version = 1|$1"
    > upgrade => 3
    refused|48|KeyTaken|$2
    ! sync keep
    ? keep/profile.toml = "version = 1|$1"

    == unknown_keys_are_kept
    # An unknown key in each table, which an upgrade finds again one after the other.
    $ fold & fold = 1|mods = [{id = "a"}, {id = "b"}]
    $ mods[1].type & mods = [{id = "a"}, {id = "b", type = 1}]
    $ mods[1].rules[0].range & \
      mods = [{id='a'}, {id='b', rules = [{kind='after', ref='c', range=1}]}]
    + keep/profile.toml = "version = 1|$2"
    > disable a => 0
    profile written
    > rule b before c => 0
    profile written
    > override x b => 0
    profile written
    > upgrade => 3
    refused|48|KeyTaken|$1

    == OF_ALL_KINDS:
    + stage/base/x = "B"
    + stage/patch/x = "P"
    + stage/c/bin/x = "C"
    * version = 2
    * types = [{id = "dll", base = "bin"}]
    * mods = [{id = "patch", type = "dll", \
      rules = [{kind = "after", ref = "base", range = "^1"}]}, \
      {id = "base", release = "1.4.0"}, {id = "c"}]
    * overrides = [{path = "bin/x", mod = "patch"}]

    == an_edit_keeps_what_it_does_not_name from OF_ALL_KINDS
    > disable c => 0
    profile written
    > enable c => 0
    profile written
    > order => 0
    base
    patch
    c
    > winners => 0
    bin/x|patch|override
    x|base|order
    > release base 2.0.0 => 0
    profile written
    > order => 0
    patch
    base
    c
    > drop-override bin/x => 0
    profile written
    > winners => 0
    bin/x|c|order
    x|base|order

    == an_edit_goes_through_a_temp_and_touches_nothing_else from TWO_MODS
    + keep/intent.tmp = "i"
    + keep/profile.tmp = "p"
    > disable b => 0
    profile written
    ! unlink keep/intent.tmp; unlink keep/profile.tmp; sync keep; \
      create keep/profile.tmp; fill keep/profile.tmp; firm keep/profile.tmp; \
      rename keep/profile.tmp keep/profile.toml; sync keep
    ? keep/ = profile.toml
    ? game/ = nothing

    == a_profile_that_is_not_changed_keeps_its_bytes
    # The bytes of a profile stay where an edit is refused or changes nothing.
    + keep/profile.toml = "version=1||mods = [ {id='a'} ] # mine"
    > enable a => 0
    profile unchanged
    > disable b => 3
    refused|12|NoMod|b
    ? keep/profile.toml = "version=1||mods = [ {id='a'} ] # mine"
    > disable a => 0
    profile written
    > order => 0

    == a_profile_that_cannot_be_read_is_not_edited
    * version = 1
    * mods = 3
    > enable z => 3
    refused|5|ProfileShape|mods
    ! sync keep
    > upgrade => 3
    refused|5|ProfileShape|mods
    ? keep/profile.toml = "version = 1|mods = 3|"

    == an_edit_is_made_where_a_deployment_would_be_refused
    # Neither the rules nor the mods nor the manifest are looked at.
    * version = 1
    * mods = [{id = "a", rules = [{kind = "requires", ref = "b"}]}]
    + game/vortex.deployment.json = "{}"
    > drop-rule a requires b => 0
    profile written
    > order => 0
    a

    == words_in_no_form_of_an_edit_are_usage from TWO_MODS
    $ enable
    $ enable a b
    $ enable a/b
    $ disable -a
    $ rule a after
    $ rule a likes b
    $ rule a after b c
    $ rule -a after b
    $ drop-rule a after ..
    $ override x.txt
    $ override /x.txt a
    $ override a/../x a
    $ drop-override x.txt a
    $ drop-override d/
    $ release a
    $ release a 1.0
    $ release a one
    $ upgrade now
    $ upgrade --help
    > $1 => 2
    usage

    == two_dashes_let_words_begin_with_a_dash from TWO_MODS
    > rule -- -a after b => 3
    refused|12|NoMod|-a
    > enable -- -- => 0
    profile written
    > enable -- -a => 0
    profile written
    > order => 0
    a
    b
    --
    -a
    > enable - => 0
    profile written
    > disable -- - => 0
    profile written

    == places_and_an_intent_are_looked_at_before_the_profile from TWO_MODS
    $ enable z
    $ drop-override q
    $ upgrade
    * mods = 3
    + keep/intent.tmp/
    > $1 => 3
    refused|33|Blocked|keep/intent.tmp
    ! none
    - keep/intent.tmp/
    + keep/intent.json = ""
    > $1 => 4
    recover first
    ! none

    == a_batch_of_edits_is_done_line_by_line from TWO_MODS
    < rule|a|after|b
    < deploy
    < disable|a
    < disable|z
    < enable|a
    > batch => 3
    profile written
    deployed 1, set 1, saved 0
    profile written
    refused|12|NoMod|z
    ? game/x.txt = stage/a/x.txt
    > order => 0
    b
"#;

#[test]
fn each_case_holds(rt: HostRuntime) {
    play_all(&rt, CASES);
}
