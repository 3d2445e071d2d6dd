// `purge`: the game folder without mods, and what others put over links kept aside.
use crate::tables::play_all;

const CASES: &str = r#"
    == without_rows_the_manifest_alone_goes
    > deploy => 0
    deployed 0, set 0, saved 0
    ? game/ = vortex.deployment.json
    > purge => 0
    purged 0, set 0, saved 0
    ? game/ = nothing
    ? keep/ = nothing
    > purge => 0
    purged 0, set 0, saved 0
    ! sync keep

    == without_a_manifest_nothing_is_done
    + stage/a/q = "A"
    + game/q = "mine"
    + game/d/
    > purge => 0
    purged 0, set 0, saved 0
    ! sync keep
    ? game/ = d q
    ? game/q = "mine"

    == LINKED:
    + stage/a/x.txt = "A"
    + stage/b/x.txt = "abc"
    > deploy => 0
    deployed 1, set 1, saved 0

    == a_link_goes_and_its_staged_file_stays from LINKED
    > purge => 0
    purged 1, set 1, saved 0
    ? game/ = nothing
    ? keep/ = nothing
    ? stage/a/x.txt = "A"
    ? stage/b/x.txt = "abc"
    > check => 0
    changes 0
    > deploy => 0
    deployed 1, set 1, saved 0
    ? game/x.txt = stage/b/x.txt

    == COVERED:
    # The original has a second name, by which it is known again.
    + stage/a/x.txt = "A"
    + stage/b/x.txt = "abc"
    + game/x.txt = "game"
    + game/original = game/x.txt
    > deploy => 0
    deployed 1, set 1, saved 1

    == an_original_comes_back from COVERED
    > purge => 0
    purged 1, set 1, saved 0
    ? game/x.txt = game/original
    ? game/x.txt = "game"
    ? game/ = original x.txt
    ? stage/b/x.txt = "abc"
    ? keep/ = nothing

    == an_original_comes_back_where_the_link_was_removed from COVERED
    - game/x.txt
    > purge => 0
    purged 1, set 1, saved 0
    ? game/x.txt = game/original
    ? game/ = original x.txt

    == without_its_backup_a_link_goes_all_the_same from COVERED
    - game/x.txt.vortex_backup
    > purge => 0
    purged 1, set 1, saved 0
    ? game/ = original
    ? game/original = "game"

    == where_a_link_was_removed_there_is_nothing_to_set from LINKED
    $ &
    $ - stage/b/x.txt &
    $ - stage/b/x.txt & + stage/b/x.txt/
    - game/x.txt
    $1
    $2
    > purge => 0
    purged 1, set 0, saved 0
    ? game/ = nothing

    == a_file_that_others_put_over_a_link_is_kept_aside from COVERED
    - game/x.txt
    + game/x.txt = "new"
    + game/found = game/x.txt
    > purge => 0
    purged 1, set 1, saved 1
    ? keep/aside/1/game/x.txt = game/found
    ? keep/aside/1/game/x.txt = "new"
    ? game/x.txt = game/original
    ? game/ = found original x.txt
    ? stage/b/x.txt = "abc"
    ? keep/ = aside
    ? keep/aside/ = 1
    ? keep/aside/1/ = game

    == an_equal_copy_in_place_of_a_link_is_kept_aside from LINKED
    - game/x.txt
    + game/x.txt = "abc"
    > purge => 0
    purged 1, set 1, saved 1
    ? keep/aside/1/game/x.txt = "abc"
    ? game/ = nothing

    == a_link_that_was_edited_in_place_is_no_file_of_others from LINKED
    # An edit in place is seen through both names.
    ~ game/x.txt = "edited"
    > purge => 0
    purged 1, set 1, saved 0
    ? stage/b/x.txt = "edited"
    ? game/ = nothing

    == a_file_whose_staged_file_is_gone_is_kept_aside from LINKED
    $
    $ + stage/b/x.txt/
    $ + stage/b/x.txt = "abc"
    + game/found = game/x.txt
    - stage/b/x.txt
    $1
    > purge => 0
    purged 1, set 1, saved 1
    ? keep/aside/1/game/x.txt = game/found
    ? game/ = found

    == all_files_of_a_purge_are_kept_under_one_number
    + stage/a/d/x = "A"
    + stage/a/y = "A"
    + stage/a/z = "A"
    > deploy => 0
    deployed 3, set 3, saved 0
    - game/d/x
    + game/d/x = "1"
    - game/z
    + game/z = "2"
    > purge => 0
    purged 3, set 3, saved 2
    ? keep/aside/ = 1
    ? keep/aside/1/game/ = d z
    ? keep/aside/1/game/d/x = "1"
    ? keep/aside/1/game/z = "2"
    ? game/ = nothing

    == what_is_kept_aside_stays_where_it_is from LINKED
    - game/x.txt
    + game/x.txt = "first"
    > purge => 0
    purged 1, set 1, saved 1
    > deploy => 0
    deployed 1, set 1, saved 0
    - game/x.txt
    + game/x.txt = "second"
    > purge => 0
    purged 1, set 1, saved 1
    ? keep/aside/ = 1 2
    ? keep/aside/1/game/x.txt = "first"
    ? keep/aside/2/game/x.txt = "second"

    == the_number_is_one_above_the_greatest_that_is_there from LINKED
    # Of the names below `keep/aside` only numbers without leading zeros count.
    $ 7/ & 8
    $ 12 = "f" & 13
    $ 07/ & 1
    $ 0/ & 1
    $ 4294967296/ & 1
    $ 4294967294/ & 4294967295
    - game/x.txt
    + game/x.txt = "new"
    + game/found = game/x.txt
    + keep/aside/$1
    > purge => 0
    purged 1, set 1, saved 1
    ? keep/aside/$2/game/x.txt = game/found

    == the_last_number_is_not_used_again from COVERED
    $ 4294967295/
    $ 4294967295 = "f"
    - game/x.txt
    + game/x.txt = "new"
    + game/found = game/x.txt
    + keep/aside/$1
    > purge => 3
    refused|35|AsideFull
    ! sync keep
    ? game/x.txt = game/found

    == what_lies_aside_is_no_matter_where_nothing_is_kept from LINKED
    $ keep/aside/4294967295/
    $ keep/aside = "f"
    + $1
    > purge => 0
    purged 1, set 1, saved 0
    ? game/ = nothing

    == the_first_place_in_the_way_is_told from COVERED
    # A row's place comes before its backup's, rows come in path order, and the place for what is
    # kept comes last.
    + stage/a/y = "A"
    > deploy => 0
    deployed 2, set 1, saved 0
    - game/y
    + game/y = "new"
    + keep/aside = "f"
    > purge => 3
    refused|33|Blocked|keep/aside
    - game/y
    + game/y/
    > purge => 3
    refused|33|Blocked|game/y
    - game/x.txt.vortex_backup
    + game/x.txt.vortex_backup/
    > purge => 3
    refused|33|Blocked|game/x.txt.vortex_backup
    - game/x.txt
    + game/x.txt/
    > purge => 3
    refused|33|Blocked|game/x.txt
    ! sync keep

    == a_folder_at_the_backup_place_of_no_original_is_no_matter from LINKED
    + game/x.txt.vortex_backup/
    > purge => 0
    purged 1, set 1, saved 0
    ? game/ = x.txt.vortex_backup

    == IN_FOLDERS:
    + stage/a/d/e/x = "abc"
    > deploy => 0
    deployed 1, set 1, saved 0
    = d/e/x a H1
    = d/
    = d/e/
    ? manifest

    == folders_that_a_deployment_made_go from IN_FOLDERS
    > purge => 0
    purged 1, set 1, saved 0
    ? game/ = nothing
    ? stage/a/d/e/x = "abc"

    == a_folder_with_something_of_others_stays from IN_FOLDERS
    $ d/y = "mine" & y &
    $ d/f/ & f &
    $ d/e/y = "mine" & e & ? game/d/e/ = y
    $ d/e/f/ & e & ? game/d/e/ = f
    + game/$1
    > purge => 0
    purged 1, set 1, saved 0
    ? game/ = d
    ? game/d/ = $2
    $3

    == folders_of_the_game_stay
    + stage/a/d/e/x = "abc"
    + game/d/
    > deploy => 0
    deployed 1, set 1, saved 0
    > purge => 0
    purged 1, set 1, saved 0
    ? game/ = d
    ? game/d/ = nothing

    == a_folder_that_others_made_a_file_of_stays from IN_FOLDERS
    - game/d/e/x
    - game/d/e/
    - game/d/
    + game/d = "mine"
    > purge => 0
    purged 1, set 0, saved 0
    ? game/ = d
    ? game/d = "mine"

    == a_link_is_known_by_the_place_of_its_source
    # The staged file of a mod with a type lies elsewhere than its link.
    + stage/a/x.txt = "abc"
    * version = 2
    * types = [{id = "dll", base = "bin"}]
    * mods = [{id = "a", type = "dll"}]
    > deploy => 0
    deployed 1, set 1, saved 0
    > purge => 0
    purged 1, set 1, saved 0
    ? game/ = nothing
    ? stage/a/x.txt = "abc"

    == what_a_manifest_of_version_1_lists_is_purged
    + stage/b/x.txt = "abc"
    + game/x.txt = stage/b/x.txt
    + game/vortex.deployment.json = "{"files":\
      [{"digest":"H1","mod":"b","path":"x.txt","shadowed":false}],"folders":[],"version":1}"
    > purge => 0
    purged 1, set 1, saved 0
    ? game/ = nothing

    == a_bad_profile_or_mod_does_not_keep_from_a_purge from LINKED
    # Neither the profile nor the mods are read.
    * mods = 3
    + stage/a/y.vortex_backup = "A"
    % mods 0
    % entries 0
    > purge => 0
    purged 1, set 1, saved 0
    ? game/ = nothing

    == a_bad_manifest_is_refused from LINKED
    % text 172
    > purge => 3
    refused|11|TooLong|game/vortex.deployment.json
    ! sync keep
    % text 173
    ~ game/vortex.deployment.json = "{}"
    > purge => 3
    refused|26|ManifestVersion
    ! sync keep
    ? game/x.txt = stage/b/x.txt

    == the_length_of_its_plan_is_limited from COVERED
    - game/x.txt
    + game/x.txt = "new"
    + game/found = game/x.txt
    % text 306
    > purge => 3
    refused|36|PlanTooLong|307
    ! sync keep
    ? game/x.txt = game/found
    % text 307
    > purge => 0
    purged 1, set 1, saved 1

    == words_places_and_an_intent_are_looked_at_first from LINKED
    > purge now => 2
    usage
    > purge --all => 2
    usage
    + keep/intent.tmp = "i"
    + keep/profile.tmp/
    > purge => 3
    refused|33|Blocked|keep/profile.tmp
    ! none
    - keep/profile.tmp/
    + keep/intent.json = "{"clears":["
    > purge => 4
    recover first
    ! none
    - keep/intent.json
    > purge -- => 0
    purged 1, set 1, saved 0
    ? keep/ = nothing

    == a_purge_that_was_stopped_is_carried_to_its_end from COVERED
    # The stop is one after the set form and one after the clear form.
    $ rename keep/intent.tmp keep/intent.json; sync keep & set 1, cleared 1
    $ unlink game/x.txt.vortex_backup; sync game & set 0, cleared 1
    ^ purge => $1
    > recover => 0
    recovered, $2
    ? game/ = original x.txt
    ? game/x.txt = game/original
    ? keep/ = nothing
    > recover => 0
    nothing to recover

    == a_batch_that_ends_early_does_not_purge
    + stage/a/x.txt = "A"
    + stage/b/x.txt = "abc"
    < deploy
    < bad
    < purge
    > batch => 2
    deployed 1, set 1, saved 0
    usage
    ? game/x.txt = stage/b/x.txt
    < purge
    < status
    < purge
    > batch => 0
    purged 1, set 1, saved 0
    files 0
    folders 0
    intent none
    purged 0, set 0, saved 0
    ? game/ = nothing
"#;

#[test]
fn each_case_holds(rt: HostRuntime) {
    play_all(&rt, CASES);
}
