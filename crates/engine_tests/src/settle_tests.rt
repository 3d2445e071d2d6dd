// `settle`: changes by others, taken back, taken over or kept aside, by the options.
use crate::tables::play_all;

const CASES: &str = r#"
    == LINKED:
    + stage/a/x.txt = "A"
    + stage/b/x.txt = "abc"
    > deploy => 0
    deployed 1, set 1, saved 0

    == without_changes_nothing_is_done from LINKED
    > settle => 0
    settled 0, set 0, saved 0
    ! sync keep
    ? game/x.txt = stage/b/x.txt
    = x.txt b H1
    ? manifest

    == without_a_manifest_an_empty_one_is_written
    + stage/a/q = "A"
    + game/q = "mine"
    > settle => 0
    settled 0, set 0, saved 0
    ? game/ = q vortex.deployment.json
    ? manifest
    ? game/q = "mine"
    > settle => 0
    settled 0, set 0, saved 0
    ! sync keep

    == an_edit_in_place_is_kept from LINKED
    ~ game/x.txt = ""
    > check => 1
    Changed|x.txt
    changes 1
    > settle => 0
    settled 1, set 0, saved 0
    = x.txt b H0
    ? manifest
    ? game/x.txt = stage/b/x.txt
    ? keep/ = nothing
    > check => 0
    changes 0

    == a_staged_file_that_was_removed_is_restored from LINKED
    + game/found = game/x.txt
    - stage/b/x.txt
    > check => 1
    SourceDeleted|x.txt
    changes 1
    > settle => 0
    settled 1, set 1, saved 0
    ? stage/b/x.txt = game/found
    ? game/x.txt = game/found
    = x.txt b H1
    ? manifest
    ? keep/ = nothing
    > check => 0
    changes 0

    == a_link_whose_staged_file_was_removed_is_dropped_where_asked from LINKED
    + game/found = game/x.txt
    - stage/b/x.txt
    > settle --source-deleted drop => 0
    settled 1, set 1, saved 1
    ? keep/aside/1/game/x.txt = game/found
    ? game/ = found vortex.deployment.json
    ? stage/b/ = nothing
    ? manifest
    > check => 0
    changes 0

    == REPLACED:
    # Others put a file with equal bytes over the link. It has a second name, as the staged file
    # has.
    + stage/a/x.txt = "A"
    + stage/b/x.txt = "abc"
    > deploy => 0
    deployed 1, set 1, saved 0
    - game/x.txt
    + game/x.txt = "abc"
    + game/found = game/x.txt
    + game/linked = stage/b/x.txt

    == a_file_over_a_link_is_kept_aside from REPLACED
    > settle => 0
    settled 1, set 1, saved 1
    ? keep/aside/1/game/x.txt = game/found
    ? game/x.txt = game/linked
    ? game/x.txt = stage/b/x.txt
    = x.txt b H1
    ? manifest
    ? keep/ = aside
    > check => 0
    changes 0

    == a_file_over_a_link_is_imported_where_asked from REPLACED
    > settle --replaced import => 0
    settled 1, set 1, saved 1
    ? stage/b/x.txt = game/found
    ? game/x.txt = game/found
    ? keep/aside/1/stage/b/x.txt = game/linked
    ? keep/aside/1/ = stage
    = x.txt b H1
    ? manifest
    > check => 0
    changes 0

    == a_file_over_a_link_is_given_up_where_asked from REPLACED
    > settle --replaced=revert => 0
    settled 1, set 1, saved 1
    ? game/x.txt = game/linked
    ? game/x.txt = stage/b/x.txt
    ? keep/aside/1/game/ = nothing
    = x.txt b H1
    ? manifest
    > check => 0
    changes 0

    == a_link_that_was_removed_is_made_again_or_dropped from LINKED
    - game/x.txt
    > settle => 0
    settled 1, set 1, saved 0
    ? game/x.txt = stage/b/x.txt
    = x.txt b H1
    ? manifest
    ? keep/ = nothing
    ==
    - game/x.txt
    > settle --deleted drop => 0
    settled 1, set 0, saved 0
    ? game/ = vortex.deployment.json
    ? stage/b/x.txt = "abc"
    ? manifest

    == a_row_without_files_goes from LINKED
    - game/x.txt
    - stage/b/x.txt
    > check => 1
    Gone|x.txt
    changes 1
    > settle => 0
    settled 1, set 0, saved 0
    ? game/ = vortex.deployment.json
    ? manifest

    == COVERED:
    # The original has a second name, by which it is known again.
    + stage/b/x.txt = "abc"
    + game/x.txt = "game"
    + game/original = game/x.txt
    > deploy => 0
    deployed 1, set 1, saved 1

    == an_original_comes_back_where_its_row_goes from COVERED
    $ - game/x.txt & & settle --deleted drop & 0
    $ - stage/b/x.txt & & settle --source-deleted=drop & 1
    $ - game/x.txt & - stage/b/x.txt & settle & 0
    $1
    $2
    > $3 => 0
    settled 1, set 1, saved $4
    ? game/x.txt = game/original
    ? game/ = original vortex.deployment.json x.txt
    ? manifest

    == an_original_stays_covered_where_its_row_stays from COVERED
    $ - game/x.txt & & settle & 0
    $ - stage/b/x.txt & & settle & 0
    $ - game/x.txt & + game/x.txt = "abc" & settle & 1
    $ - game/x.txt & + game/x.txt = "abc" & settle --replaced import & 1
    $1
    $2
    > $3 => 0
    settled 1, set 1, saved $4
    ? game/x.txt = stage/b/x.txt
    ? game/x.txt.vortex_backup = game/original
    = x.txt b H1 shadowed
    ? manifest

    == OF_EACH_CLASS:
    # The rows' digests are old ones; `r` is a row that others left alone.
    + stage/b/c = "A"
    + game/c = stage/b/c
    + stage/b/d = "A"
    + game/d.vortex_backup = "game d"
    + game/g.vortex_backup = "game g"
    + stage/b/r = "abc"
    + game/r = stage/b/r
    + stage/b/p = "abc"
    + game/p = "A"
    + game/s = "A"
    + game/s.vortex_backup = "game s"
    = c b H0
    = d b H0 shadowed
    = g b H0 shadowed
    = p b H0
    = r b H1
    = s b H0 shadowed
    + manifest
    > check => 1
    Changed|c
    Deleted|d
    Gone|g
    Replaced|p
    SourceDeleted|s
    changes 5

    == all_classes_are_settled_at_once from OF_EACH_CLASS
    > settle => 0
    settled 5, set 4, saved 1
    = c b H2
    = d b H2 shadowed
    = p b H1
    = r b H1
    = s b H2 shadowed
    ? manifest
    ? game/ = c d d.vortex_backup g p r s s.vortex_backup vortex.deployment.json
    ? game/c = stage/b/c
    ? game/d = stage/b/d
    ? game/g = "game g"
    ? game/p = stage/b/p
    ? game/s = stage/b/s
    ? keep/aside/1/game/ = p
    ? keep/aside/1/game/p = "A"
    > check => 0
    changes 0

    == all_classes_are_settled_the_other_way from OF_EACH_CLASS
    > settle --gone drop --source-deleted drop --deleted drop --changed keep \
      --replaced import => 0
    settled 5, set 4, saved 2
    = c b H2
    = p b H2
    = r b H1
    ? manifest
    ? game/ = c d g p r s vortex.deployment.json
    ? game/d = "game d"
    ? stage/b/d = "A"
    ? game/g = "game g"
    ? game/p = stage/b/p
    ? game/p = "A"
    ? game/s = "game s"
    ? keep/aside/1/ = game stage
    ? keep/aside/1/game/s = "A"
    ? keep/aside/1/stage/b/p = "abc"
    > check => 0
    changes 0

    == an_option_is_for_its_class_alone from OF_EACH_CLASS
    > settle --replaced revert --deleted drop => 0
    settled 5, set 4, saved 1
    = c b H2
    = p b H1
    = r b H1
    = s b H2 shadowed
    ? manifest
    ? game/p = stage/b/p
    ? game/d = "game d"
    ? game/s = stage/b/s
    ? keep/aside/1/game/ = nothing
    > check => 0
    changes 0

    == folders_that_are_missing_are_made
    + stage/a/d/e/x = "abc"
    + game/d/
    > deploy => 0
    deployed 1, set 1, saved 0
    - game/d/e/x
    - game/d/e/
    - game/d/
    > settle => 0
    settled 1, set 1, saved 0
    ? game/d/e/x = stage/a/d/e/x
    = d/e/x a H1
    = d/
    = d/e/
    ? manifest
    ==
    + stage/a/d/x = "abc"
    > deploy => 0
    deployed 1, set 1, saved 0
    - stage/a/d/x
    - stage/a/d/
    - stage/a/
    > settle => 0
    settled 1, set 1, saved 0
    ? stage/a/d/x = game/d/x
    = d/x a H1
    = d/
    ? manifest

    == IN_FOLDERS:
    + stage/a/d/e/x = "abc"
    + stage/a/d/y = "abc"
    > deploy => 0
    deployed 2, set 2, saved 0
    - game/d/e/x

    == folders_of_rows_that_go_are_taken_off from IN_FOLDERS
    > settle --deleted drop => 0
    settled 1, set 0, saved 0
    ? game/d/ = y
    = d/y a H1
    = d/
    ? manifest
    - game/d/y
    > settle --deleted drop => 0
    settled 1, set 0, saved 0
    ? game/ = vortex.deployment.json
    ? manifest
    ==
    + game/d/e/z = "mine"
    > settle --deleted drop => 0
    settled 1, set 0, saved 0
    ? game/d/e/ = z
    = d/y a H1
    = d/
    = d/e/
    ? manifest

    == a_staged_file_is_that_of_the_rows_source
    # The staged file of a mod with a type lies elsewhere than its link.
    + stage/a/x.txt = "abc"
    + game/bin/x.txt = "A"
    = bin/x.txt a H1 from x.txt
    = bin/
    + manifest
    > settle --replaced import => 0
    settled 1, set 1, saved 1
    ? stage/a/x.txt = "A"
    ? game/bin/x.txt = stage/a/x.txt
    ? keep/aside/1/stage/a/x.txt = "abc"
    = bin/x.txt a H2 from x.txt
    = bin/
    ? manifest

    == what_is_kept_aside_has_the_next_number from REPLACED
    $ 7/ & 8
    $ 12 = "f" & 13
    $ 07/ & 1
    $ x/ & 1
    + keep/aside/$1
    > settle => 0
    settled 1, set 1, saved 1
    ? keep/aside/$2/game/x.txt = game/found

    == the_last_number_is_not_used_again from REPLACED
    $ aside
    $ import
    $ revert
    + keep/aside/4294967295/
    > settle --replaced $1 => 3
    refused|35|AsideFull
    ! sync keep
    ? game/x.txt = game/found

    == the_last_number_is_not_used_again from LINKED
    + keep/aside/4294967295/
    - game/x.txt
    > settle => 0
    settled 1, set 1, saved 0

    == a_folder_in_place_of_a_file_is_told_first from LINKED
    + stage/a/y = "A"
    > deploy => 0
    deployed 2, set 1, saved 0
    - game/x.txt
    + game/x.txt = "new"
    + keep/aside = "f"
    > settle => 3
    refused|33|Blocked|keep/aside
    ! sync keep
    - stage/a/y
    + stage/a/y/
    > settle => 3
    refused|33|Blocked|stage/a/y
    - game/y
    + game/y/
    > settle => 3
    refused|33|Blocked|game/y
    - stage/b/x.txt
    + stage/b/x.txt/
    > settle => 3
    refused|33|Blocked|stage/b/x.txt
    ! sync keep

    == what_stands_in_the_way_of_a_restored_file_is_told from IN_FOLDERS
    # The outermost parent that is no folder.
    - game/d/e/
    + game/d/e = "mine"
    + keep/aside = "f"
    > settle => 3
    refused|33|Blocked|game/d/e
    ! sync keep
    - game/d/y
    - game/d/e
    - game/d/
    + game/d = "mine"
    > settle => 3
    refused|33|Blocked|game/d
    > settle --deleted drop => 0
    settled 2, set 0, saved 0
    ? game/d = "mine"
    ? manifest

    == what_stands_in_the_way_of_a_restored_file_is_told from LINKED
    - stage/b/x.txt
    - stage/b/
    + stage/b = "mine"
    > settle => 3
    refused|33|Blocked|stage/b
    > settle --source-deleted drop => 0
    settled 1, set 1, saved 1
    ? keep/aside/1/game/x.txt = "abc"

    == a_folder_at_the_backup_place_of_a_row_that_goes_is_in_the_way from COVERED
    - game/x.txt.vortex_backup
    + game/x.txt.vortex_backup/
    - stage/b/x.txt
    + keep/aside = "f"
    > settle --source-deleted drop => 3
    refused|33|Blocked|game/x.txt.vortex_backup
    ! sync keep
    > settle => 0
    settled 1, set 1, saved 0

    == a_bad_manifest_is_refused from LINKED
    % text 172
    > settle => 3
    refused|11|TooLong|game/vortex.deployment.json
    ! sync keep
    ~ game/vortex.deployment.json = "{}"
    - game/x.txt
    + game/x.txt/
    > settle => 3
    refused|26|ManifestVersion
    ! sync keep

    == the_length_of_its_plan_is_limited from REPLACED
    % text 438
    > settle => 3
    refused|36|PlanTooLong|439
    > settle --replaced import => 3
    refused|36|PlanTooLong|472
    ! sync keep
    % text 439
    > settle => 0
    settled 1, set 1, saved 1
    % text 173
    > settle => 0
    settled 0, set 0, saved 0

    == a_bad_profile_or_mod_is_no_matter from LINKED
    # Neither the profile nor the mods are read.
    * mods = 3
    + stage/a/y.vortex_backup = "A"
    - game/x.txt
    % mods 0
    % entries 0
    > settle => 0
    settled 1, set 1, saved 0
    ? game/x.txt = stage/b/x.txt

    == an_action_must_be_allowed_for_its_class from LINKED
    $ settle --replaced keep
    $ settle --replaced drop
    $ settle --changed aside
    $ settle --changed=revert
    $ settle --deleted keep
    $ settle --source-deleted import
    $ settle --gone restore
    $ settle --gone nothing
    $ settle --replaced=aside --replaced aside
    $ settle --replaced
    $ settle --replaced -- aside
    $ settle --replaced --from-input
    $ settle --from-input --from-input
    $ settle --clean keep
    $ settle now
    $ settle -- now
    > $1 => 2
    usage
    ! none

    == places_and_an_intent_are_looked_at_first from LINKED
    + keep/profile.tmp = "p"
    + keep/manifest.tmp/
    > settle => 3
    refused|33|Blocked|keep/manifest.tmp
    ! none
    - keep/manifest.tmp/
    + keep/intent.json = ""
    > settle => 4
    recover first
    ! none
    - keep/intent.json
    > settle -- => 0
    settled 0, set 0, saved 0
    ! unlink keep/profile.tmp; sync keep
"#;

#[test]
fn each_case_holds(rt: HostRuntime) {
    play_all(&rt, CASES);
}
