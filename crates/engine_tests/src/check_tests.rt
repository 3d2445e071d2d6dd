// `check`: what others changed of what is deployed.
use crate::tables::play_all;

const CASES: &str = r#"
    == DEPLOYED:
    + stage/a/x.txt = "A"
    + stage/b/x.txt = "abc"
    + game/x.txt = stage/b/x.txt
    = x.txt b H1
    + manifest

    == a_fresh_deployment_has_no_changes from DEPLOYED
    > check => 0
    changes 0

    == without_a_manifest_nothing_is_changed
    > check => 0
    changes 0
    + stage/a/x = "A"
    + game/x = "game"
    > check => 0
    changes 0
    + manifest
    > check => 0
    changes 0

    == an_equal_copy_is_replaced from DEPLOYED
    - game/x.txt
    + game/x.txt = "abc"
    > check => 1
    Replaced|x.txt
    changes 1

    == an_edit_in_place_is_changed from DEPLOYED
    ~ game/x.txt = ""
    > check => 1
    Changed|x.txt
    changes 1
    ~ stage/b/x.txt = "abc"
    > check => 0
    changes 0

    == what_was_removed_is_told_by_its_place from DEPLOYED
    - game/x.txt
    > check => 1
    Deleted|x.txt
    changes 1
    - stage/b/x.txt
    > check => 1
    Gone|x.txt
    changes 1
    ==
    - stage/b/x.txt
    > check => 1
    SourceDeleted|x.txt
    changes 1

    == a_folder_in_place_of_a_file_is_in_the_way from DEPLOYED
    - game/x.txt
    + game/x.txt/
    > check => 3
    refused|33|Blocked|game/x.txt
    - stage/b/x.txt
    + stage/b/x.txt/
    > check => 3
    refused|33|Blocked|game/x.txt
    ==
    - stage/b/x.txt
    + stage/b/x.txt/
    > check => 3
    refused|33|Blocked|stage/b/x.txt

    == OF_EACH_CLASS:
    + stage/b/a = "abc"
    + game/a = "abc"
    + stage/b/b/c = "ABC"
    + game/b/c = stage/b/b/c
    + stage/b/c = "abc"
    + game/c = stage/b/c
    + stage/b/d = "abc"
    + game/e = "abc"
    = a b H1
    = b/c b H1
    = c b H1
    = d b H1
    = e b H1
    = f b H1

    == changes_come_in_path_order from OF_EACH_CLASS
    + manifest
    > check => 1
    Replaced|a
    Changed|b/c
    Deleted|d
    SourceDeleted|e
    Gone|f
    changes 5

    == the_first_row_in_the_way_is_told_in_place_of_all_changes from OF_EACH_CLASS
    + manifest
    + stage/b/e/
    + stage/b/f/
    > check => 3
    refused|33|Blocked|stage/b/e

    == a_row_is_staged_at_its_source
    + stage/a/x.txt = "abc"
    + game/bin/x.txt = stage/a/x.txt
    = bin/x.txt a H1 from x.txt
    = bin/
    + manifest
    > check => 0
    changes 0
    - stage/a/x.txt
    + stage/a/bin/x.txt = "abc"
    > check => 1
    SourceDeleted|bin/x.txt
    changes 1

    == a_shadowed_row_is_checked_as_any_other
    + stage/b/x.txt = "abc"
    + game/x.txt = stage/b/x.txt
    + game/x.txt.vortex_backup = "game"
    = x.txt b H1 shadowed
    + manifest
    > check => 0
    changes 0
    - game/x.txt.vortex_backup
    > check => 0
    changes 0

    == a_manifest_of_version_1_is_read_with_each_path_as_its_source
    + stage/b/x.txt = "abc"
    + game/x.txt = stage/b/x.txt
    + game/vortex.deployment.json = "{"version":1,"folders":[],"more":{"source":7},"files":\
      [{"shadowed":false,"source":7,"digest":"H1","mod":"b","path":"x.txt"}]}"
    > check => 0
    changes 0
    > status => 0
    files 1
    folders 0
    intent none

    == a_bad_profile_or_mod_is_no_matter from DEPLOYED
    # `check` and `status` read neither the profile nor the mods.
    * mods = 3
    + stage/a/y.vortex_backup = "A"
    % mods 0
    % entries 0
    > check => 0
    changes 0
    > status => 0
    files 1
    folders 0
    intent none
"#;

#[test]
fn each_case_holds(rt: HostRuntime) {
    play_all(&rt, CASES);
}
