// `deploy`: what stands after it, and what it refuses.
use crate::script::{played, said};
use crate::tables::play_all;
use deploy_engine::Limits;
use std::process::Abort;
use test_worlds::{add, count_steps};

const CASES: &str = r#"
    == TWO_MODS:
    + stage/a/x.txt = "A"
    + stage/b/x.txt = "abc"

    == without_mods_an_empty_manifest_is_written
    > deploy => 0
    deployed 0, set 0, saved 0
    ? game/ = vortex.deployment.json
    ? manifest
    ? keep/ = nothing
    > deploy => 0
    deployed 0, set 0, saved 0
    ! sync keep

    == the_winners_file_itself_is_linked from TWO_MODS
    > deploy => 0
    deployed 1, set 1, saved 0
    ? game/x.txt = stage/b/x.txt
    ? game/x.txt = "abc"
    ? stage/a/x.txt = "A"
    = x.txt b H1
    ? manifest
    ? game/ = vortex.deployment.json x.txt
    ? keep/ = nothing
    > check => 0
    changes 0

    == a_second_deployment_changes_nothing from TWO_MODS
    > deploy => 0
    deployed 1, set 1, saved 0
    > deploy => 0
    deployed 1, set 0, saved 0
    ! sync keep
    ? game/x.txt = stage/b/x.txt

    == the_load_order_decides from TWO_MODS
    * version = 1
    * mods = [{id = "a", rules = [{kind = "after", ref = "b"}]}, {id = "b"}]
    > order => 0
    b
    a
    > deploy => 0
    deployed 1, set 1, saved 0
    ? game/x.txt = stage/a/x.txt
    = x.txt a H2
    ? manifest
    ==
    * version = 1
    * mods = [{id = "b"}, {id = "a"}]
    > deploy => 0
    deployed 1, set 1, saved 0
    ? game/x.txt = stage/a/x.txt

    == an_override_decides from TWO_MODS
    * version = 1
    * mods = [{id = "a"}, {id = "b"}]
    * overrides = [{path = "x.txt", mod = "a"}]
    > deploy => 0
    deployed 1, set 1, saved 0
    ? game/x.txt = stage/a/x.txt

    == COVERED:
    # The original has a second name, by which it is known again.
    + stage/a/x.txt = "A"
    + stage/b/x.txt = "abc"
    + game/x.txt = "game"
    + game/original = game/x.txt

    == a_file_of_the_game_is_kept_as_a_backup from COVERED
    > deploy => 0
    deployed 1, set 1, saved 1
    ? game/x.txt = stage/b/x.txt
    ? game/x.txt.vortex_backup = game/original
    = x.txt b H1 shadowed
    ? manifest
    ? game/ = original vortex.deployment.json x.txt x.txt.vortex_backup
    ? keep/ = nothing

    == a_covered_file_stays_covered_where_another_mod_wins from COVERED
    > deploy => 0
    deployed 1, set 1, saved 1
    * version = 1
    * mods = [{id = "b"}, {id = "a"}]
    > deploy => 0
    deployed 1, set 1, saved 0
    ? game/x.txt = stage/a/x.txt
    ? game/x.txt.vortex_backup = game/original
    = x.txt a H2 shadowed
    ? manifest

    == an_original_comes_back_where_no_mod_wins from COVERED
    > deploy => 0
    deployed 1, set 1, saved 1
    * version = 1
    > deploy => 0
    deployed 0, set 1, saved 0
    ? game/x.txt = game/original
    ? game/ = original vortex.deployment.json x.txt
    ? manifest
    ? stage/b/x.txt = "abc"

    == a_taken_backup_place_is_refused from TWO_MODS
    $ game/x.txt.vortex_backup = "k"
    $ game/x.txt.vortex_backup/
    + game/x.txt = "game"
    + $1
    > deploy => 3
    refused|34|BackupTaken|x.txt
    ! sync keep
    ==
    + game/x.txt.vortex_backup = "k"
    > deploy => 0
    deployed 1, set 1, saved 0
    ? game/x.txt.vortex_backup = "k"
    = x.txt b H1
    ? manifest

    == a_path_that_would_turn_into_a_folder_is_refused
    + stage/a/p = "A"
    + stage/b/p/q = "B"
    * version = 1
    * mods = [{id = "a"}, {id = "b", enabled = false}]
    > deploy => 0
    deployed 1, set 1, saved 0
    ~ keep/profile.toml = "version = 1|mods = [{id = "a", enabled = false}, {id = "b"}]"
    > deploy => 3
    refused|32|Turned|p/q
    ! sync keep
    ? game/p = stage/a/p

    == changes_by_others_are_told_before_anything_is_done from TWO_MODS
    > deploy => 0
    deployed 1, set 1, saved 0
    - game/x.txt
    + game/x.txt = "abc"
    > deploy => 3
    refused|31|ChangesFound|x.txt|1
    ! sync keep

    == the_first_change_and_their_count_are_told
    + stage/a/d/x = "A"
    + stage/a/y = "A"
    + stage/a/z = "A"
    > deploy => 0
    deployed 3, set 3, saved 0
    - game/y
    - stage/a/z
    > deploy => 3
    refused|31|ChangesFound|y|2
    - game/d/x
    > deploy => 3
    refused|31|ChangesFound|d/x|3

    == a_row_that_still_wins_keeps_its_digest from TWO_MODS
    # An edit in place is no matter: a row whose mod still wins is kept whole.
    > deploy => 0
    deployed 1, set 1, saved 0
    ~ game/x.txt = "edited"
    > deploy => 0
    deployed 1, set 0, saved 0
    ! sync keep
    = x.txt b H1
    ? manifest
    > check => 1
    Changed|x.txt
    changes 1

    == IN_A_FOLDER:
    + stage/a/d/x.txt = "abc"
    > deploy => 0
    deployed 1, set 1, saved 0
    = d/x.txt a H1
    = d/
    ? manifest
    * version = 1

    == folders_that_deployments_made_go_where_they_are_empty from IN_A_FOLDER
    > deploy => 0
    deployed 0, set 1, saved 0
    ? game/ = vortex.deployment.json
    ? manifest

    == a_folder_with_a_file_of_others_stays from IN_A_FOLDER
    + game/d/y = "mine"
    > deploy => 0
    deployed 0, set 1, saved 0
    ? game/d/ = y
    ? game/d/y = "mine"
    = d/
    ? manifest

    == a_folder_of_the_game_is_no_own_folder
    + stage/a/d/e/x = "abc"
    + game/d/
    > deploy => 0
    deployed 1, set 1, saved 0
    = d/e/x a H1
    = d/e/
    ? manifest
    * version = 1
    > deploy => 0
    deployed 0, set 1, saved 0
    ? game/d/ = nothing
    ? manifest

    == what_stands_in_the_way_of_a_link_is_told
    # The outermost parent that is no folder, or the place itself.
    $ game/d = "f" & game/d
    $ game/d/e = "f" & game/d/e
    $ game/d/e/x/ & game/d/e/x
    + stage/a/d/e/x = "A"
    + $1
    > deploy => 3
    refused|33|Blocked|$2
    ! sync keep

    == a_folder_at_the_backup_place_of_a_row_that_goes_is_in_the_way from COVERED
    > deploy => 0
    deployed 1, set 1, saved 1
    - game/x.txt.vortex_backup
    + game/x.txt.vortex_backup/
    > deploy => 0
    deployed 1, set 0, saved 0
    * version = 1
    > deploy => 3
    refused|33|Blocked|game/x.txt.vortex_backup

    == the_length_of_the_plan_is_limited_where_there_is_something_to_do from TWO_MODS
    % text 330
    > deploy => 3
    refused|36|PlanTooLong|331
    ! sync keep
    % text 331
    > deploy => 0
    deployed 1, set 1, saved 0
    ? game/x.txt = stage/b/x.txt
    % text 173
    > deploy => 0
    deployed 1, set 0, saved 0
    ! sync keep

    == TYPED:
    + stage/a/x.txt = "abc"
    * version = 2
    * types = [{id = "dll", base = "bin"}]
    * mods = [{id = "a", type = "dll"}]
    > deploy => 0
    deployed 1, set 1, saved 0
    ? game/bin/x.txt = stage/a/x.txt
    = bin/x.txt a H1 from x.txt
    = bin/
    ? manifest

    == a_mod_with_a_type_is_deployed_below_its_base from TYPED
    ~ keep/profile.toml = "version = 2|mods = [{id = "a"}]"
    > deploy => 0
    deployed 1, set 2, saved 0
    ? game/ = vortex.deployment.json x.txt
    ? game/x.txt = stage/a/x.txt
    = x.txt a H1
    ? manifest

    == a_row_whose_source_changes_is_set_anew
    # The paths stay, and the files change places.
    + stage/a/bin/x = "abc"
    + stage/a/x = "A"
    * version = 1
    * mods = [{id = "a"}]
    > deploy => 0
    deployed 2, set 2, saved 0
    ~ keep/profile.toml = "version = 2|types = [{id = "t", base = "bin"}]|\
      mods = [{id = "a", type = "t"}]"
    > deploy => 0
    deployed 2, set 3, saved 0
    ? game/bin/x = stage/a/x
    ? game/bin/bin/x = stage/a/bin/x
    ? game/x -
    = bin/bin/x a H1 from bin/x
    = bin/x a H2 from x
    = bin/
    = bin/bin/
    ? manifest

    == a_manifest_of_version_1_stays_where_nothing_changes from TWO_MODS
    + game/x.txt = stage/b/x.txt
    + game/vortex.deployment.json = "{"files":\
      [{"digest":"H1","mod":"b","path":"x.txt","shadowed":false}],"folders":[],"version":1}"
    > deploy => 0
    deployed 1, set 0, saved 0
    ! sync keep
    ? game/vortex.deployment.json = "{"files":\
      [{"digest":"H1","mod":"b","path":"x.txt","shadowed":false}],"folders":[],"version":1}"

    == a_deployment_sweeps_what_an_earlier_command_left
    + manifest
    + keep/intent.tmp = "i"
    + keep/manifest.tmp = "m"
    + keep/profile.tmp = "p"
    > deploy => 0
    deployed 0, set 0, saved 0
    ! unlink keep/intent.tmp; unlink keep/manifest.tmp; unlink keep/profile.tmp; sync keep
    ? keep/ = nothing
    + keep/manifest.tmp = "m"
    * version = 3
    > deploy => 3
    refused|4|ProfileVersion
    ! unlink keep/manifest.tmp; sync keep

    == neither_an_intent_nor_a_blocked_place_is_swept
    + keep/intent.tmp = "i"
    + keep/intent.json = "{"clears":["
    > deploy => 4
    recover first
    ? keep/ = intent.json intent.tmp
    + keep/profile.tmp/
    > deploy => 3
    refused|33|Blocked|keep/profile.tmp
    ! none

    == a_deployment_is_refused_as_its_winners_are
    * version = 1
    * mods = [{id = "gone"}]
    > deploy => 3
    refused|19|NoFolder|gone
    ! sync keep
    > deploy now => 2
    usage
    ! none
    + game/vortex.deployment.json = "{}"
    > deploy => 3
    refused|19|NoFolder|gone
    + stage/gone/
    > deploy => 3
    refused|26|ManifestVersion
"#;

#[test]
fn each_case_holds(rt: HostRuntime) {
    play_all(&rt, CASES);
}

// A deployment that saves a file, which has a second name.
const ONE_SAVE: &str = r#"
    + stage/a/x.txt = "A"
    + stage/b/x.txt = "abc"
    + game/x.txt = "game"
    + game/original = game/x.txt
"#;

// How many syncs the deployment of this world makes.
fn count_syncs(rt: &(impl AllocGlobal + Abort), start: &str, files: &str, printed: &str) -> usize {
    let mut tree = played(rt, start);
    add(rt.alloc(), &mut tree, files).expect(rt, "a world");
    let (status, found) = said(rt, "deploy", &Limits::usual(), &mut tree, b"");
    assert_eq!(rt; found.as_str(), printed);
    assert_eq!(rt; status, 0);
    count_steps(&tree, "sync")
}

fn thousand_files(rt: &(impl AllocGlobal + Abort)) -> String {
    let mut lines = String::new(rt.alloc());
    for number in 1000..2000 {
        let line = format!(in rt.alloc(); "stage/a/d/{number} = \"{number}\"\n");
        lines
            .push_str(line.expect(rt, "memory").as_str())
            .expect(rt, "memory");
    }
    lines
}

#[test]
fn a_folder_is_synced_once_a_step_and_not_once_a_file(rt: HostRuntime) {
    let files = thousand_files(&rt);
    let syncs = count_syncs(
        &rt,
        "",
        files.as_str(),
        "deployed 1000, set 1000, saved 0\n",
    );
    assert!(&rt; syncs <= 16, "{syncs}");
    let syncs = count_syncs(&rt, ONE_SAVE, "", "deployed 1, set 1, saved 1\n");
    assert!(&rt; syncs <= 16, "{syncs}");
}
