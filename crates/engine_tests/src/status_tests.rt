// `status`: how much is deployed, and which intent stands.
use crate::tables::play_all;

const CASES: &str = r#"
    == an_empty_world_has_no_files
    > status => 0
    files 0
    folders 0
    intent none

    == DEPLOYED:
    + stage/b/x.txt = "abc"
    + game/x.txt = stage/b/x.txt
    = x.txt b H1
    + manifest

    == files_and_folders_are_those_of_the_manifest from DEPLOYED
    > status => 0
    files 1
    folders 0
    intent none
    = d/e/x b H1 from x
    = x.txt b H1
    = y b H1
    = d/
    = d/e/
    + manifest
    > status => 0
    files 3
    folders 2
    intent none

    == an_intent_is_told_by_its_form
    = x.txt b H1
    + keep/intent.json = "{"clears":[],"folders":[],"folders_off":[],"manifest":MANIFEST,\
      "phase":"set","saves":[],\
      "sets":[{"back":null,"from":"stage/b/x.txt","to":"game/x.txt"}],"version":2}"
    > status => 0
    files 0
    folders 0
    intent set
    ==
    = x.txt b H1
    + keep/intent.json = "{"clears":[],"folders":[],"folders_off":[],"manifest":MANIFEST,\
      "phase":"clear","saves":[],"sets":[],"version":2}"
    > status => 0
    files 0
    folders 0
    intent clear

    == an_intent_is_told_by_its_form from DEPLOYED
    + keep/intent.json = "{"clears":[],"folders":[],"folders_off":[],"manifest":null,\
      "phase":"clear","saves":[],"sets":[],"version":1}"
    > status => 0
    files 1
    folders 0
    intent clear

    == an_intent_of_version_1_is_read
    + keep/intent.json = "{"clears":[],"folders":[],"folders_off":[],"manifest":{"files":\
      [{"digest":"H1","mod":"b","path":"x.txt","shadowed":false}],"folders":[],"version":1},\
      "phase":"set","saves":[],\
      "sets":[{"back":null,"from":"stage/b/x.txt","to":"game/x.txt"}],"version":1}"
    > status => 0
    files 0
    folders 0
    intent set

    == other_bytes_are_no_intent
    # No bytes, other bytes, and another phase.
    + keep/intent.json = "$1"
    $
    $ {"clears":[
    $ {"clears":[],"folders":[],"folders_off":[],"manifest":null,"phase":"back","saves":[],\
      "sets":[],"version":2}
    # A plan that fails a rule: a set's source is its destination.
    $ {"clears":[],"folders":[],"folders_off":[],"manifest":null,"phase":"set","saves":[],\
      "sets":[{"back":null,"from":"game/x","to":"game/x"}],"version":2}
    > status => 3
    refused|37|BadIntent
    ==
    # One more byte.
    + keep/intent.json = "{"clears":[],"folders":[],"folders_off":[],"manifest":null,\
      "phase":"set","saves":[],"sets":[],"version":2} "
    > status => 3
    refused|37|BadIntent

    == the_manifest_is_told_before_the_intent
    + keep/intent.json = "no intent"
    + game/vortex.deployment.json = "{}"
    > status => 3
    refused|26|ManifestVersion
    % text 1
    > status => 3
    refused|11|TooLong|game/vortex.deployment.json
"#;

#[test]
fn each_case_holds(rt: HostRuntime) {
    play_all(&rt, CASES);
}
