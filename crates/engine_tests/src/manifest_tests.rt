// Manifests that are refused: each with the first fault that is found in it.
use crate::script::{played, said};
use crate::tables::play_all;
use deploy_engine::Limits;
use std::process::Abort;
use test_worlds::{bytes_of, put_outside};

const CASES: &str = r#"
    == REFUSED:
    # Two commands with this manifest are refused so.
    + game/vortex.deployment.json = "$1"
    > check => 3
    refused|$2
    > status => 3
    refused|$2

    == FILES:
    # So they are with these files.
    + game/vortex.deployment.json = "{"version":2,"files":[$1],"folders":[]}"
    > check => 3
    refused|$2
    > status => 3
    refused|$2

    == FOLDERS:
    # And so with these folders.
    + game/vortex.deployment.json = "{"version":2,"files":[],"folders":[$1]}"
    > check => 3
    refused|$2
    > status => 3
    refused|$2

    == a_manifest_must_be_an_object_and_tell_its_version from REFUSED
    $ { & 25|ManifestNotJson
    $ & 25|ManifestNotJson
    $ {} {} & 25|ManifestNotJson
    $ {"version":2,"files":[],"folders":[],} & 25|ManifestNotJson
    $ [] & 27|ManifestShape|top
    $ "version" & 27|ManifestShape|top
    $ {} & 26|ManifestVersion
    $ {"files":7} & 26|ManifestVersion
    $ {"version":3,"files":[],"folders":[]} & 26|ManifestVersion
    $ {"version":"2","files":[],"folders":[]} & 26|ManifestVersion
    $ {"version":2.5,"files":[],"folders":[]} & 26|ManifestVersion
    $ {"version":2,"folders":[]} & 27|ManifestShape|top
    $ {"version":2,"files":{},"folders":[]} & 27|ManifestShape|top
    $ {"version":2,"files":[7]} & 27|ManifestShape|top
    $ {"version":2,"files":[7],"folders":"d"} & 27|ManifestShape|top

    == a_file_has_five_keys_of_their_kinds from FILES
    $ 7 & 27|ManifestShape|file 0
    $ {ROW,"path":"x","source":"x"},[] & 27|ManifestShape|file 1
    $ {ROW,"source":"x"} & 27|ManifestShape|file 0
    $ {ROW,"path":"x"} & 27|ManifestShape|file 0
    $ {ROW,"path":7,"source":"x"} & 27|ManifestShape|file 0
    $ {"digest":"H1","mod":"b","path":"x","source":"x"} & 27|ManifestShape|file 0
    $ {"digest":"H1","mod":"b","path":"x","source":"x","shadowed":1} & 27|ManifestShape|file 0
    $ {"digest":"H1","path":"x","source":"x","shadowed":true} & 27|ManifestShape|file 0
    $ {"mod":"b","path":"x","source":"x","shadowed":true} & 27|ManifestShape|file 0
    $ {"digest":"abc","mod":"b","path":"x","source":"x","shadowed":true} & 27|ManifestShape|file 0
    $ {"digest":"H10","mod":"b","path":"x","source":"x","shadowed":true} & 27|ManifestShape|file 0
    $ {"digest":"H1","mod":"b","path":"x","source":"/","shadowed":1},7 & 27|ManifestShape|file 0

    == a_digest_is_written_in_lower_case from FILES
    $ {"digest":"BA7816BF8F01CFEA414140DE5DAE2223B00361A396177A9CB410FF61F20015AD",\
      "mod":"b","path":"x","shadowed":false,"source":"x"} & 27|ManifestShape|file 0

    == paths_are_those_of_a_user_and_not_reserved from FILES
    $ {ROW,"path":"/x","source":"x"} & 28|ManifestBadPath|file 0
    $ {ROW,"path":"x","source":"d/../x"} & 28|ManifestBadPath|file 0
    $ {ROW,"path":"x.vortex_backup","source":"x"} & 28|ManifestBadPath|file 0
    $ {ROW,"path":"x","source":"d.vortex_backup/x"} & 28|ManifestBadPath|file 0
    $ {ROW,"path":"vortex.deployment.json","source":"x"} & 28|ManifestBadPath|file 0
    $ {"digest":"H1","mod":"a/b","path":"x","source":"x","shadowed":true} & \
      28|ManifestBadPath|file 0
    $ {ROW,"path":"y","source":"y"},{ROW,"path":"","source":"x"} & 28|ManifestBadPath|file 1

    == paths_are_those_of_a_user_and_not_reserved from FOLDERS
    $ "/d" & 28|ManifestBadPath|folder 0
    $ "d","d.vortex_backup" & 28|ManifestBadPath|folder 1

    == files_and_folders_ascend_and_lie_apart from FILES
    $ {ROW,"path":"y","source":"y"},{ROW,"path":"x","source":"x"} & 29|ManifestOrder|file 1
    $ {ROW,"path":"x","source":"x"},{ROW,"path":"x","source":"y"} & 29|ManifestOrder|file 1
    $ {ROW,"path":"d/x","source":"x"},{ROW,"path":"d.x","source":"y"} & 29|ManifestOrder|file 1
    $ {ROW,"path":"p","source":"p"},{ROW,"path":"p/q","source":"q"} & 30|ManifestNested|file 1
    $ {ROW,"path":"p","source":"p"},{ROW,"path":"p.q","source":"r"},\
      {ROW,"path":"p/q","source":"q"} & 30|ManifestNested|file 2
    $ {ROW,"path":"p","source":"s"},{ROW,"path":"q","source":"s"} & 53|ManifestSource|file 1
    $ {ROW,"path":"p","source":"s/t"},{ROW,"path":"q","source":"s"} & 53|ManifestSource|file 1
    $ {ROW,"path":"p","source":"s"},{ROW,"path":"p/q","source":"s"} & 30|ManifestNested|file 1

    == files_and_folders_ascend_and_lie_apart from FOLDERS
    $ 7 & 27|ManifestShape|folder 0
    $ "d","d" & 29|ManifestOrder|folder 1
    $ "e","d" & 29|ManifestOrder|folder 1

    == files_and_folders_ascend_and_lie_apart from REFUSED
    $ {"version":2,"files":[{ROW,"path":"x","source":"/"}],"folders":[7]} & \
      28|ManifestBadPath|file 0

    == two_mods_may_have_one_source_and_folders_may_nest
    = p a H1 from s
    = q b H1 from s
    = d/
    = d/e/
    + manifest
    > status => 0
    files 2
    folders 2
    intent none

    == the_length_of_the_manifest_is_limited
    + stage/b/x.txt = "abc"
    + game/x.txt = stage/b/x.txt
    = x.txt b H1
    + manifest
    % text 172
    > check => 3
    refused|11|TooLong|game/vortex.deployment.json
    > status => 3
    refused|11|TooLong|game/vortex.deployment.json
    > order => 0
    b
    % text 173
    > check => 0
    changes 0
    > status => 0
    files 1
    folders 0
    intent none

    == a_manifest_that_is_too_long_is_not_read
    + game/vortex.deployment.json = "{"
    % text 0
    > check => 3
    refused|11|TooLong|game/vortex.deployment.json
    % text 1
    > check => 3
    refused|25|ManifestNotJson
"#;

#[test]
fn each_case_holds(rt: HostRuntime) {
    play_all(&rt, CASES);
}

// `check` where the manifest has these bytes.
fn check_bytes(rt: &(impl AllocGlobal + Abort), bytes: &[u8], printed: &str) {
    let mut tree = played(rt, "");
    put_outside(rt.alloc(), &mut tree, "game/vortex.deployment.json", bytes).expect(rt, "a file");
    let (_, found) = said(rt, "check", &Limits::usual(), &mut tree, b"");
    assert_eq!(rt; found.as_str(), printed);
}

#[test]
fn each_beginning_of_a_manifest_is_no_json(rt: HostRuntime) {
    let mut tree = played(&rt, "= x.txt b H1\n+ manifest");
    let bytes = bytes_of(rt.alloc(), &mut tree, "game/vortex.deployment.json");
    let bytes = bytes.expect(&rt, "the manifest");
    assert_eq!(&rt; bytes.len(), 173);
    for count in 0..bytes.len() {
        check_bytes(&rt, &bytes[..count], "refused\t25\tManifestNotJson\n");
    }
    check_bytes(&rt, &bytes, "Gone\tx.txt\nchanges 1\n");
}
