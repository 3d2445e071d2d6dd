// `recover`: what a stopped command left is finished, or was never begun.
use crate::tables::play_all;

const CASES: &str = r#"
    == TWO_MODS:
    + stage/a/x.txt = "A"
    + stage/b/x.txt = "abc"

    == without_an_intent_there_is_nothing_to_recover from TWO_MODS
    > recover => 0
    nothing to recover
    ! sync keep
    + keep/manifest.tmp = "m"
    * mods = 3
    + game/vortex.deployment.json = "{}"
    > recover => 0
    nothing to recover
    ! unlink keep/manifest.tmp; sync keep

    == BEGUN:
    + stage/a/x.txt = "A"
    + stage/b/x.txt = "abc"
    ^ deploy => rename keep/intent.tmp keep/intent.json

    == an_intent_that_a_crash_takes_leaves_the_old_state from BEGUN
    # The pending places are the intent's and its temp's.
    @ 0
    > recover => 0
    nothing to recover
    ? game/ = nothing
    ? keep/ = nothing

    == an_intent_that_stands_is_carried_out from BEGUN
    @ 1
    > order => 4
    recover first
    > status => 0
    files 0
    folders 0
    intent set
    > recover => 0
    recovered, set 1, cleared 0
    ? game/x.txt = stage/b/x.txt
    ? game/ = vortex.deployment.json x.txt
    = x.txt b H1
    ? manifest
    ? keep/ = nothing
    > recover => 0
    nothing to recover

    == a_link_that_was_made_though_it_failed_is_kept from TWO_MODS
    ^ deploy => link stage/b/x.txt game/x.txt
    > recover => 0
    recovered, set 1, cleared 0
    ? game/x.txt = stage/b/x.txt
    = x.txt b H1
    ? manifest
    ? keep/ = nothing

    == COVERED:
    # The original has a second name, by which it is known again.
    + stage/a/x.txt = "A"
    + stage/b/x.txt = "abc"
    + game/x.txt = "game"
    + game/original = game/x.txt

    == a_recovery_that_is_stopped_too_is_recovered from COVERED
    # Between taking the original's name and giving it to the staged file.
    $ & &
    $ @ 0 & ^ recover => unlink game/x.txt & @ 0
    $ @ 0 & ^ recover => unlink game/x.txt & @ 1
    $ @ 1 & ^ recover => link stage/b/x.txt game/x.txt (not done) & @ 0
    $ @ 1 & ^ recover => link stage/b/x.txt game/x.txt & @ 0
    $ @ 1 & ^ recover => link stage/b/x.txt game/x.txt & @ 1
    ^ deploy => unlink game/x.txt
    $1
    $2
    $3
    > recover => 0
    recovered, set 1, cleared 0
    ? game/x.txt = stage/b/x.txt
    ? game/x.txt.vortex_backup = game/original
    ? game/ = original vortex.deployment.json x.txt x.txt.vortex_backup
    = x.txt b H1 shadowed
    ? manifest
    ? keep/ = nothing

    == other_bytes_are_refused_and_stay
    + keep/intent.json = "{"clears":["
    + keep/intent.tmp = "i"
    > recover => 3
    refused|37|BadIntent
    ! unlink keep/intent.tmp; sync keep
    > deploy => 4
    recover first
    > status => 3
    refused|37|BadIntent
    ? keep/intent.json = "{"clears":["

    == what_stands_in_the_way_of_a_recovery_is_told from TWO_MODS
    = x.txt b H1
    + keep/intent.json = "{"clears":[],"folders":[],"folders_off":[],"manifest":MANIFEST,\
      "phase":"set","saves":[],\
      "sets":[{"back":null,"from":"stage/b/x.txt","to":"game/q/x.txt"}],"version":2}"
    > recover => 3
    refused|33|Blocked|game/q
    > status => 0
    files 0
    folders 0
    intent set

    == an_intent_of_version_1_is_carried_out from TWO_MODS
    + keep/intent.json = "{"clears":[],"folders":[],"folders_off":[],"manifest":{"files":\
      [{"digest":"H1","mod":"b","path":"x.txt","shadowed":false}],"folders":[],"version":1},\
      "phase":"set","saves":[],\
      "sets":[{"back":null,"from":"stage/b/x.txt","to":"game/x.txt"}],"version":1}"
    > recover => 0
    recovered, set 1, cleared 0
    ? game/x.txt = stage/b/x.txt
    = x.txt b H1
    ? manifest
    ? keep/ = nothing

    == a_blocked_control_place_is_told_before_the_barrier
    + keep/intent.json = "{"clears":["
    + keep/intent.tmp = "i"
    + keep/profile.tmp/
    > recover => 3
    refused|33|Blocked|keep/profile.tmp
    ! none
"#;

#[test]
fn each_case_holds(rt: HostRuntime) {
    play_all(&rt, CASES);
}
