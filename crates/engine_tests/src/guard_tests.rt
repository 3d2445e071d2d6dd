// What is asked before a command looks at anything else: its words, the places that the engine
// keeps for itself, and whether an earlier command was stopped.
use crate::tables::play_all;

const CASES: &str = r#"
    == a_folder_at_a_control_place_is_in_the_way
    $ keep/intent.json
    $ keep/intent.tmp
    $ keep/manifest.tmp
    $ keep/profile.tmp
    $ keep/profile.toml
    $ game/vortex.deployment.json
    + $1/
    > order => 3
    refused|33|Blocked|$1
    > winners => 3
    refused|33|Blocked|$1
    > conflicts => 3
    refused|33|Blocked|$1
    > check => 3
    refused|33|Blocked|$1
    > status => 3
    refused|33|Blocked|$1

    == the_first_control_place_in_the_way_is_told
    $ order
    $ winners
    $ conflicts
    $ check
    $ status
    + game/vortex.deployment.json/
    > $1 => 3
    refused|33|Blocked|game/vortex.deployment.json
    + keep/profile.toml/
    > $1 => 3
    refused|33|Blocked|keep/profile.toml
    + keep/profile.tmp/
    > $1 => 3
    refused|33|Blocked|keep/profile.tmp
    + keep/manifest.tmp/
    > $1 => 3
    refused|33|Blocked|keep/manifest.tmp
    + keep/intent.tmp/
    > $1 => 3
    refused|33|Blocked|keep/intent.tmp
    + keep/intent.json/
    > $1 => 3
    refused|33|Blocked|keep/intent.json

    == a_control_place_in_the_way_is_told_before_an_intent
    + keep/intent.json = ""
    + game/vortex.deployment.json/
    > order => 3
    refused|33|Blocked|game/vortex.deployment.json
    > winners => 3
    refused|33|Blocked|game/vortex.deployment.json
    > conflicts => 3
    refused|33|Blocked|game/vortex.deployment.json
    > check => 3
    refused|33|Blocked|game/vortex.deployment.json
    > status => 3
    refused|33|Blocked|game/vortex.deployment.json

    == a_stopped_command_must_be_recovered_first
    + keep/intent.json = "{"clears":["
    * mods = 3
    + game/vortex.deployment.json = "{}"
    > order => 4
    recover first
    > winners => 4
    recover first
    > conflicts => 4
    recover first
    > check => 4
    recover first
    - game/vortex.deployment.json
    > status => 3
    refused|37|BadIntent
    ? keep/intent.json = "{"clears":["

    == temps_are_no_matter_to_a_command_that_looks
    # What an earlier command left is swept away only by a command that changes something.
    + keep/intent.tmp = "i"
    + keep/manifest.tmp = "m"
    + keep/profile.tmp = "p"
    + keep/other = "o"
    > order => 0
    > winners => 0
    > conflicts => 0
    > check => 0
    changes 0
    > status => 0
    files 0
    folders 0
    intent none
    ? keep/ = intent.tmp manifest.tmp other profile.tmp

    == two_dashes_behind_a_command_stand_for_nothing
    + stage/a/x = "A"
    > order -- => 0
    a
    > winners -- => 0
    x|a|order
    > conflicts -- => 0
    > check -- => 0
    changes 0
    > status -- => 0
    files 0
    folders 0
    intent none

    == words_in_no_form_are_usage
    # Words are looked at before anything on the disk.
    $
    $ Order
    $ order now
    $ order -- --
    $ order --help
    $ --help
    $ winners a
    $ conflicts -x
    $ check --all
    $ status status
    $ settle --replaced keep
    $ sample
    + keep/intent.json/
    + keep/profile.toml = ""
    > $1 => 2
    usage
"#;

#[test]
fn each_case_holds(rt: HostRuntime) {
    play_all(&rt, CASES);
}

const LOOKS: [&str; 5] = ["order", "winners", "conflicts", "check", "status"];

const CONTROLS: [&str; 6] = [
    "keep/intent.json",
    "keep/intent.tmp",
    "keep/manifest.tmp",
    "keep/profile.tmp",
    "keep/profile.toml",
    "game/vortex.deployment.json",
];
