// Profiles that are refused: each with the first fault that is found in it.
use crate::script::play;
use crate::tables::play_all;
use std::process::Abort;

const CASES: &str = r#"
    == REFUSED:
    # Two commands with this profile are refused so.
    + keep/profile.toml = "$1"
    > order => 3
    refused|$2
    > winners => 3
    refused|$2

    == a_profile_must_be_toml_and_tell_its_version from REFUSED
    $ version = & 1|ProfileNotToml
    $ version = 1|mods = [ & 1|ProfileNotToml
    $ version = 1|version = 1 & 1|ProfileNotToml
    $ version = 1|x = 1.5 & 3|ProfileFloat
    $ x = [{y = inf}]|mods = 3 & 3|ProfileFloat
    $ version = 1.0 & 3|ProfileFloat
    $  & 4|ProfileVersion
    $ mods = 3 & 4|ProfileVersion
    $ version = 0 & 4|ProfileVersion
    $ version = 3 & 4|ProfileVersion
    $ version = "1" & 4|ProfileVersion
    $ version = true|mods = 3 & 4|ProfileVersion

    == mods_have_ids_of_their_own from REFUSED
    $ version = 1|mods = 3 & 5|ProfileShape|mods
    $ version = 1|mods = 3|overrides = 3 & 5|ProfileShape|mods
    $ version = 1|mods = [{id = "a"}, 7] & 5|ProfileShape|mods[1]
    $ version = 1|mods = [{}] & 5|ProfileShape|mods[0].id
    $ version = 1|mods = [{id = 7, enabled = 1}] & 5|ProfileShape|mods[0].id
    $ version = 1|mods = [{id = "a/b", enabled = 1}] & 8|BadPath|a/b
    $ version = 1|mods = [{id = ""}] & 8|BadPath|
    $ version = 1|mods = [{id = ".."}] & 8|BadPath|..
    $ version = 1|mods = [{id = "a"}, {id = "b"}, {id = "a", enabled = 1}] & 6|SameMod|a
    $ version = 1|mods = [{id = "a", enabled = "yes"}] & 5|ProfileShape|mods[0].enabled
    $ version = 1|mods = [{id = "a", enabled = 1, rules = 3}] & 5|ProfileShape|mods[0].enabled

    == rules_have_a_kind_and_a_reference from REFUSED
    $ version = 1|mods = [{id = "a", rules = "x"}] & 5|ProfileShape|mods[0].rules
    $ version = 1|mods = [{id = "a"}, {id = "b", rules = [7]}] & 5|ProfileShape|mods[1].rules[0]
    $ version = 1|mods = [{id = "a", rules = [{ref = "b"}]}] & 5|ProfileShape|mods[0].rules[0].kind
    $ version = 1|mods = [{id = "a", rules = [{kind = 7}]}] & 5|ProfileShape|mods[0].rules[0].kind
    $ version = 1|mods = [{id = "a", rules = [{kind = "beside"}]}] & 9|BadKind|beside
    $ version = 1|mods = [{id = "a", rules = [{kind = "After", ref = 7}]}] & 9|BadKind|After
    $ version = 1|mods = [{id = "a", rules = [{kind = "after"}]}] & \
      5|ProfileShape|mods[0].rules[0].ref
    $ version = 1|mods = [{id = "a", rules = [{kind = "after", ref = 7}]}] & \
      5|ProfileShape|mods[0].rules[0].ref
    $ version = 1|mods = [{id = "a", rules = [{kind = "after", ref = "."}]}] & 8|BadPath|.

    == overrides_have_a_path_of_their_own_and_a_mod from REFUSED
    $ version = 1|overrides = 3 & 5|ProfileShape|overrides
    $ version = 1|overrides = [7] & 5|ProfileShape|overrides[0]
    $ version = 1|overrides = [{mod = "a"}] & 5|ProfileShape|overrides[0].path
    $ version = 1|overrides = [{path = 7}] & 5|ProfileShape|overrides[0].path
    $ version = 1|overrides = [{path = "d/../x"}] & 8|BadPath|d/../x
    $ version = 1|overrides = [{path = "/x", mod = 7}] & 8|BadPath|/x
    $ version = 1|overrides = [{path = "d/x", mod = "a"}, {path = "d/x"}] & 7|SameOverride|d/x
    $ version = 1|overrides = [{path = "x"}] & 5|ProfileShape|overrides[0].mod
    $ version = 1|overrides = [{path = "x", mod = 7}] & 5|ProfileShape|overrides[0].mod
    $ version = 1|overrides = [{path = "x", mod = "a/b"}] & 8|BadPath|a/b

    == releases_ranges_and_types_are_read_in_version_2 from REFUSED
    $ version = 2|fold = true|types = 3 & 5|ProfileShape|fold
    $ version = 2|types = 3|mods = 3 & 5|ProfileShape|types
    $ version = 2|mods = [{id = "a", release = 1}] & 5|ProfileShape|mods[0].release
    $ version = 2|mods = [{id = "a", release = "1.0", type = 7}] & 46|BadRelease|1.0
    $ version = 2|mods = [{id = "a", enabled = 1, release = 1}] & 5|ProfileShape|mods[0].enabled
    $ version = 2|mods = [{id = "a", type = 7, rules = 3}] & 5|ProfileShape|mods[0].type
    $ version = 2|mods = [{id = "a", type = "t", rules = 3}] & 51|NoType|t
    $ version = 2|mods = [{id = "a", type = "no/id"}] & 51|NoType|no/id
    $ version = 2|mods = [{id = "a", rules = [{kind = "after", ref = "b", range = 1}]}] & \
      5|ProfileShape|mods[0].rules[0].range
    $ version = 2|mods = [{id = "a", rules = [{kind = "after", ref = "b", range = "new"}]}] & \
      47|BadRange|new

    == types_have_an_id_of_their_own_and_a_base from REFUSED
    $ version = 2|types = [7] & 5|ProfileShape|types[0]
    $ version = 2|types = [{base = "bin"}] & 5|ProfileShape|types[0].id
    $ version = 2|types = [{id = 7}] & 5|ProfileShape|types[0].id
    $ version = 2|types = [{id = "a/b"}] & 8|BadPath|a/b
    $ version = 2|types = [{id = "t", base = "b"}, {id = "t"}] & 50|SameType|t
    $ version = 2|types = [{id = "t"}] & 5|ProfileShape|types[0].base
    $ version = 2|types = [{id = "t", base = 7}] & 5|ProfileShape|types[0].base
    $ version = 2|types = [{id = "t", base = "/b"}] & 8|BadPath|/b
    $ version = 2|types = [{id = "t", base = "b.vortex_backup/c"}] & 8|BadPath|b.vortex_backup/c
    $ version = 2|types = [{id = "t", base = "vortex.deployment.json"}] & \
      8|BadPath|vortex.deployment.json
    $ version = 2|types = [{id = "t", base = "1/2/3/4/5/6/7/8/9"}] & 8|BadPath|1/2/3/4/5/6/7/8/9

    == version_1_keeps_the_keys_of_version_2_unread
    * version = 1
    * fold = "as you like"
    * types = 3
    * [[mods]]
    * id = "a"
    * release = 1
    * type = 7
    * rules = [{kind = "before", ref = "b", range = 1, note = {by = "me"}}]
    * [[mods]]
    * id = "b"
    > order => 0
    a
    b
"#;

#[test]
fn each_case_holds(rt: HostRuntime) {
    play_all(&rt, CASES);
}

// `order` and `winners` with this profile are refused so; a bar in the profile is a line end.
fn check_refused(rt: &(impl AllocGlobal + Abort), profile: &str, refusal: &str) {
    let script = format!(in rt.alloc();
        "+ keep/profile.toml = \"{profile}\"
        > order => 3
        refused|{refusal}
        > winners => 3
        refused|{refusal}"
    );
    play(rt, "", script.expect(rt, "memory").as_str());
}

// So many arrays, one in another.
fn arrays(rt: &(impl AllocGlobal + Abort), count: usize) -> String {
    let open = "[".repeat(rt.alloc(), count).expect(rt, "memory");
    let close = "]".repeat(rt.alloc(), count).expect(rt, "memory");
    format!(in rt.alloc(); "{open}{close}").expect(rt, "memory")
}

// The document is the first level.
#[test]
fn values_may_lie_64_levels_deep(rt: HostRuntime) {
    let deep = arrays(&rt, 64);
    let profile = format!(in rt.alloc(); "x = {deep}|y = 1.5").expect(&rt, "memory");
    check_refused(&rt, profile.as_str(), "2|ProfileDeep");
    let shallow = arrays(&rt, 63);
    let profile = format!(in rt.alloc(); "x = {shallow}|y = 1.5").expect(&rt, "memory");
    check_refused(&rt, profile.as_str(), "3|ProfileFloat");
}

// A base of one name of 240 and one of so many bytes more.
fn base(rt: &(impl AllocGlobal + Abort), count: usize) -> String {
    let long = "n".repeat(rt.alloc(), 240).expect(rt, "memory");
    let short = "m".repeat(rt.alloc(), count).expect(rt, "memory");
    format!(in rt.alloc(); "{long}/{short}").expect(rt, "memory")
}

#[test]
fn a_base_has_300_bytes_at_most(rt: HostRuntime) {
    let long = base(&rt, 60);
    let profile = format!(in rt.alloc(); "version = 2|types = [{{id = \"t\", base = \"{long}\"}}]");
    let refusal = format!(in rt.alloc(); "8|BadPath|{long}").expect(&rt, "memory");
    check_refused(
        &rt,
        profile.expect(&rt, "memory").as_str(),
        refusal.as_str(),
    );
    let short = base(&rt, 59);
    let script = format!(in rt.alloc();
        "* version = 2\n* types = [{{id = \"t\", base = \"{short}\"}}]\n> order => 0"
    );
    play(&rt, "", script.expect(&rt, "memory").as_str());
}
