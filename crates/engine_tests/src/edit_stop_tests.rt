// Edits of the profile that are stopped at each of their calls.
use crate::stops::check_stops;

const TWO_MODS: &str = r#"
    + stage/a/x.txt = "A"
    + stage/b/x.txt = "abc"
"#;

const WITH_A_PROFILE: &str = r#"
    * version = 2
    * mods = [{id = "a"}, {id = "b"}]
"#;

#[test]
fn a_profile_that_is_written_anew_is_there_whole_or_not_at_all(rt: HostRuntime) {
    check_stops(&rt, TWO_MODS, "disable b");
}

#[test]
fn a_profile_that_is_edited_is_the_old_or_the_new_one(rt: HostRuntime) {
    check_stops(&rt, WITH_A_PROFILE, "rule a after b");
}
