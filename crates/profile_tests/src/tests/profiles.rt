// Profiles of texts, and texts of profiles.
use profile_toml::{Profile, print_profile, read_profile};
use std::process::Abort;

// The profile that a text is.
pub fn profile_of(rt: &(impl AllocGlobal + Abort), text: &str) -> Profile {
    read_profile(rt.alloc(), text.as_bytes()).expect(rt, "a profile")
}

// The text that a profile is printed as. Profiles that differ in anything have other texts.
pub fn printed(rt: &(impl AllocGlobal + Abort), profile: Profile) -> String {
    let bytes = print_profile(rt.alloc(), profile).expect(rt, "memory");
    String::from_utf8(bytes).expect(rt, "UTF-8")
}

// Fails unless the profile is the one that a text is.
pub fn check_profile(rt: &(impl AllocGlobal + Abort), found: Profile, wanted: &str) {
    let found = printed(rt, found);
    let wanted = printed(rt, profile_of(rt, wanted));
    assert_eq!(rt; found.as_str(), wanted.as_str());
}
