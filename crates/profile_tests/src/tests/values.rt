// What is read, printed and made.
ghost use Rattle.std.specs.Prelude.{◌≡◌, ◌∷◌, [], nat_eq};
ghost use Rattle.std.specs.List.{IsDistinct};
ghost use Rattle.std.specs.Cmp.Lexicographic.{pointwise};

use crate::tests::profiles::{check_profile, printed, profile_of};
use profile_toml::{
    Extra, ModEntry, Override, Profile, Range, Release, Rule, RuleKind, default_profile,
};
use rel_paths::{ModId, RelPath};
use std::process::Abort;

// Whether a table has an unknown key `note`.
fn noted(extra: &Extra) -> &'static str {
    if extra.has("note") { ", noted" } else { "" }
}

fn release_text(entry: &ModEntry) -> &str {
    match entry.release() {
        Some(release) => release.text(),
        None => "none",
    }
}

fn type_text(entry: &ModEntry) -> &str {
    match entry.mod_type() {
        Some(id) => id.text(),
        None => "none",
    }
}

fn range_text(rule: &Rule) -> &str {
    match rule.range() {
        Some(range) => range.text(),
        None => "any",
    }
}

fn add_types(rt: &(impl AllocGlobal + Abort), text: &mut String, profile: &Profile) {
    for entry in profile.types() {
        let note = noted(&entry.extra);
        write!(text, "type {} at {}{note}\n", entry.id(), entry.base()).expect(rt, "memory");
    }
}

fn add_rules(rt: &(impl AllocGlobal + Abort), text: &mut String, rules: &[Rule]) {
    for rule in rules {
        let note = noted(&rule.extra);
        let range = range_text(rule);
        write!(
            text,
            "rule {:?} {} {range}{note}\n",
            rule.kind(),
            rule.refers()
        )
        .expect(rt, "memory");
    }
}

fn add_mods(rt: &(impl AllocGlobal + Abort), text: &mut String, profile: &Profile) {
    for (id, entry) in profile.mods() {
        let note = noted(&entry.extra);
        let on = entry.is_enabled();
        let release = release_text(entry);
        let of_type = type_text(entry);
        write!(
            text,
            "mod {id}, {on}, release {release}, type {of_type}{note}\n"
        )
        .expect(rt, "memory");
        add_rules(rt, text, entry.rules());
    }
}

fn add_overrides(rt: &(impl AllocGlobal + Abort), text: &mut String, profile: &Profile) {
    for (_path, entry) in profile.overrides() {
        let note = noted(&entry.extra);
        write!(
            text,
            "override {} to {}{note}\n",
            entry.path(),
            entry.mod_id()
        )
        .expect(rt, "memory");
    }
}

// What a profile has, a line for each of its parts.
fn parts(rt: &(impl AllocGlobal + Abort), profile: &Profile) -> String {
    let note = noted(&profile.extra);
    let mut text = format!(in rt.alloc(); "version {}{note}\n", profile.version());
    let mut text = text.expect(rt, "memory");
    add_types(rt, &mut text, profile);
    add_mods(rt, &mut text, profile);
    add_overrides(rt, &mut text, profile);
    text
}

// Fails unless a text reads as a profile with these parts, and so does what that is printed as.
// The text that is printed.
fn check_parts(rt: &(impl AllocGlobal + Abort), text: &str, wanted: &str) -> String {
    let profile = profile_of(rt, text);
    assert_eq!(rt; parts(rt, &profile).as_str(), wanted);
    let shown = printed(rt, profile);
    let back = profile_of(rt, shown.as_str());
    assert_eq!(rt; parts(rt, &back).as_str(), wanted);
    check_profile(rt, back, text);
    shown
}

const SMALL: &str = "version = 1

[[mods]]
id = \"Texture Pack\"
enabled = true

[[mods.rules]]
kind = \"after\"
ref = \"Base Meshes\"

[[overrides]]
path = \"Data/textures/sky.dds\"
mod = \"Base Meshes\"
";

const SMALL_PARTS: &str = "version 1
mod Texture Pack, true, release none, type none
rule After Base Meshes any
override Data/textures/sky.dds to Base Meshes
";

#[test]
fn a_small_profile_is_read_and_printed(rt: HostRuntime) {
    check_parts(&rt, SMALL, SMALL_PARTS);
}

// Mods stand in the order of the text, whatever their rules.
#[test]
fn mods_keep_their_order(rt: HostRuntime) {
    check_parts(
        &rt,
        "version = 1\nmods = [{ id = 'b' }, { id = 'a', enabled = false }]",
        "version 1
mod b, true, release none, type none
mod a, false, release none, type none
",
    );
}

const FULL: &str = "version = 2
note = 11

[[mods]]
id = 'base'
release = '1.4.0'
type = 'textures'
note = 12

[[mods]]
id = 'patch'
enabled = false

[[mods.rules]]
kind = 'requires'
ref = 'base'
range = '^1.2'
note = 13

[[mods.rules]]
kind = 'before'
ref = 'z'

[[types]]
id = 'library'
base = 'bin/x64'
note = 14

[[types]]
id = 'textures'
base = 'Data'

[[overrides]]
path = 'Data/sky.dds'
mod = 'base'
note = 15
";

const FULL_PARTS: &str = "version 2, noted
type library at bin/x64, noted
type textures at Data
mod base, true, release 1.4.0, type textures, noted
mod patch, false, release none, type none
rule Requires base ^1.2, noted
rule Before z any
override Data/sky.dds to base, noted
";

#[test]
fn a_profile_with_everything_is_read_and_printed(rt: HostRuntime) {
    let shown = check_parts(&rt, FULL, FULL_PARTS);
    for value in ["11", "12", "13", "14", "15"] {
        let note = format!(in rt.alloc(); "note = {value}").expect(&rt, "memory");
        assert!(&rt; shown.contains(note.as_str()), "{note}");
    }
}

// With version 1 the keys of version 2 are as unknown as others.
const OLD: &str = "version = 1
fold = 11
types = 12

[[mods]]
id = 'a'
release = 13
type = 14
note = 15

[[mods.rules]]
kind = 'conflicts'
ref = 'b'
range = 16
";

const OLD_PARTS: &str = "version 1
mod a, true, release none, type none, noted
rule Conflicts b any
";

#[test]
fn version_1_keeps_keys_that_it_does_not_know(rt: HostRuntime) {
    let shown = check_parts(&rt, OLD, OLD_PARTS);
    for line in [
        "fold = 11",
        "types = 12",
        "release = 13",
        "type = 14",
        "note = 15",
        "range = 16",
    ] {
        assert!(&rt; shown.contains(line), "{line}");
    }
}

fn id_of(rt: &(impl AllocGlobal + Abort), text: &str) -> ModId {
    ModId::parse(rt.alloc(), text).expect(rt, "an id")
}

fn pair_of(rt: &(impl AllocGlobal + Abort), first: ModId, second: ModId) -> Vec<ModId>
    ensures { result.items ≡ first ∷ second ∷ [] }
{
    vec![in rt.alloc(); first, second].expect(rt, "memory")
}

// The ids with these texts, which have to differ.
fn two_ids(rt: &(impl AllocGlobal + Abort), first: &str, second: &str) -> Vec<ModId>
    ensures { IsDistinct (pointwise nat_eq) result.items }
{
    let first = id_of(rt, first);
    let second = id_of(rt, second);
    if first == second {
        panic!(rt; "the ids are one");
    }
    pair_of(rt, first, second)
}

#[test]
fn the_default_profile_has_its_mods_in_order(rt: HostRuntime) {
    let profile = default_profile(rt.alloc(), two_ids(&rt, "z", "a")).expect(&rt, "memory");
    check_profile(
        &rt,
        profile,
        "version = 1\nmods = [{ id = 'z' }, { id = 'a' }]",
    );
}

#[test]
fn plain_parts_have_what_they_are_given(rt: HostRuntime) {
    check_profile(&rt, Profile::plain(rt.alloc()), "version = 1");
    let rule = Rule::plain(rt.alloc(), RuleKind::Before, id_of(&rt, "b"));
    assert!(&rt; rule.kind() == RuleKind::Before && rule.refers().text() == "b");
    assert!(&rt; rule.range().is_none() && rule.admits(None));
    let entry = ModEntry::plain(rt.alloc(), false);
    assert!(&rt; !entry.is_enabled() && entry.rules().is_empty());
    let path = RelPath::parse(rt.alloc(), "x").expect(&rt, "a path");
    let entry = Override::plain(rt.alloc(), path, id_of(&rt, "a"));
    assert!(&rt; entry.path().text() == "x" && entry.mod_id().text() == "a");
}

// Whether a text is a release; one keeps its text, and so does its copy.
fn is_release(rt: &(impl AllocGlobal + Abort), text: &str) -> bool {
    match Release::parse(rt.alloc(), text) {
        Ok(release) => {
            let copy = release.copy().expect(rt, "memory");
            assert!(rt; release.text() == text && copy.text() == text);
            true
        }
        Err(_) => false,
    }
}

fn is_range(rt: &(impl AllocGlobal + Abort), text: &str) -> bool {
    match Range::parse(rt.alloc(), text) {
        Ok(range) => range.text() == text,
        Err(_) => false,
    }
}

#[test]
fn releases_and_ranges_are_those_of_semver(rt: HostRuntime) {
    for (text, release, range) in [
        ("1.4.0", true, true),
        ("1.4.0-rc.1+linux", true, true),
        ("1.4", false, true),
        ("01.4.0", false, false),
        (">=1, <3", false, true),
        ("*", false, true),
        ("one", false, false),
    ] {
        assert_eq!(&rt; is_release(&rt, text), release, "{text}");
        assert_eq!(&rt; is_range(&rt, text), range, "{text}");
    }
}

fn matches(rt: &(impl AllocGlobal + Abort), range: &str, release: &str) -> bool {
    let range = Range::parse(rt.alloc(), range).expect(rt, "a range");
    let release = Release::parse(rt.alloc(), release).expect(rt, "a release");
    range.matches(&release)
}

#[test]
fn a_range_matches_its_releases(rt: HostRuntime) {
    for (range, release, wanted) in [
        ("^1.2", "1.4.0", true),
        ("^1.2", "1.1.9", false),
        ("^2", "1.4.0", false),
        ("^2", "2.1.0", true),
        ("<2", "1.9.9", true),
        ("*", "3.0.0", true),
    ] {
        assert_eq!(&rt; matches(&rt, range, release), wanted, "{range} {release}");
    }
}
