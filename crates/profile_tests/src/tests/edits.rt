// Edits by their words, what they answer and what they leave.
ghost use Rattle.profile_edit.specs.Edits.{HasUserPath};
ghost use Rattle.rel_paths.specs.Names.{IsUserPath};

use crate::tests::profiles::{check_profile, printed, profile_of};
use profile_edit::{Edit, apply};
use profile_toml::{Profile, Release, RuleKind};
use rel_paths::{ModId, RelPath};
use std::process::Abort;

fn id_of(rt: &(impl AllocGlobal + Abort), text: &str) -> ModId {
    ModId::parse(rt.alloc(), text).expect(rt, "an id")
}

fn path_of(rt: &(impl AllocGlobal + Abort), text: &str) -> RelPath
    ensures { IsUserPath result }
{
    RelPath::parse(rt.alloc(), text).expect(rt, "a path")
}

fn kind_of(word: &str) -> RuleKind {
    match word {
        "before" => RuleKind::Before,
        "after" => RuleKind::After,
        _ => RuleKind::Requires,
    }
}

fn release_of(rt: &(impl AllocGlobal + Abort), text: &str) -> Release {
    Release::parse(rt.alloc(), text).expect(rt, "a release")
}

// The word at a place, counted from 0; no text where there are fewer words.
fn word_at(words: &str, place: usize) -> &str {
    words.split(' ').nth(place).unwrap_or("")
}

// The edit that these words are, as `rule a after b`.
fn edit_of(rt: &(impl AllocGlobal + Abort), words: &str) -> Edit
    ensures { HasUserPath result }
{
    let first = word_at(words, 1);
    let second = word_at(words, 2);
    let third = word_at(words, 3);
    match word_at(words, 0) {
        "enable" => Edit::Enable(id_of(rt, first)),
        "disable" => Edit::Disable(id_of(rt, first)),
        "rule" => Edit::AddRule {
            mod_id: id_of(rt, first),
            kind: kind_of(second),
            refers: id_of(rt, third),
        },
        "drop-rule" => Edit::DropRule {
            mod_id: id_of(rt, first),
            kind: kind_of(second),
            refers: id_of(rt, third),
        },
        "override" => Edit::SetOverride {
            path: path_of(rt, first),
            mod_id: id_of(rt, second),
        },
        "drop-override" => Edit::DropOverride(path_of(rt, first)),
        "release" => Edit::Release {
            mod_id: id_of(rt, first),
            release: release_of(rt, second),
        },
        _ => Edit::Upgrade,
    }
}

// What an edit answers, where there may be so many mods.
fn answer(
    rt: &(impl AllocGlobal + Abort),
    profile: &mut Profile,
    words: &str,
    most_mods: u32,
) -> String {
    let edit = edit_of(rt, words);
    match apply(rt.alloc(), profile, &edit, most_mods) {
        Ok(true) => "changed".to_string(rt.alloc()).expect(rt, "memory"),
        Ok(false) => "unchanged".to_string(rt.alloc()).expect(rt, "memory"),
        Err(e) => format!(in rt.alloc(); "{e:?}").expect(rt, "memory"),
    }
}

// The edit answers so, and makes of the one profile the other.
fn check(rt: &(impl AllocGlobal + Abort), from: &str, words: &str, wanted: &str, to: &str) {
    let mut profile = profile_of(rt, from);
    let found = answer(rt, &mut profile, words, 3);
    assert_eq!(rt; found.as_str(), wanted, "{words}");
    check_profile(rt, profile, to);
}

const MODS: &str = "version = 1
mods = [{ id = 'a', rules = [{ kind = 'before', ref = 'c' }] }, { id = 'b', enabled = false }]";

#[test]
fn mods_and_rules_change_and_keep_their_order(rt: HostRuntime) {
    for (words, to) in [
        (
            "enable b",
            "version = 1
mods = [{ id = 'a', rules = [{ kind = 'before', ref = 'c' }] }, { id = 'b' }]",
        ),
        (
            "enable 0",
            "version = 1
mods = [{ id = 'a', rules = [{ kind = 'before', ref = 'c' }] }, { id = 'b', enabled = false },
    { id = '0' }]",
        ),
        (
            "disable a",
            "version = 1
mods = [{ id = 'a', enabled = false, rules = [{ kind = 'before', ref = 'c' }] },
    { id = 'b', enabled = false }]",
        ),
        (
            "rule a after z",
            "version = 1
mods = [{ id = 'a', rules = [{ kind = 'before', ref = 'c' }, { kind = 'after', ref = 'z' }] },
    { id = 'b', enabled = false }]",
        ),
        (
            "drop-rule a before c",
            "version = 1\nmods = [{ id = 'a' }, { id = 'b', enabled = false }]",
        ),
    ] {
        check(&rt, MODS, words, "changed", to);
    }
}

// A rule goes by its kind and reference alone.
#[test]
fn the_first_such_rule_is_dropped(rt: HostRuntime) {
    check(
        &rt,
        "version = 2
mods = [{ id = 'a', rules = [{ kind = 'before', ref = 'b' }, { kind = 'after', ref = 'c' },
    { kind = 'after', ref = 'b', range = '^1', note = 1 }, { kind = 'after', ref = 'b' }] }]",
        "drop-rule a after b",
        "changed",
        "version = 2
mods = [{ id = 'a', rules = [{ kind = 'before', ref = 'b' }, { kind = 'after', ref = 'c' },
    { kind = 'after', ref = 'b' }] }]",
    );
}

const OVERRIDES: &str = "version = 1
mods = [{ id = 'a' }, { id = 'b' }]
overrides = [{ path = 'x', mod = 'a', note = 1 }, { path = 'd/y', mod = 'a' }]";

#[test]
fn overrides_change_in_their_place(rt: HostRuntime) {
    for (words, to) in [
        (
            "override x b",
            "version = 1
mods = [{ id = 'a' }, { id = 'b' }]
overrides = [{ path = 'x', mod = 'b', note = 1 }, { path = 'd/y', mod = 'a' }]",
        ),
        (
            "override d b",
            "version = 1
mods = [{ id = 'a' }, { id = 'b' }]
overrides = [{ path = 'x', mod = 'a', note = 1 }, { path = 'd/y', mod = 'a' },
    { path = 'd', mod = 'b' }]",
        ),
        (
            "drop-override x",
            "version = 1
mods = [{ id = 'a' }, { id = 'b' }]
overrides = [{ path = 'd/y', mod = 'a' }]",
        ),
    ] {
        check(&rt, OVERRIDES, words, "changed", to);
    }
}

#[test]
fn an_upgrade_and_releases_keep_unknown_keys(rt: HostRuntime) {
    check(
        &rt,
        "version = 1
note = 1
mods = [{ id = 'a', note = 2, rules = [{ kind = 'after', ref = 'b', note = 3 }] }]
overrides = [{ path = 'x', mod = 'a', fold = 4, types = 5, release = 6, type = 7, range = 8 }]",
        "upgrade",
        "changed",
        "version = 2
note = 1
mods = [{ id = 'a', note = 2, rules = [{ kind = 'after', ref = 'b', note = 3 }] }]
overrides = [{ path = 'x', mod = 'a', fold = 4, types = 5, release = 6, type = 7, range = 8 }]",
    );
    check(
        &rt,
        "version = 2\nmods = [{ id = 'b' }, { id = 'a', release = '1.4.0', note = 1 }]",
        "release a 2.1.0",
        "changed",
        "version = 2\nmods = [{ id = 'b' }, { id = 'a', release = '2.1.0', note = 1 }]",
    );
}

// A profile in which each edit has something to be refused for.
const NEW: &str = "version = 2
mods = [{ id = 'a', release = '1.0.0', rules = [{ kind = 'after', ref = 'b', range = '^1' }] },
    { id = 'b', enabled = false }, { id = 'c' }]
overrides = [{ path = 'x', mod = 'a' }]";

#[test]
fn an_edit_that_changes_nothing_or_is_refused_leaves_the_profile(rt: HostRuntime) {
    for (words, wanted) in [
        ("enable a", "unchanged"),
        ("disable b", "unchanged"),
        ("override x a", "unchanged"),
        ("release a 1.0.0", "unchanged"),
        ("upgrade", "unchanged"),
        ("enable z", "TooMany(4)"),
        ("disable z", "NoMod(z)"),
        ("rule z after a", "NoMod(z)"),
        ("drop-rule z after a", "NoMod(z)"),
        ("override x z", "NoMod(z)"),
        ("release z 1.0.0", "NoMod(z)"),
        ("rule a after b", "SameRule"),
        ("drop-rule a before b", "NoRule"),
        ("drop-rule a after c", "NoRule"),
        ("drop-override q/x", "NoOverride(q/x)"),
    ] {
        check(&rt, NEW, words, wanted, NEW);
    }
    check(&rt, MODS, "release a 1.0.0", "OldProfile", MODS);
    check(&rt, MODS, "release z 1.0.0", "OldProfile", MODS);
}

// By mod, and in a mod its release before its type and its rules.
#[test]
fn an_upgrade_tells_the_first_key_that_is_taken(rt: HostRuntime) {
    for (items, wanted) in [
        (
            "mods = [{ id = 'a', release = 1 }]\ntypes = []\nfold = false",
            "KeyTaken(fold)",
        ),
        (
            "mods = [{ id = 'a', release = 1 }]\ntypes = []",
            "KeyTaken(types)",
        ),
        (
            "mods = [{ id = 'a', release = 1 }]",
            "KeyTaken(mods[0].release)",
        ),
        (
            "mods = [{ id = 'a', type = 1, release = 2, rules = [
    { kind = 'after', ref = 'b', range = 3 }] }]",
            "KeyTaken(mods[0].release)",
        ),
        (
            "mods = [{ id = 'a', type = 1, rules = [
    { kind = 'after', ref = 'b', range = 3 }] }, { id = 'b', release = 4 }]",
            "KeyTaken(mods[0].type)",
        ),
        (
            "mods = [{ id = 'a' }, { id = 'b', rules = [{ kind = 'after', ref = 'a' },
    { kind = 'after', ref = 'b', range = 1 }] }, { id = 'c', release = 2 }]",
            "KeyTaken(mods[1].rules[1].range)",
        ),
    ] {
        let text = format!(in rt.alloc(); "version = 1\n{items}").expect(&rt, "memory");
        check(&rt, text.as_str(), "upgrade", wanted, text.as_str());
    }
}

// The edits one after another answer so, where there may be so many mods.
fn check_answers(
    rt: &(impl AllocGlobal + Abort),
    profile: &mut Profile,
    most_mods: u32,
    table: &[(&str, &str)],
) {
    for (words, wanted) in table {
        let found = answer(rt, profile, *words, most_mods);
        assert_eq!(rt; found.as_str(), *wanted, "{words}");
    }
}

#[test]
fn edits_come_one_after_another(rt: HostRuntime) {
    let mut profile = Profile::plain(rt.alloc());
    let table = [
        ("enable a", "changed"),
        ("enable z", "TooMany(2)"),
        ("rule a after b", "changed"),
        ("rule a after b", "SameRule"),
        ("release a 1.0.0", "OldProfile"),
        ("upgrade", "changed"),
        ("upgrade", "unchanged"),
        ("release a 1.0.0", "changed"),
        ("override x a", "changed"),
        ("disable a", "changed"),
    ];
    check_answers(&rt, &mut profile, 1, table.as_slice());
    check_profile(
        &rt,
        profile,
        "version = 2
mods = [{ id = 'a', enabled = false, release = '1.0.0', rules = [{ kind = 'after', ref = 'b' }] }]
overrides = [{ path = 'x', mod = 'a' }]",
    );
}

// Whether the first rule of the mod `patch` admits the mod `base`.
fn patch_admits_base(rt: &(impl AllocGlobal + Abort), profile: &Profile) -> bool {
    let mods = profile.mods();
    let base = mods.get(&id_of(rt, "base")).expect(rt, "the mod base");
    let patch = mods.get(&id_of(rt, "patch")).expect(rt, "the mod patch");
    let rule = patch.rules().first().expect(rt, "a rule");
    rule.admits(base.release())
}

#[test]
fn a_release_brings_a_mod_into_a_range(rt: HostRuntime) {
    let mut profile = profile_of(
        &rt,
        "version = 2
mods = [{ id = 'base', release = '1.4.0' },
    { id = 'patch', rules = [{ kind = 'requires', ref = 'base', range = '^2' }] }]",
    );
    assert!(&rt; !patch_admits_base(&rt, &profile));
    let told = answer(&rt, &mut profile, "release base 2.1.0", 2);
    assert_eq!(&rt; told.as_str(), "changed");
    assert!(&rt; patch_admits_base(&rt, &profile));
}
