// The number and the line of each refusal.
use super::values::{id, ids, name, path, place, text};
use answer_lines::{
    EarlyRefusal, EditRefusal, ForeignRefusal, Ids, InputRefusal, ManifestRefusal, NamedRefusal,
    PlanRefusal, ProfileRefusal, RecoveryRefusal, Refusal, RuleRefusal, ScanRefusal, refusal_line,
};
use manifest_json::Spot;
use std::process::Abort;

// The refusal has this number, and its line is `refused`, a tab, this and a line feed.
fn check(rt: &(impl AllocGlobal + Abort), refusal: Refusal, number: u8, rest: &str) {
    assert_eq!(rt; refusal.number(), number);
    let wanted = format!(in rt.alloc(); "refused\t{rest}\n").expect(rt, "memory");
    let line = refusal_line(rt.alloc(), &refusal).expect(rt, "memory");
    assert!(rt; line.as_slice() == wanted.as_bytes());
}

fn profile(rt: &(impl AllocGlobal + Abort), refusal: ProfileRefusal, number: u8, rest: &str) {
    check(rt, Refusal::Profile(refusal), number, rest);
}

fn scan(rt: &(impl AllocGlobal + Abort), refusal: ScanRefusal, number: u8, rest: &str) {
    check(rt, Refusal::Scan(refusal), number, rest);
}

fn manifest(rt: &(impl AllocGlobal + Abort), refusal: ManifestRefusal, number: u8, rest: &str) {
    check(rt, Refusal::Manifest(refusal), number, rest);
}

fn plan(rt: &(impl AllocGlobal + Abort), refusal: PlanRefusal, number: u8, rest: &str) {
    check(rt, Refusal::Plan(refusal), number, rest);
}

#[test]
fn refusals_of_the_whole_profile(rt: HostRuntime) {
    profile(&rt, ProfileRefusal::ProfileNotToml, 1, "1\tProfileNotToml");
    profile(&rt, ProfileRefusal::ProfileDeep, 2, "2\tProfileDeep");
    profile(&rt, ProfileRefusal::ProfileFloat, 3, "3\tProfileFloat");
    profile(&rt, ProfileRefusal::ProfileVersion, 4, "4\tProfileVersion");
    let count = ProfileRefusal::TooManyMods(2001);
    profile(&rt, count, 10, "10\tTooManyMods\t2001");
    let long = ProfileRefusal::TooLong(place(&rt, "game/vortex.deployment.json"));
    profile(&rt, long, 11, "11\tTooLong\tgame/vortex.deployment.json");
}

#[test]
fn refusals_of_a_value_of_the_profile(rt: HostRuntime) {
    let shape = ProfileRefusal::ProfileShape(text(&rt, "mods[3].rules[0].kind"));
    profile(&rt, shape, 5, "5\tProfileShape\tmods[3].rules[0].kind");
    let same = ProfileRefusal::SameMod(id(&rt, "a"));
    profile(&rt, same, 6, "6\tSameMod\ta");
    let twice = ProfileRefusal::SameOverride(path(&rt, "d/x.txt"));
    profile(&rt, twice, 7, "7\tSameOverride\td/x.txt");
    let bad = ProfileRefusal::BadPath(text(&rt, "../x"));
    profile(&rt, bad, 8, "8\tBadPath\t../x");
    let kind = ProfileRefusal::BadKind(text(&rt, "beside"));
    profile(&rt, kind, 9, "9\tBadKind\tbeside");
}

#[test]
fn refusals_of_a_release_or_a_type(rt: HostRuntime) {
    let release = ProfileRefusal::BadRelease(text(&rt, "1.0"));
    profile(&rt, release, 46, "46\tBadRelease\t1.0");
    let range = ProfileRefusal::BadRange(text(&rt, "^"));
    profile(&rt, range, 47, "47\tBadRange\t^");
    let same = ProfileRefusal::SameType(id(&rt, "t"));
    profile(&rt, same, 50, "50\tSameType\tt");
    let none = ProfileRefusal::NoType(text(&rt, "no/type"));
    profile(&rt, none, 51, "51\tNoType\tno/type");
}

fn edit(rt: &(impl AllocGlobal + Abort), refusal: EditRefusal, number: u8, rest: &str) {
    check(rt, Refusal::Edit(refusal), number, rest);
}

#[test]
fn refusals_of_edits(rt: HostRuntime) {
    let none = EditRefusal::NoMod(id(&rt, "z"));
    edit(&rt, none, 12, "12\tNoMod\tz");
    edit(&rt, EditRefusal::SameRule, 13, "13\tSameRule");
    edit(&rt, EditRefusal::NoRule, 14, "14\tNoRule");
    let no_override = EditRefusal::NoOverride(path(&rt, "q"));
    edit(&rt, no_override, 15, "15\tNoOverride\tq");
    let taken = EditRefusal::KeyTaken(text(&rt, "mods[0].release"));
    edit(&rt, taken, 48, "48\tKeyTaken\tmods[0].release");
    edit(&rt, EditRefusal::OldProfile, 49, "49\tOldProfile");
}

fn rules(rt: &(impl AllocGlobal + Abort), refusal: RuleRefusal, number: u8, rest: &str) {
    check(rt, Refusal::Rules(refusal), number, rest);
}

#[test]
fn refusals_of_rules(rt: HostRuntime) {
    let missing = RuleRefusal::Missing {
        mod_id: id(&rt, "a"),
        needs: id(&rt, "b"),
    };
    rules(&rt, missing, 16, "16\tMissing\ta\tb");
    let conflict = RuleRefusal::Conflict {
        mod_id: id(&rt, "b"),
        other: id(&rt, "a"),
    };
    rules(&rt, conflict, 17, "17\tConflict\tb\ta");
    let cycle = RuleRefusal::Cycle(Ids::new(ids(&rt, &["a", "c", "b"])));
    rules(&rt, cycle, 18, "18\tCycle\ta\tc\tb");
}

#[test]
fn refusals_of_an_entry_of_a_mod(rt: HostRuntime) {
    let none = ScanRefusal::NoFolder(id(&rt, "a"));
    scan(&rt, none, 19, "19\tNoFolder\ta");
    let odd = ScanRefusal::OddEntry {
        folder: place(&rt, "stage/a/d"),
        name: name(&rt, "pipe"),
    };
    scan(&rt, odd, 20, "20\tOddEntry\tstage/a/d\tpipe");
    let bad = ScanRefusal::BadEntry {
        folder: place(&rt, "stage/a"),
        name: name(&rt, "x\\y"),
    };
    scan(&rt, bad, 21, "21\tBadEntry\tstage/a\tx\\y");
    let reserved = ScanRefusal::Reserved(place(&rt, "stage/a/x.vortex_backup"));
    scan(&rt, reserved, 22, "22\tReserved\tstage/a/x.vortex_backup");
    let many = ScanRefusal::TooManyEntries(200_000);
    scan(&rt, many, 23, "23\tTooManyEntries\t200000");
}

#[test]
fn refusals_of_a_path_of_mods(rt: HostRuntime) {
    let both = ScanRefusal::FileAndFolder(path(&rt, "p"));
    scan(&rt, both, 24, "24\tFileAndFolder\tp");
    let long = ScanRefusal::TargetLong {
        mod_id: id(&rt, "a"),
        path: path(&rt, "d/s"),
    };
    scan(&rt, long, 52, "52\tTargetLong\ta\td/s");
    let two = ScanRefusal::TwoSpellings {
        mod_id: id(&rt, "a"),
        path: path(&rt, "x"),
    };
    scan(&rt, two, 55, "55\tTwoSpellings\ta\tx");
    let reserved = ScanRefusal::FoldReserved {
        mod_id: id(&rt, "a"),
        path: path(&rt, "Vortex.Deployment.json"),
    };
    scan(
        &rt,
        reserved,
        56,
        "56\tFoldReserved\ta\tVortex.Deployment.json",
    );
}

#[test]
fn refusals_of_the_manifest(rt: HostRuntime) {
    manifest(
        &rt,
        ManifestRefusal::ManifestNotJson,
        25,
        "25\tManifestNotJson",
    );
    manifest(
        &rt,
        ManifestRefusal::ManifestVersion,
        26,
        "26\tManifestVersion",
    );
    let shape = ManifestRefusal::ManifestShape(Spot::Top);
    manifest(&rt, shape, 27, "27\tManifestShape\ttop");
    let bad = ManifestRefusal::ManifestBadPath(Spot::Folder(0));
    manifest(&rt, bad, 28, "28\tManifestBadPath\tfolder 0");
    let order = ManifestRefusal::ManifestOrder(Spot::File(12));
    manifest(&rt, order, 29, "29\tManifestOrder\tfile 12");
    let nested = ManifestRefusal::ManifestNested(Spot::File(3));
    manifest(&rt, nested, 30, "30\tManifestNested\tfile 3");
    let source = ManifestRefusal::ManifestSource(Spot::File(1));
    manifest(&rt, source, 53, "53\tManifestSource\tfile 1");
}

#[test]
fn refusals_of_plans(rt: HostRuntime) {
    let found = PlanRefusal::ChangesFound {
        path: path(&rt, "x.txt"),
        count: 1,
    };
    plan(&rt, found, 31, "31\tChangesFound\tx.txt\t1");
    let turned = PlanRefusal::Turned(path(&rt, "p/q"));
    plan(&rt, turned, 32, "32\tTurned\tp/q");
    let backup = PlanRefusal::BackupTaken(path(&rt, "x.txt"));
    plan(&rt, backup, 34, "34\tBackupTaken\tx.txt");
    plan(&rt, PlanRefusal::AsideFull, 35, "35\tAsideFull");
    let long = PlanRefusal::PlanTooLong(314);
    plan(&rt, long, 36, "36\tPlanTooLong\t314");
    let longest = PlanRefusal::PlanTooLong(u64::MAX);
    plan(&rt, longest, 36, "36\tPlanTooLong\t18446744073709551615");
}

#[test]
fn a_place_is_printed_with_its_root(rt: HostRuntime) {
    let blocked = PlanRefusal::Blocked(place(&rt, "game/d/x.txt"));
    plan(&rt, blocked, 33, "33\tBlocked\tgame/d/x.txt");
    let in_keep = PlanRefusal::Blocked(place(&rt, "keep/aside"));
    plan(&rt, in_keep, 33, "33\tBlocked\tkeep/aside");
    let root = PlanRefusal::Blocked(place(&rt, "stage"));
    plan(&rt, root, 33, "33\tBlocked\tstage");
}

fn recovery(rt: &(impl AllocGlobal + Abort), refusal: RecoveryRefusal, number: u8, rest: &str) {
    check(rt, Refusal::Recovery(refusal), number, rest);
}

#[test]
fn refusals_of_recoveries(rt: HostRuntime) {
    recovery(&rt, RecoveryRefusal::BadIntent, 37, "37\tBadIntent");
    let gone = RecoveryRefusal::SourceGone(place(&rt, "stage/b/x.txt"));
    recovery(&rt, gone, 38, "38\tSourceGone\tstage/b/x.txt");
    recovery(&rt, RecoveryRefusal::CannotBack, 54, "54\tCannotBack");
}

fn input(rt: &(impl AllocGlobal + Abort), refusal: InputRefusal, number: u8, rest: &str) {
    check(rt, Refusal::Input(refusal), number, rest);
}

#[test]
fn refusals_of_lines_that_are_read(rt: HostRuntime) {
    input(&rt, InputRefusal::LineTooLong(7), 39, "39\tLineTooLong\t7");
    input(&rt, InputRefusal::TooManyLines, 40, "40\tTooManyLines");
    input(&rt, InputRefusal::BadLine(10_000), 41, "41\tBadLine\t10000");
    input(&rt, InputRefusal::BadAnswer(1), 42, "42\tBadAnswer\t1");
}

fn early(rt: &(impl AllocGlobal + Abort), refusal: EarlyRefusal, number: u8, rest: &str) {
    check(rt, Refusal::Early(refusal), number, rest);
}

#[test]
fn refusals_of_what_is_not_deployed_yet(rt: HostRuntime) {
    let taken = EarlyRefusal::Taken(path(&rt, "x.txt"));
    early(&rt, taken, 43, "43\tTaken\tx.txt");
    let folder = EarlyRefusal::Folder(place(&rt, "stage/a/d"));
    early(&rt, folder, 44, "44\tFolder\tstage/a/d");
    early(&rt, EarlyRefusal::NotBuilt, 45, "45\tNotBuilt");
}

fn named(rt: &(impl AllocGlobal + Abort), refusal: NamedRefusal, number: u8, rest: &str) {
    check(rt, Refusal::Named(refusal), number, rest);
}

#[test]
fn refusals_of_named_profiles(rt: HostRuntime) {
    let none = NamedRefusal::NoName(id(&rt, "two"));
    named(&rt, none, 57, "57\tNoName\ttwo");
    let taken = NamedRefusal::NameTaken(id(&rt, "one"));
    named(&rt, taken, 58, "58\tNameTaken\tone");
    named(&rt, NamedRefusal::NoProfile, 59, "59\tNoProfile");
}

fn foreign(rt: &(impl AllocGlobal + Abort), refusal: ForeignRefusal, number: u8, rest: &str) {
    check(rt, Refusal::Foreign(refusal), number, rest);
}

#[test]
fn refusals_of_lists_of_another_manager(rt: HostRuntime) {
    foreign(&rt, ForeignRefusal::ForeignLong, 60, "60\tForeignLong");
    foreign(
        &rt,
        ForeignRefusal::ForeignNotJson,
        61,
        "61\tForeignNotJson",
    );
    let shape = ForeignRefusal::ForeignShape(Spot::File(0));
    foreign(&rt, shape, 62, "62\tForeignShape\tfile 0");
}
