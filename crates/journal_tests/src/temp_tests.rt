// Temps that are written, brought to their places, discarded and swept away.
ghost use Rattle.std.specs.Prelude.{◌≡◌};
ghost use Rattle.intent_journal.specs.declared.temp.Temp.TheVariants.{Manifest};

use crate::looks::{need_control, need_open};
use crate::spent::{check_steps, give_up};
use intent_journal::{Temp, TempFile, discard, install, sweep_temps, write_temp};
use rel_paths::Control;
use std::process::Abort;
use test_worlds::{bytes_of, fail_call, kind_of, shown, world};
use tree_fs::{Kind, TreeError};
use tree_mem::MemTree;

fn written(rt: &(impl AllocGlobal + Abort), tree: &mut MemTree) -> TempFile
    ensures { result ≡ Manifest }
{
    need_open(tree, Control::ManifestTemp).expect(rt, "an open temp");
    write_temp(tree, Temp::Manifest, b"new").expect(rt, "a temp")
}

// Whether the temp comes to its place.
fn is_installed(rt: &(impl AllocGlobal + Abort), tree: &mut MemTree, temp: TempFile) -> bool
    requires { temp ≡ Manifest }
{
    need_control(tree, Control::ManifestTemp).expect(rt, "a temp");
    need_open(tree, Control::Manifest).expect(rt, "an open place");
    match install(temp, tree) {
        Ok(()) => true,
        Err(held) => {
            give_up(tree, held);
            false
        }
    }
}

#[test]
fn a_temp_takes_the_place_of_an_old_file(rt: HostRuntime) {
    let lines = "game/vortex.deployment.json = \"old\"\nkeep/manifest.tmp = \"left\"";
    let mut tree = world(rt.alloc(), lines).expect(&rt, "a world");
    let temp = written(&rt, &mut tree);
    assert!(&rt; is_installed(&rt, &mut tree, temp));
    check_steps(&rt, &tree, INSTALLED);
    let left = shown(rt.alloc(), &mut tree, "game").expect(&rt, "a folder");
    assert_eq!(&rt; left.as_str(), "game/vortex.deployment.json = \"new\"\n");
    let kept = shown(rt.alloc(), &mut tree, "keep").expect(&rt, "a folder");
    assert_eq!(&rt; kept.as_str(), "");
}

const INSTALLED: &str = "unlink keep/manifest.tmp
create keep/manifest.tmp
fill keep/manifest.tmp
firm keep/manifest.tmp
rename keep/manifest.tmp game/vortex.deployment.json
sync game
sync keep
";

#[test]
fn a_temp_that_is_discarded_is_gone(rt: HostRuntime) {
    let mut tree = world(rt.alloc(), "").expect(&rt, "a world");
    let temp = written(&rt, &mut tree);
    let kept = bytes_of(rt.alloc(), &mut tree, "keep/manifest.tmp").expect(&rt, "a temp");
    assert!(&rt; kept.as_slice() == b"new".as_slice());
    discard(temp, &mut tree).expect(&rt, "a call");
    let kind = kind_of(rt.alloc(), &mut tree, "keep/manifest.tmp").expect(&rt, "a look");
    assert!(&rt; kind == Kind::Absent);
    check_steps(&rt, &tree, DISCARDED);
}

const DISCARDED: &str = "create keep/manifest.tmp
fill keep/manifest.tmp
firm keep/manifest.tmp
unlink keep/manifest.tmp
";

// What a sweep answers in this world, and its steps.
fn check_sweep(rt: &(impl AllocGlobal + Abort), tree: &mut MemTree, wanted: &str, steps: &str) {
    need_open(tree, Control::IntentTemp).expect(rt, "an open temp");
    need_open(tree, Control::ManifestTemp).expect(rt, "an open temp");
    need_open(tree, Control::ProfileTemp).expect(rt, "an open temp");
    let answer = match sweep_temps(tree) {
        Ok(()) => "swept",
        Err(TreeError::Failed) => "failed",
        Err(TreeError::Memory) => "memory",
    };
    assert_eq!(rt; answer, wanted);
    check_steps(rt, tree, steps);
}

#[test]
fn a_sweep_takes_the_temps_away(rt: HostRuntime) {
    for (lines, steps) in [
        ("", "sync keep\n"),
        (
            "keep/intent.json = \"{}\"\nkeep/profile.toml = \"\"",
            "sync keep\n",
        ),
        (
            "keep/manifest.tmp = \"\"",
            "unlink keep/manifest.tmp\nsync keep\n",
        ),
        (ALL_TEMPS, ALL_SWEPT),
    ] {
        let mut tree = world(rt.alloc(), lines).expect(&rt, "a world");
        check_sweep(&rt, &mut tree, "swept", steps);
    }
}

const ALL_TEMPS: &str = "keep/profile.tmp = \"p\"
keep/manifest.tmp = \"m\"
keep/intent.tmp = \"i\"";

const ALL_SWEPT: &str = "unlink keep/intent.tmp
unlink keep/manifest.tmp
unlink keep/profile.tmp
sync keep
";

#[test]
fn a_sweep_ends_at_a_call_that_fails(rt: HostRuntime) {
    for (call, done, steps) in [
        (3, false, ""),
        (4, false, "unlink keep/intent.tmp (not done)\n"),
        (4, true, "unlink keep/intent.tmp\n"),
        (
            6,
            true,
            "unlink keep/intent.tmp\nunlink keep/manifest.tmp\n",
        ),
    ] {
        let mut tree = world(rt.alloc(), ALL_TEMPS).expect(&rt, "a world");
        fail_call(rt.alloc(), &mut tree, call, done).expect(&rt, "memory");
        check_sweep(&rt, &mut tree, "failed", steps);
    }
}
