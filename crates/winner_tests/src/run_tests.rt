// Merges of runs of paths, and how often they compare.
ghost use Rattle.std.specs.Prelude.{◌≡◌, length, All, IsTrue};
ghost use Rattle.winner_table.specs.Merged.{AreAscending};

use rel_paths::RelPath;
use std::process::Abort;
use winner_table::{PathOrder, merge_runs};

fn run_of(rt: &(impl AllocGlobal + Abort), texts: &[&str]) -> Vec<RelPath> {
    let mut run = Vec::new(rt.alloc());
    for text in texts {
        let path = RelPath::parse(rt.alloc(), *text).expect(rt, "a path");
        assert!(rt; run.push(path).is_ok());
    }
    run
}

fn runs_of(rt: &(impl AllocGlobal + Abort), texts: &[&[&str]]) -> Vec<Vec<RelPath>> {
    let mut runs = Vec::new(rt.alloc());
    for run in texts {
        assert!(rt; runs.push(run_of(rt, *run)).is_ok());
    }
    runs
}

fn are_ascending(runs: &[Vec<RelPath>]) -> bool
    ensures { IsTrue result → All (λ run. AreAscending (λ path. path) run.items) runs.now }
{
    for run in runs {
        if !run.as_slice().is_sorted() {
            return false;
        }
    }
    true
}

// The runs as one, which has to have these paths, and how many comparisons that took.
fn count_of(rt: &(impl AllocGlobal + Abort), texts: &[&[&str]], wanted: &[&str]) -> u128 {
    let runs = runs_of(rt, texts);
    assert!(rt; runs.len() <= 8);
    assert!(rt; are_ascending(runs.as_slice()));
    let mut order = PathOrder::new();
    let merged = merge_runs(runs, &mut order).ok().expect(rt, "memory");
    assert_eq!(rt; merged.len(), wanted.len());
    for (path, text) in merged.iter().zip(wanted) {
        assert_eq!(rt; path.text(), *text);
    }
    order.count()
}

#[test]
fn five_runs_with_twelve_paths(rt: HostRuntime) {
    let runs: [&[&str]; 5] = [
        &["b", "e", "h"],
        &["a", "c"],
        &["d", "f", "i", "l"],
        &["g"],
        &["j", "k"],
    ];
    let wanted = ["a", "b", "c", "d", "e", "f", "g", "h", "i", "j", "k", "l"];
    let count = count_of(&rt, runs.as_slice(), wanted.as_slice());
    assert!(&rt; count <= 36);
}

#[test]
fn one_run_takes_no_comparison(rt: HostRuntime) {
    let runs: [&[&str]; 1] = [&["a", "b", "c"]];
    assert_eq!(&rt;
        count_of(&rt, runs.as_slice(), ["a", "b", "c"].as_slice()),
        0
    );
}

#[test]
fn no_runs_give_the_empty_list(rt: HostRuntime) {
    let runs: [&[&str]; 0] = [];
    let wanted: [&str; 0] = [];
    assert_eq!(&rt; count_of(&rt, runs.as_slice(), wanted.as_slice()), 0);
}
