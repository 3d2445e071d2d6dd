// What winners and reports cost.
ghost use Rattle.std.specs.Prelude.{◌≡◌, length};

use super::reports::need_report;
use super::worlds::{graph_of, need_winners};
use mod_rules::Graph;
use rel_paths::{ModId, RelPath};
use stage_scan::{Files, Scan};
use std::process::Abort;
use std::time::{CpuClock, Duration};

// So many files, whose names are numbers from this one on.
fn files_from(rt: &(impl AllocGlobal + Abort), first: u64, count: u32) -> Files {
    let mut paths = Vec::new(rt.alloc());
    for i in 0..count {
        let text = format!(in rt.alloc(); "{}", first.saturating_add(i as u64));
        let path = RelPath::parse(rt.alloc(), text.expect(rt, "memory").as_str());
        assert!(rt; paths.push(path.expect(rt, "a path")).is_ok());
    }
    Files::checked(paths).expect(rt, "paths in order")
}

// So many mods of so many files each. The files of each mod begin so many files behind those of the
// one before it, with which it shares the rest.
fn wide(rt: &(impl AllocGlobal + Abort), mods: u32, files: u32, step: u32) -> Vec<Scan> {
    let mut scans = Vec::new(rt.alloc());
    let mut first = 100_000u64;
    for i in 0..mods {
        let id = format!(in rt.alloc(); "m{i}").expect(rt, "memory");
        let scan = Scan {
            mod_id: ModId::parse(rt.alloc(), id.as_str()).expect(rt, "an id"),
            files: files_from(rt, first, files),
            entries: files,
        };
        assert!(rt; scans.push(scan).is_ok());
        first = first.saturating_add(step as u64);
    }
    scans
}

// The edges from each of so many nodes to so many of those behind it.
fn edges_ahead(rt: &(impl AllocGlobal + Abort), mods: u32, each: u32) -> Vec<(u32, u32)> {
    let mut edges = Vec::new(rt.alloc());
    for first in 0..mods {
        for second in 0..mods {
            if second > first && second - first <= each {
                assert!(rt; edges.push((first, second)).is_ok());
            }
        }
    }
    edges
}

// The order of so many nodes by their numbers.
fn numbered(rt: &(impl AllocGlobal + Abort), count: u32) -> Vec<u32> {
    let mut order = Vec::new(rt.alloc());
    for node in 0..count {
        assert!(rt; order.push(node).is_ok());
    }
    order
}

fn now(rt: &(impl CpuClock + Abort)) -> Duration {
    rt.thread_cpu_time().expect(rt, "a clock")
}

// The least processor time of three tries for the winners.
fn winners_time(rt: &(impl AllocGlobal + CpuClock + Abort), mods: u32, files: u32) -> Duration {
    let scans = wide(rt, mods, files, 7);
    let order = numbered(rt, mods);
    let mut least = Duration::MAX;
    for _ in 0..3u8 {
        let start = now(rt);
        need_winners(rt, scans.as_slice(), order.as_slice());
        least = least.min(now(rt).saturating_sub(start));
    }
    least
}

// The processor time for load order, winners and report.
fn time_of(rt: &(impl AllocGlobal + CpuClock + Abort), graph: &Graph, scans: &[Scan]) -> Duration
    requires { graph.now.count ≡ length scans.now }
{
    let start = now(rt);
    need_report(rt, graph, scans);
    now(rt).saturating_sub(start)
}

// The least processor time of three tries for load order, winners and report, of so many mods with
// so many files each and edges to so many mods each.
fn report_time(
    rt: &(impl AllocGlobal + CpuClock + Abort),
    mods: u32,
    files: u32,
    step: u32,
    each: u32,
) -> Duration {
    let scans = wide(rt, mods, files, step);
    let edges = edges_ahead(rt, mods, each);
    let graph = graph_of(rt, scans.len(), edges.as_slice());
    let mut least = Duration::MAX;
    for _ in 0..3u8 {
        least = least.min(time_of(rt, &graph, scans.as_slice()));
    }
    least
}

// Whether the winners of four times the files take less than nine times as long in one of ten
// rounds: other work on the machine may slow down some of them.
fn winners_take_linear_time(rt: &(impl AllocGlobal + CpuClock + Abort)) -> bool {
    for _ in 0..10u8 {
        let few = winners_time(rt, 30, 400);
        let many = winners_time(rt, 30, 1600);
        if many.as_nanos() / 9 < few.as_nanos() {
            return true;
        }
    }
    false
}

// The same for load order, winners and report.
fn reports_take_linear_time(rt: &(impl AllocGlobal + CpuClock + Abort)) -> bool {
    for _ in 0..10u8 {
        let few = report_time(rt, 30, 400, 7, 5);
        let many = report_time(rt, 30, 1600, 7, 5);
        if many.as_nanos() / 9 < few.as_nanos() {
            return true;
        }
    }
    false
}

#[test]
fn four_times_the_files_take_less_than_nine_times_the_time(rt: HostRuntime) {
    assert!(&rt; winners_take_linear_time(&rt));
}

#[test]
fn four_times_the_files_are_reported_in_less_than_nine_times_the_time(rt: HostRuntime) {
    assert!(&rt; reports_take_linear_time(&rt));
}

#[test]
fn the_files_of_120_mods_are_reported_well_within_a_second(rt: HostRuntime) {
    let time = report_time(&rt, 120, 100, 50, 1);
    assert!(&rt; time < Duration::from_millis(500), "{time:?}");
}

// 2,000 mods have 200,000 files and 100,674 edges. Each mod shares half of its files with the next,
// or all mods have the same files.
#[test]
fn worlds_at_the_limits_are_reported_in_a_few_seconds(rt: HostRuntime) {
    for step in [50, 0] {
        let time = report_time(&rt, 2_000, 100, step, 51);
        assert!(&rt; time < Duration::from_secs(4), "{time:?} at {step}");
    }
}
