// How often a planner calls the tree.
use super::deploying::{OF_ABC, manifest, planned_within};
use std::process::Abort;
use test_worlds::world;

const MODS: [(&str, bool); 1] = [("b", false)];

// The world of so many files of the mod `b` in each of so many folders, deployed or not.
fn lines_of(
    rt: &(impl AllocGlobal + Abort),
    folders: u32,
    files: u32,
    is_deployed: bool,
) -> String {
    let mut lines = String::new(rt.alloc());
    for folder in 0..folders {
        for file in 0..files {
            let path = format!(in rt.alloc(); "d{folder}/f{file}").expect(rt, "memory");
            let staged = format!(in rt.alloc(); "stage/b/{path} = \"abc\"\n").expect(rt, "memory");
            lines.push_str(staged.as_str()).expect(rt, "memory");
            let linked = format!(in rt.alloc(); "game/{path} = stage/b/{path}\n");
            if is_deployed {
                lines
                    .push_str(linked.expect(rt, "memory").as_str())
                    .expect(rt, "memory");
            }
        }
    }
    lines
}

// The manifest of these files, which has at most ten folders with at most ten files each.
fn text_of(rt: &(impl AllocGlobal + Abort), folders: u32, files: u32) -> String {
    let mut rows = String::new(rt.alloc());
    for folder in 0..folders {
        for file in 0..files {
            let comma = if rows.is_empty() { "" } else { "," };
            let path = format!(in rt.alloc(); "d{folder}/f{file}").expect(rt, "memory");
            let names = format!(in rt.alloc(); "\"mod\":\"b\",\"path\":\"{path}\"");
            let names = names.expect(rt, "memory");
            let rest = format!(in rt.alloc(); "\"shadowed\":false,\"source\":\"{path}\"");
            let rest = rest.expect(rt, "memory");
            let row = format!(in rt.alloc(); "{comma}{{\"digest\":\"{OF_ABC}\",{names},{rest}}}");
            rows.push_str(row.expect(rt, "memory").as_str())
                .expect(rt, "memory");
        }
    }
    let text = format!(in rt.alloc(); "{{\"files\":[{rows}],\"folders\":[],\"version\":2}}");
    text.expect(rt, "memory")
}

// Stops where a plan takes more calls.
fn check_calls(rt: &(impl AllocGlobal + Abort), lines: &str, old: &str, most: u64) {
    let mut tree = world(rt.alloc(), lines).expect(rt, "a world");
    let old = manifest(rt, old);
    let answer = planned_within(rt, &mut tree, MODS.as_slice(), &old, most);
    assert!(rt; answer.is_ok(), "more than {most} calls");
}

// 100 rows.
#[test]
fn a_deployment_with_nothing_to_do_takes_three_calls_a_row(rt: HostRuntime) {
    let lines = lines_of(&rt, 10, 10, true);
    check_calls(&rt, lines.as_str(), text_of(&rt, 10, 10).as_str(), 300);
}

const EMPTY: &str = "{\"files\":[],\"folders\":[],\"version\":2}";

// 100 files in 10 new folders.
#[test]
fn a_first_deployment_takes_four_calls_a_file_and_two_a_folder(rt: HostRuntime) {
    let lines = lines_of(&rt, 10, 10, false);
    check_calls(&rt, lines.as_str(), EMPTY, 420);
}
