// Lists of files, and scans placed below a base folder.
ghost use Rattle.std.specs.Prelude.{◌≡◌};
ghost use Rattle.rel_paths.specs.Names.{IsBase};

use rel_paths::{ModId, RelPath};
use stage_scan::{BaseError, Files, Placed, Scan, place_below};
use std::process::Abort;

fn path_of(rt: &(impl AllocGlobal + Abort), text: &str) -> RelPath
    ensures { result ≡ text.now }
{
    RelPath::parse(rt.alloc(), text).expect(rt, "a user path")
}

fn paths_of(rt: &(impl AllocGlobal + Abort), texts: &[&str]) -> Vec<RelPath> {
    let mut paths = Vec::new(rt.alloc());
    for text in texts {
        assert!(rt; paths.push(path_of(rt, text)).is_ok());
    }
    paths
}

fn scan_of(rt: &(impl AllocGlobal + Abort), texts: &[&str]) -> Scan {
    Scan {
        mod_id: ModId::parse(rt.alloc(), "a").expect(rt, "an id"),
        files: Files::checked(paths_of(rt, texts)).expect(rt, "free paths in path order"),
        entries: 0,
    }
}

// A base folder of 3 bytes.
fn short_base(rt: &(impl AllocGlobal + Abort)) -> RelPath
    ensures { IsBase result }
{
    path_of(rt, "bin")
}

// A base folder of 10 bytes.
fn long_base(rt: &(impl AllocGlobal + Abort)) -> RelPath
    ensures { IsBase result }
{
    path_of(rt, "bbbbbbbbbb")
}

// Each file and what it is below its mod, or the file that has no place.
fn text_of(rt: &(impl AllocGlobal + Abort), placed: &Result<Placed, BaseError>) -> String {
    let mut text = String::new(rt.alloc());
    match placed {
        Err(e) => text = format!(in rt.alloc(); "{e:?}").expect(rt, "memory"),
        Ok(placed) => {
            let targets = placed.scan.files.as_slice();
            for (target, source) in targets.iter().zip(&placed.sources.paths) {
                let one = format!(in rt.alloc(); "{target}<{source} ").expect(rt, "memory");
                assert!(rt; text.push_str(one.as_str()).is_ok());
            }
        }
    }
    text
}

fn check_below(rt: &(impl AllocGlobal + Abort), base: &RelPath, files: &[&str], wanted: &str)
    requires { IsBase base.now }
{
    let placed = place_below(rt.alloc(), &scan_of(rt, files), Some(base));
    assert_eq!(rt; text_of(rt, &placed).as_str(), wanted);
}

#[test]
fn files_are_joined_behind_the_base(rt: HostRuntime) {
    check_below(
        &rt,
        &short_base(&rt),
        ["a-b", "a/c", "x.txt"].as_slice(),
        "bin/a-b<a-b bin/a/c<a/c bin/x.txt<x.txt ",
    );
}

#[test]
fn without_a_base_files_stay_where_they_are(rt: HostRuntime) {
    let scan = scan_of(&rt, ["d/y", "x"].as_slice());
    let placed = place_below(rt.alloc(), &scan, None);
    assert_eq!(&rt; text_of(&rt, &placed).as_str(), "d/y<d/y x<x ");
}

// A path of 1,020 bytes: four names of 240 bytes and one of 56.
fn long_path(rt: &(impl AllocGlobal + Abort)) -> String {
    let name = "n".repeat(rt.alloc(), 240).expect(rt, "memory");
    let last = "n".repeat(rt.alloc(), 56).expect(rt, "memory");
    format!(in rt.alloc(); "{name}/{name}/{name}/{name}/{last}").expect(rt, "memory")
}

#[test]
fn a_path_of_1020_bytes_has_no_place_below_a_base_of_10(rt: HostRuntime) {
    let path = long_path(&rt);
    let wanted = format!(in rt.alloc(); "TargetLong({path})").expect(&rt, "memory");
    check_below(
        &rt,
        &long_base(&rt),
        ["a", path.as_str()].as_slice(),
        wanted.as_str(),
    );
}

#[test]
fn a_path_of_1020_bytes_fits_below_a_base_of_3(rt: HostRuntime) {
    let path = long_path(&rt);
    let wanted = format!(in rt.alloc(); "bin/{path}<{path} ").expect(&rt, "memory");
    check_below(
        &rt,
        &short_base(&rt),
        [path.as_str()].as_slice(),
        wanted.as_str(),
    );
}

#[test]
fn a_list_of_files_is_in_path_order_and_free(rt: HostRuntime) {
    let cases: [(&[&str], bool); 5] = [
        (&["a", "a-b", "a/c"], true),
        (&[], true),
        (&["b", "a"], false),
        (&["a", "a"], false),
        (&["x.vortex_backup"], false),
    ];
    for (texts, wanted) in cases.as_slice() {
        let files = Files::checked(paths_of(&rt, *texts));
        assert_eq!(&rt; files.is_some(), *wanted);
    }
}
