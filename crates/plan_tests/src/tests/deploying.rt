// Deployments that are planned on worlds written as texts.
ghost use Rattle.std.specs.Prelude.{◌≡◌, false, IsTrue, length, map, nat_eq};
ghost use Rattle.std.specs.List.{AllByRecursion, list_any};
ghost use Rattle.std.specs.Str.{bytes_eq};
ghost use Rattle.std.specs.Cmp.Lexicographic.{pointwise};
ghost use Rattle.tree_fs.specs.Story.{disk_of};
ghost use Rattle.tree_mem.specs.MemStory.{mem_story};
ghost use Rattle.rel_paths.specs.Names.{IsBase};
ghost use Rattle.winner_table.specs.Winners.{HasEachOnce};
ghost use Rattle.deploy_plan.specs.Scanned.{AreScanned, HasOwnIds, IsScanned};

use deploy_plan::{PlanError, make_plan};
use load_order::check_order;
use manifest_json::{Manifest, manifest_text, read_manifest};
use mod_rules::Graph;
use move_plan::{Plan, plan_lines};
use rel_paths::{ModId, RelPath};
use stage_scan::{Placed, Scan, Sources, place_below, scan_mod};
use std::process::Abort;
use std::str;
use test_worlds::{fail_call, world};
use tree_mem::MemTree;
use winner_table::winners;

/// The digest of no bytes.
pub(super) const OF_NONE: &str = "e3b0c44298fc1c149afbf4c8996fb92427ae41e4649b934ca495991b7852b855";

/// That of "A".
pub(super) const OF_A: &str = "559aead08264d5795d3909718cdd05abd49572e84fe55590eef31a88a08fdffd";

/// That of "abc".
pub(super) const OF_ABC: &str = "ba7816bf8f01cfea414140de5dae2223b00361a396177a9cb410ff61f20015ad";

fn path_of(rt: &(impl AllocGlobal + Abort), text: &str) -> RelPath
    ensures { result ≡ text.now }
{
    RelPath::parse(rt.alloc(), text).expect(rt, "a user path")
}

// The base folder of the type that a mod may have.
fn base_of(rt: &(impl AllocGlobal + Abort)) -> RelPath
    ensures { IsBase result }
{
    path_of(rt, "bin")
}

// The scan of a mod, each file at its own path or below the base folder.
fn placed(rt: &(impl AllocGlobal + Abort), tree: &mut MemTree, id: &str, is_typed: bool) -> Placed
    ensures scanned { IsScanned (disk_of (mem_story tree.new)) result.scan result.sources }
    ensures same { mem_story tree.new ≡ mem_story tree.old }
{
    let id = ModId::parse(rt.alloc(), id).expect(rt, "an id");
    let scan = scan_mod(rt.alloc(), tree, &id, 1_000_000).expect(rt, "a mod without faults");
    if is_typed {
        return place_below(rt.alloc(), &scan, Some(&base_of(rt))).expect(rt, "user paths");
    }
    place_below(rt.alloc(), &scan, None).expect(rt, "memory")
}

fn has_mod(scans: &[Scan], id: &ModId) -> bool
    ensures { result ≡ list_any (λ scan. bytes_eq scan.mod_id id.now) scans.now }
{
    scans.iter().any(|scan| scan.mod_id == *id)
}

// Whether none of the scans is this mod's.
fn is_new(scans: &[Scan], id: &ModId) -> bool
    ensures { IsTrue result → AllByRecursion (λ y. pointwise nat_eq y id.now ≡ false)
        (map (λ scan. scan.mod_id) scans.now) }
{
    !has_mod(scans, id)
}

// Stops where one of the scans is this mod's.
fn need_new(rt: &(impl AllocGlobal + Abort), scans: &[Scan], id: &ModId)
    ensures { AllByRecursion (λ y. pointwise nat_eq y id.now ≡ false)
        (map (λ scan. scan.mod_id) scans.now) }
{
    assert!(rt; is_new(scans, id));
}

// The scans of mods, and where their files come from.
fn scanned(
    rt: &(impl AllocGlobal + Abort),
    tree: &mut MemTree,
    mods: &[(&str, bool)],
) -> (Vec<Scan>, Vec<Sources>)
    ensures scanned { AreScanned (disk_of (mem_story tree.new)) result.0.items result.1.items }
    ensures own { HasOwnIds result.0.items }
    ensures same { mem_story tree.new ≡ mem_story tree.old }
{
    let mut scans = Vec::new(rt.alloc());
    let mut sources = Vec::new(rt.alloc());
    for (id, is_typed) in mods {
        let placed = placed(rt, tree, *id, *is_typed);
        need_new(rt, &scans, &placed.scan.mod_id);
        scans.push(placed.scan).expect(rt, "memory");
        sources.push(placed.sources).expect(rt, "memory");
    }
    (scans, sources)
}

// Whether the list has each of so many nodes once.
fn has_each_once(graph: &Graph, order: &[u32]) -> bool
    ensures { IsTrue result → HasEachOnce graph.now.count order.now }
{
    check_order(graph, order)
}

// So many nodes in their order.
fn order_of(rt: &(impl AllocGlobal + Abort), count: usize) -> Vec<u32>
    ensures { HasEachOnce count result.items }
{
    assert!(rt; count <= 2_000);
    let count = count as u32;
    let order: Vec<u32> = (0..count).collect(rt.alloc()).expect(rt, "memory");
    let graph = Graph::new(count, Vec::new(rt.alloc())).expect(rt, "a graph");
    assert!(rt; has_each_once(&graph, &order));
    order
}

/// The plan of a deployment over an old manifest. Each mod has its id, and whether it is deployed
/// below the base folder; the last one that has a path wins it. At most so many calls of the tree
/// succeed.
pub(super) fn planned_within(
    rt: &(impl AllocGlobal + Abort),
    tree: &mut MemTree,
    mods: &[(&str, bool)],
    old: &Manifest,
    most: u64,
) -> Result<Plan, PlanError> {
    let (scans, sources) = scanned(rt, tree, mods);
    let order = order_of(rt, scans.len());
    let wins = winners(rt.alloc(), &order, &scans, &[]).expect(rt, "winners");
    fail_call(rt.alloc(), tree, most, false).expect(rt, "memory");
    make_plan(rt.alloc(), tree, old, &wins, &scans, &sources)
}

// The lines of a plan, and then its manifest.
fn plan_text(rt: &(impl AllocGlobal + Abort), plan: &Plan) -> String {
    let lines = plan_lines(rt.alloc(), plan).expect(rt, "memory");
    let mut text = String::new(rt.alloc());
    text.push_str(str::from_utf8(&lines).expect(rt, "text"))
        .expect(rt, "memory");
    if let Some(manifest) = &plan.manifest {
        let bytes = manifest_text(rt.alloc(), manifest).expect(rt, "memory");
        text.push_str(str::from_utf8(&bytes).expect(rt, "text"))
            .expect(rt, "memory");
    }
    text
}

/// A plan as text, or why there is none.
pub(super) fn answer_text(
    rt: &(impl AllocGlobal + Abort),
    answer: &Result<Plan, PlanError>,
) -> String {
    match answer {
        Ok(plan) => plan_text(rt, plan),
        Err(e) => format!(in rt.alloc(); "{e:?}").expect(rt, "memory"),
    }
}

/// The manifest with this text.
pub(super) fn manifest(rt: &(impl AllocGlobal + Abort), text: &str) -> Manifest {
    read_manifest(rt.alloc(), text.as_bytes()).expect(rt, "a manifest")
}

/// What is planned on a tree, where any number of calls succeed.
pub(super) fn check_tree(
    rt: &(impl AllocGlobal + Abort),
    tree: &mut MemTree,
    mods: &[(&str, bool)],
    old: &str,
    wanted: &str,
) {
    let old = manifest(rt, old);
    let answer = planned_within(rt, tree, mods, &old, u64::MAX);
    assert_eq!(rt; answer_text(rt, &answer).as_str(), wanted);
}

/// What is planned on a world.
pub(super) fn check(
    rt: &(impl AllocGlobal + Abort),
    lines: &str,
    mods: &[(&str, bool)],
    old: &str,
    wanted: &str,
) {
    let mut tree = world(rt.alloc(), lines).expect(rt, "a world");
    check_tree(rt, &mut tree, mods, old, wanted);
}
