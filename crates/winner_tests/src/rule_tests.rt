// Graphs and first failing rules of small profiles.
use mod_rules::{Graph, RuleError, check_rules, graph_of};
use profile_toml::{Profile, read_profile};
use std::process::Abort;

// The profile whose mods have these items.
fn profile_of(rt: &(impl AllocGlobal + Abort), items: &str) -> Profile {
    let text = format!(in rt.alloc(); "version = 2\nmods = [{items}]").expect(rt, "memory");
    read_profile(rt.alloc(), text.as_bytes()).expect(rt, "a profile")
}

fn graph(rt: &(impl AllocGlobal + Abort), items: &str) -> Graph {
    let profile = profile_of(rt, items);
    assert!(rt; profile.mods().len() < 1000);
    graph_of(rt.alloc(), &profile).expect(rt, "memory")
}

fn has_edges(rt: &(impl AllocGlobal + Abort), items: &str, edges: &[(u32, u32)]) -> bool {
    graph(rt, items).edges.as_slice() == edges
}

fn holds(rt: &(impl AllocGlobal + Abort), items: &str) -> bool {
    check_rules(rt.alloc(), &profile_of(rt, items)).is_ok()
}

fn is_missing(rt: &(impl AllocGlobal + Abort), items: &str, from: &str, to: &str) -> bool {
    match check_rules(rt.alloc(), &profile_of(rt, items)) {
        Err(RuleError::Missing { mod_id, needs }) => mod_id.text() == from && needs.text() == to,
        _ => false,
    }
}

fn is_conflict(rt: &(impl AllocGlobal + Abort), items: &str, from: &str, to: &str) -> bool {
    match check_rules(rt.alloc(), &profile_of(rt, items)) {
        Err(RuleError::Conflict { mod_id, other }) => mod_id.text() == from && other.text() == to,
        _ => false,
    }
}

// Whether there is a graph with so many nodes and these edges.
fn is_graph(rt: &(impl AllocGlobal + Abort), count: u32, edges: &[(u32, u32)]) -> bool {
    let edges = edges.to_vec(rt.alloc()).expect(rt, "memory");
    Graph::new(count, edges).is_some()
}

#[test]
fn edges_of_a_graph_ascend_and_stay_within(rt: HostRuntime) {
    assert!(&rt; is_graph(&rt, 0, &[]));
    assert!(&rt; is_graph(&rt, 2, &[(0, 0), (0, 1), (1, 0)]));
    assert!(&rt; !is_graph(&rt, 2, &[(0, 1), (0, 1)]));
    assert!(&rt; !is_graph(&rt, 2, &[(1, 0), (0, 1)]));
    assert!(&rt; !is_graph(&rt, 2, &[(0, 2)]));
    assert!(&rt; !is_graph(&rt, 2, &[(2, 0)]));
}

#[test]
fn edges_of_rules_ascend_and_count_once(rt: HostRuntime) {
    let after = "{ id = 'a', rules = [{ kind = 'after', ref = 'b' }] }, { id = 'b' }";
    assert_eq!(&rt; graph(&rt, after).count, 2);
    assert!(&rt; has_edges(&rt, after, &[(1, 0)]));
    let cycle = "{ id = 'a', rules = [{ kind = 'after', ref = 'b' }] },
        { id = 'b', rules = [{ kind = 'after', ref = 'c' }] },
        { id = 'c', rules = [{ kind = 'after', ref = 'a' }] }";
    assert!(&rt; has_edges(&rt, cycle, &[(0, 2), (1, 0), (2, 1)]));
    let twice = "{ id = 'a', rules = [{ kind = 'before', ref = 'b' }] },
        { id = 'b', rules = [{ kind = 'after', ref = 'a' }] }";
    assert!(&rt; has_edges(&rt, twice, &[(0, 1)]));
}

#[test]
fn disabled_and_absent_mods_have_no_edges(rt: HostRuntime) {
    let disabled = "{ id = 'a', rules = [{ kind = 'after', ref = 'off' }] },
        { id = 'off', enabled = false, rules = [{ kind = 'before', ref = 'a' }] }, { id = 'b' }";
    assert_eq!(&rt; graph(&rt, disabled).count, 2);
    assert!(&rt; has_edges(&rt, disabled, &[]));
    let absent = "{ id = 'a', rules = [{ kind = 'before', ref = 'z' },
        { kind = 'conflicts', ref = 'z' }] }";
    assert!(&rt; has_edges(&rt, absent, &[]));
    assert!(&rt; holds(&rt, absent));
}

#[test]
fn a_required_mod_has_to_be_enabled(rt: HostRuntime) {
    let disabled = "{ id = 'a', rules = [{ kind = 'requires', ref = 'b' }] },
        { id = 'b', enabled = false }";
    assert!(&rt; is_missing(&rt, disabled, "a", "b"));
    let enabled = "{ id = 'a', rules = [{ kind = 'requires', ref = 'b' }] }, { id = 'b' }";
    assert!(&rt; holds(&rt, enabled));
}

#[test]
fn the_first_failing_rule_is_told(rt: HostRuntime) {
    let mods = "{ id = 'off', enabled = false, rules = [{ kind = 'requires', ref = 'w' }] },
        { id = 'a', rules = [{ kind = 'conflicts', ref = 'a' }, { kind = 'conflicts', ref = 'b' },
            { kind = 'requires', ref = 'y' }] },
        { id = 'b', rules = [{ kind = 'requires', ref = 'x' }] }";
    assert!(&rt; is_conflict(&rt, mods, "a", "b"));
}

#[test]
fn a_range_asks_for_a_release_that_it_matches(rt: HostRuntime) {
    let matched = "{ id = 'base', release = '1.4.0' },
        { id = 'patch', rules = [{ kind = 'requires', ref = 'base', range = '^1.2' }] }";
    assert!(&rt; holds(&rt, matched));
    assert!(&rt; has_edges(&rt, matched, &[]));
    let higher = "{ id = 'base', release = '1.4.0' },
        { id = 'patch', rules = [{ kind = 'requires', ref = 'base', range = '^2' }] }";
    assert!(&rt; is_missing(&rt, higher, "patch", "base"));
    let none = "{ id = 'base' },
        { id = 'patch', rules = [{ kind = 'requires', ref = 'base', range = '^1.2' }] }";
    assert!(&rt; is_missing(&rt, none, "patch", "base"));
}

#[test]
fn a_conflict_with_a_range_is_with_what_it_matches(rt: HostRuntime) {
    let matched = "{ id = 'a', rules = [{ kind = 'conflicts', ref = 'b', range = '<2' }] },
        { id = 'b', release = '1.9.9' }";
    assert!(&rt; is_conflict(&rt, matched, "a", "b"));
    let higher = "{ id = 'a', release = '1.0.0',
        rules = [{ kind = 'conflicts', ref = 'b', range = '<2' }] }, { id = 'b', release = '2.0.0' }";
    assert!(&rt; holds(&rt, higher));
}

#[test]
fn an_edge_goes_by_the_release_of_the_other_mod(rt: HostRuntime) {
    let own = "{ id = 'a', release = '1.0.0',
        rules = [{ kind = 'after', ref = 'b', range = '^1' }] }, { id = 'b', release = '2.0.0' }";
    assert!(&rt; has_edges(&rt, own, &[]));
    let other = "{ id = 'a', release = '2.0.0',
        rules = [{ kind = 'after', ref = 'b', range = '^1' }] }, { id = 'b', release = '1.0.0' }";
    assert!(&rt; has_edges(&rt, other, &[(1, 0)]));
    let none = "{ id = 'a', rules = [{ kind = 'before', ref = 'b', range = '*' }] }, { id = 'b' }";
    assert!(&rt; has_edges(&rt, none, &[]));
}
