// The edges of the rules.
ghost use Rattle.std.specs.Prelude.{◌≡◌, ◌<◌, ◌^◌, ℕ, ◌↔◌, ◌||◌, length, IfOk, OnOk, Contains};
ghost use Rattle.std.specs.List.{list_any, filter_map};
ghost use Rattle.std.specs.BTreeSet.{contains};
ghost use Rattle.mod_rules.specs.Nodes.{nodes_of};
ghost use Rattle.mod_rules.specs.Edges.{IsEdge, AreAscending, edge_cmp};
ghost use Rattle.mod_rules.specs.Pairs.{counts_before, rule_pair, is_edge};

use crate::Graph;
use crate::nodes::{counts_before, node_of};
use indexmap::IndexMap;
use profile_toml::{ModEntry, Profile, Rule, RuleKind};
use rel_paths::ModId;
use std::alloc::{AllocError, Global};
use std::collections::BTreeSet;

// The edge of a rule of the mod at the node.
fn edge_of(
    mods: &IndexMap<ModId, ModEntry>,
    counts: &[u32],
    node: u32,
    rule: &Rule,
) -> Option<(u32, u32)>
    requires { counts.now ≡ counts_before 0 mods.now.entries }
    ensures { result ≡ rule_pair mods.now.entries node rule.now }
{
    match rule.kind() {
        RuleKind::Before => Some((node, node_of(mods, counts, rule)?)),
        RuleKind::After => Some((node_of(mods, counts, rule)?, node)),
        RuleKind::Requires | RuleKind::Conflicts | RuleKind::Recommends => None,
    }
}

// Adds the edges of the rules of the mod at the node.
fn add_edges(
    mods: &IndexMap<ModId, ModEntry>,
    counts: &[u32],
    node: u32,
    rules: &[Rule],
    edges: &mut BTreeSet<(u32, u32)>,
) -> Result<(), AllocError>
    requires { counts.now ≡ counts_before 0 mods.now.entries }
    ensures { OnOk result ((q : ℕ × ℕ) → contains edge_cmp edges.new q
        ≡ (contains edge_cmp edges.old q
        || list_any (λ e. is_edge e q) (filter_map (rule_pair mods.now.entries node) rules.now))) }
{
    for rule in rules {
        if let Some(edge) = edge_of(mods, counts, node, rule) {
            edges.insert(edge)?;
        }
    }
    Ok(())
}

// The edges of a set, in order.
fn listed(alloc: Global, edges: BTreeSet<(u32, u32)>) -> Result<Vec<(u32, u32)>, AllocError>
    ensures items { IfOk result (λ list. list.items ≡ edges.keys) }
    ensures ascending { IfOk result (λ list. AreAscending list.items) }
{
    edges.into_iter().collect(alloc)
}

/// The graph of the profile's enabled mods. There is an edge from a mod to another exactly where one
/// of the two has a rule that asks for it: the first has `before` the second, or the second has
/// `after` the first. A rule with a range asks only where the mod that it refers to has a release
/// that the range matches.
pub fn graph_of(alloc: Global, profile: &Profile) -> Result<Graph, AllocError>
    requires { length (nodes_of profile.now) < 2 ^ 32 }
    ensures count { IfOk result (λ graph. graph.count ≡ length (nodes_of profile.now)) }
    ensures edges { IfOk result (λ graph. (a b : ℕ) → Contains graph.edges (a, b)
        ↔ IsEdge (nodes_of profile.now) a b) }
{
    let mods = profile.mods();
    let counts = counts_before(alloc, mods)?;
    let mut edges = BTreeSet::new(alloc);
    let mut count = 0;
    for (_, entry) in mods {
        if entry.is_enabled() {
            add_edges(mods, counts.as_slice(), count, entry.rules(), &mut edges)?;
            count += 1;
        }
    }
    let edges = listed(alloc, edges)?;
    Ok(Graph { count, edges })
}
