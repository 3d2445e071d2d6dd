// Pairs of nodes that share a path and have no walk between them.
ghost use Rattle.std.specs.Prelude.{◌≡◌, ◌<◌, ◌↔◌, ◌⊎◌, ℕ, IsTrue, IfOk, OnOk};
ghost use Rattle.std.specs.List.{AllByRecursion, Contains};
ghost use Rattle.mod_rules.specs.Edges.{AreAscending};
ghost use Rattle.conflict_report.specs.Relations.{Holds, GrowsBy};
ghost use Rattle.conflict_report.specs.Shares.{PairsWith, PairsAmong, SharesOneOf};
ghost use Rattle.conflict_report.specs.Shares.{AreNodesBelow, IsOpen};

use crate::relation::Relation;
use std::alloc::{AllocError, Global};
use winner_table::Providers;

// Marks the pairs of the node with those of the nodes that are above it.
fn mark_with(shared: &mut Relation, node: u32, nodes: &[u32])
    requires node { node < shared.old.count }
    requires nodes { AllByRecursion (λ other. other < shared.old.count) nodes.now }
    ensures { GrowsBy shared.old shared.new (PairsWith nodes.now node) }
{
    for other in nodes {
        if node < *other {
            shared.add(node, *other);
        }
    }
}

// Marks all pairs of the nodes, the lower one first.
fn mark_all(shared: &mut Relation, nodes: &[u32])
    requires { AllByRecursion (λ other. other < shared.old.count) nodes.now }
    ensures { GrowsBy shared.old shared.new (PairsAmong nodes.now nodes.now) }
{
    for node in nodes {
        mark_with(shared, *node, nodes);
    }
}

/// Which nodes share a path with which nodes above them.
pub(crate) fn shared_of(
    alloc: Global,
    count: u32,
    all: &[Providers],
) -> Result<Relation, AllocError>
    requires { AllByRecursion (AreNodesBelow count) all.now }
    ensures count { IfOk result (λ shared. shared.count ≡ count) }
    ensures shares { IfOk result (λ shared.
        (a b : ℕ) → Holds shared a b ↔ SharesOneOf all.now a b) }
{
    let mut shared = Relation::none(alloc, count)?;
    for entry in all {
        mark_all(&mut shared, entry.nodes.as_slice());
    }
    Ok(shared)
}

// Whether the nodes share a path and none leads to the other.
fn is_open(shared: &Relation, reach: &Relation, first: u32, second: u32) -> bool
    requires count { reach.now.count ≡ shared.now.count }
    requires first { first < shared.now.count }
    requires second { second < shared.now.count }
    ensures { IsTrue result ↔ IsOpen shared.now reach.now first second }
{
    shared.has(first, second) && !reach.has(first, second) && !reach.has(second, first)
}

// Adds the pairs whose lower node this is.
fn add_row(
    shared: &Relation,
    reach: &Relation,
    first: u32,
    pairs: &mut Vec<(u32, u32)>,
) -> Result<(), AllocError>
    requires count { reach.now.count ≡ shared.now.count }
    requires first { first < shared.now.count }
    requires ascending { AreAscending pairs.old.items }
    requires before { AllByRecursion (λ pair. pair.0 < first) pairs.old.items }
    ensures ascending { OnOk result (AreAscending pairs.new.items) }
    ensures pairs { OnOk result ((a b : ℕ) → Contains pairs.new.items (a, b)
        ↔ (Contains pairs.old.items (a, b) ⊎ ((a ≡ first) × IsOpen shared.now reach.now a b))) }
{
    for second in 0..shared.count {
        if is_open(shared, reach, first, second) {
            pairs.push((first, second))?;
        }
    }
    Ok(())
}

/// The pairs of nodes that share a path, the lower one first, where none leads to the other.
pub(crate) fn pairs_of(
    alloc: Global,
    shared: &Relation,
    reach: &Relation,
) -> Result<Vec<(u32, u32)>, AllocError>
    requires { reach.now.count ≡ shared.now.count }
    ensures ascending { IfOk result (λ pairs. AreAscending pairs.items) }
    ensures pairs { IfOk result (λ pairs. (a b : ℕ) → Contains pairs.items (a, b)
        ↔ IsOpen shared.now reach.now a b) }
{
    let mut pairs = Vec::new(alloc);
    for first in 0..shared.count {
        add_row(shared, reach, first, &mut pairs)?;
    }
    Ok(pairs)
}
