// The rules of the enabled mods, and their load order.
ghost use Rattle.std.specs.Prelude.{◌≡◌, ◌⊎◌, ◌<◌, ◌^◌, ◌∷◌, [], IfOk, IsErrOf, length, map};
ghost use Rattle.std.specs.List.{AllByRecursion};
ghost use Rattle.tree_fs.specs.Story.{Story, disk_of};
ghost use Rattle.mod_rules.specs.Nodes.{nodes_of};
ghost use Rattle.mod_rules.specs.Edges.{AreAscending, AreWithin};
ghost use Rattle.command_steps.specs.declared.limits.Limits.{Limits};
ghost use Rattle.answer_lines.specs.Lists.{HasId, id_of};
ghost use Rattle.answer_lines.specs.declared.refusal.Refusal.TheVariants as group;
ghost use Rattle.answer_lines.specs.declared.refusal.RuleRefusal.TheVariants.{Cycle};
ghost use Rattle.command_steps.specs.declared.stop.Stop.TheVariants.{Refused, TreeFault, Memory};
ghost use Rattle.command_steps.specs.Profiles.{HasProfile, IsOrdered, enabled_ids};
ghost use Rattle.command_steps.specs.Steps.{rules, order, Nothing};
ghost use Rattle.command_steps.specs.Orders.{Takes};

use crate::Stop;
use answer_lines::{Ids, Refusal, RuleRefusal};
use load_order::OrderError;
use mod_rules::{Graph, graph_of};
use profile_toml::Profile;
use rel_paths::ModId;
use std::alloc::{AllocError, Global};

/// The graph of the enabled mods' rules, and their load order.
#[derive(Drop)]
pub struct Ordered {
    pub graph: Graph,
    pub order: Vec<u32>,
}

/// That no rule of an enabled mod fails. The first that does is told as `Missing` or `Conflict`.
pub fn check_rules(alloc: Global, profile: &Profile) -> Result<(), Stop>
    ensures takes { (limits : Limits) (s : Story) → HasProfile (disk_of s) profile.now
        → Takes (rules ∷ []) limits s s Nothing result }
    ensures calm { IsErrOf result TreeFault → ⊥ }
{
    Ok(mod_rules::check_rules(alloc, profile)?)
}

/// The load order of the enabled mods. Where there is none, `Cycle` tells the mods that keep it from
/// being made.
pub fn order_of(alloc: Global, profile: &Profile, ids: &[ModId]) -> Result<Ordered, Stop>
    requires few { length (nodes_of profile.now) < 2 ^ 32 }
    requires ids { ids.now ≡ enabled_ids profile.now }
    ensures takes { (limits : Limits) (s : Story) → HasProfile (disk_of s) profile.now
        → Takes (order ∷ []) limits s s (IsOrdered profile.now) result }
    ensures ordered { IfOk result (IsOrdered profile.now) }
    ensures calm { IsErrOf result TreeFault → ⊥ }
{
    let graph = graph_of(alloc, profile)?;
    let _ = edges_of(&graph);
    match load_order::order(alloc, &graph) {
        Ok(order) => Ok(Ordered { graph, order }),
        Err(OrderError::Cycle(cycle)) => Err(cycle_stop(alloc, ids, &cycle)),
        Err(OrderError::Memory) => Err(Stop::Memory),
    }
}

// The edges of a graph, with what its type keeps of them.
fn edges_of(graph: &Graph) -> &[(u32, u32)]
    ensures same { result.now ≡ graph.now.edges }
    ensures ascending { AreAscending graph.now.edges }
    ensures within { AreWithin graph.now.count graph.now.edges }
{
    graph.edges.as_slice()
}

// What stops a command where these nodes are a cycle.
fn cycle_stop(alloc: Global, ids: &[ModId], cycle: &[u32]) -> Stop
    requires { AllByRecursion (HasId ids.now) cycle.now }
    ensures { (result ≡ Memory) ⊎ (result ≡ Refused (group.Rules (Cycle (map (id_of ids.now) cycle.now)))) }
{
    match ids_of(alloc, ids, cycle) {
        Ok(found) => Stop::Refused(Refusal::Rules(RuleRefusal::Cycle(Ids::new(found)))),
        Err(_) => Stop::Memory,
    }
}

// The ids of these nodes.
fn ids_of(alloc: Global, ids: &[ModId], nodes: &[u32]) -> Result<Vec<ModId>, AllocError>
    requires { AllByRecursion (HasId ids.now) nodes.now }
    ensures { IfOk result (λ found. found.items ≡ map (id_of ids.now) nodes.now) }
{
    let mut found = Vec::new(alloc);
    for node in nodes {
        found.push(ids[*node as usize].copy()?)?;
    }
    Ok(found)
}
