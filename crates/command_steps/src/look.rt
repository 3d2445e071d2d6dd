// What commands find of the enabled mods, up to their load order or to the winners.
ghost use Rattle.std.specs.Prelude.{◌≡◌, IfOk, map, nat_eq};
ghost use Rattle.std.specs.List.{IsDistinct};
ghost use Rattle.std.specs.Cmp.Lexicographic.{pointwise};
ghost use Rattle.fault_count.specs.Causes.{HasCause};
ghost use Rattle.tree_fs.specs.Story.{disk_of};
ghost use Rattle.mod_rules.specs.Nodes.{enabled_of};
ghost use Rattle.command_steps.specs.declared.stop.Stop.TheVariants.{TreeFault};
ghost use Rattle.command_steps.specs.Found.{IsWholeOrder, IsOrderLook, IsWhole, IsLooked};
ghost use Rattle.command_steps.specs.Orders.{Takes, up_to_order, up_to_winners};

use crate::{
    Limits, Stop, check_rules, order_of, place_scans, profile_of, scan_enabled, winners_of,
};
use indexmap::IndexMap;
use mod_rules::Graph;
use profile_toml::{ModEntry, Profile};
use rel_paths::ModId;
use stage_scan::{Scan, Sources};
use std::alloc::{AllocError, Global};
use tree_fs::Tree;
use winner_table::WinRow;

/// A profile, the ids of its enabled mods, the graph of their rules, and their load order. Id k is
/// that of node k.
#[derive(Drop)]
pub struct OrderLook {
    pub profile: Profile,
    pub ids: Vec<ModId>,
    pub graph: Graph,
    pub order: Vec<u32>,
}

/// The same, with the scans of the mods, their sources, and the winners. Scan k is that of node k, with
/// its files where they are deployed.
#[derive(Drop)]
pub struct Looked {
    pub profile: Profile,
    pub ids: Vec<ModId>,
    pub graph: Graph,
    pub order: Vec<u32>,
    pub scans: Vec<Scan>,
    pub sources: Vec<Sources>,
    pub wins: Vec<WinRow>,
}

// The ids of the enabled ones of these mods, in their order.
fn enabled_ids(alloc: Global, mods: &IndexMap<ModId, ModEntry>) -> Result<Vec<ModId>, AllocError>
    ensures ids { IfOk result (λ ids. ids.items ≡ map (λ m. m.0) (enabled_of mods.now.entries)) }
    ensures differ { IfOk result (λ ids. IsDistinct (pointwise nat_eq) ids.items) }
{
    let mut ids = Vec::with_capacity(alloc, mods.len())?;
    for (id, entry) in mods {
        if entry.is_enabled() {
            ids.push(id.copy()?)?;
        }
    }
    Ok(ids)
}

/// The profile of the disk, and the load order of its enabled mods: the steps of the profile, of the
/// rules and of the order.
pub fn look_at_order<T: Tree>(
    alloc: Global,
    tree: &mut T,
    limits: &Limits,
) -> Result<OrderLook, Stop>
    ensures takes { T.tells →
        Takes up_to_order limits.now (T.story tree.old) (T.story tree.new)
        (IsOrderLook (disk_of (T.story tree.old))) result }
    ensures whole { IfOk result IsWholeOrder }
    ensures same { T.tells → T.story tree.new ≡ T.story tree.old }
    ensures cause { HasCause TreeFault (T.faults tree.old) (T.faults tree.new) result }
{
    let profile = profile_of(alloc, tree, limits)?;
    check_rules(alloc, &profile)?;
    let ids = enabled_ids(alloc, profile.mods())?;
    let ordered = order_of(alloc, &profile, &ids)?;
    Ok(OrderLook {
        profile,
        ids,
        graph: ordered.graph,
        order: ordered.order,
    })
}

/// The same up to the winners: then the steps of the scans, of their targets and of the winners.
pub fn look_at_winners<T: Tree>(
    alloc: Global,
    tree: &mut T,
    limits: &Limits,
) -> Result<Looked, Stop>
    ensures takes { T.tells →
        Takes up_to_winners limits.now (T.story tree.old) (T.story tree.new)
        (IsLooked (disk_of (T.story tree.old))) result }
    ensures whole { IfOk result IsWhole }
    ensures same { T.tells → T.story tree.new ≡ T.story tree.old }
    ensures cause { HasCause TreeFault (T.faults tree.old) (T.faults tree.new) result }
{
    let look = look_at_order(alloc, tree, limits)?;
    let scans = scan_enabled(alloc, tree, &look.ids, limits)?;
    let placed = place_scans(alloc, &look.profile, &scans)?;
    let wins = winners_of(alloc, &look.profile, &look.order, &placed.scans)?;
    Ok(Looked {
        profile: look.profile,
        ids: look.ids,
        graph: look.graph,
        order: look.order,
        scans: placed.scans,
        sources: placed.sources,
        wins,
    })
}
