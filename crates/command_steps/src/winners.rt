// The winners of the provided paths.
ghost use Rattle.std.specs.Prelude.{◌≡◌, ◌∷◌, [], IfOk, IsErrOf, length};
ghost use Rattle.std.specs.List.{AllByRecursion};
ghost use Rattle.rel_paths.specs.Names.{IsFreePath};
ghost use Rattle.tree_fs.specs.Story.{Story, disk_of};
ghost use Rattle.winner_table.specs.Winners.{AreWinners, HasEachOnce, paths_of};
ghost use Rattle.winner_table.specs.Folders.{AreApart};
ghost use Rattle.command_steps.specs.declared.limits.Limits.{Limits};
ghost use Rattle.command_steps.specs.declared.stop.Stop.TheVariants.{TreeFault};
ghost use Rattle.command_steps.specs.Looks.{Look, IsLook, AreWins, placed};
ghost use Rattle.command_steps.specs.Steps.{winners};
ghost use Rattle.command_steps.specs.Orders.{Takes};

use crate::Stop;
use crate::overrides::plain_overrides;
use profile_toml::Profile;
use stage_scan::Scan;
use std::alloc::Global;
use winner_table::WinRow;

/// The winner of each provided path, in path order. The scans are those of the nodes, with their files
/// where they are deployed. `FileAndFolder` tells the least path that another lies below.
pub fn winners_of(
    alloc: Global,
    profile: &Profile,
    order: &[u32],
    scans: &[Scan],
) -> Result<Vec<WinRow>, Stop>
    requires { HasEachOnce (length scans.now) order.now }
    ensures takes { (limits : Limits) (s : Story) (look : Look) → IsLook (disk_of s) look
        → profile.now ≡ look.profile → order.now ≡ look.order → scans.now ≡ placed look
        → Takes (winners ∷ []) limits s s (λ wins. AreWins look wins.items) result }
    ensures won { IfOk result (λ wins.
        AreWinners scans.now order.now profile.now.overrides wins.items) }
    ensures free { IfOk result (λ wins. AllByRecursion IsFreePath (paths_of wins.items)) }
    ensures apart { IfOk result (λ wins. AreApart (paths_of wins.items)) }
    ensures calm { IsErrOf result TreeFault → ⊥ }
{
    let overrides = plain_overrides(alloc, profile)?;
    Ok(winner_table::winners(alloc, order, scans, &overrides)?)
}
