// Plans that move nothing.
ghost use Rattle.std.specs.Prelude.{◌≡◌, ◌↔◌, IsTrue, option_map};
ghost use Rattle.move_plan.specs.Idle.{IsIdle};

use crate::Plan;
use manifest_json::Manifest;

/// Whether the plan saves, sets, clears and takes off nothing, and its manifest is the one that is
/// there.
pub fn is_idle(plan: &Plan, old: Option<&Manifest>) -> bool
    ensures { IsTrue result ↔ IsIdle plan.now (option_map (λ m. m.now) old.entry) }
{
    plan.saves.as_slice().is_empty()
        && plan.sets.as_slice().is_empty()
        && plan.clears.as_slice().is_empty()
        && plan.folders_off.as_slice().is_empty()
        && is_same(&plan.manifest, old)
}

fn is_same(new: &Option<Manifest>, old: Option<&Manifest>) -> bool
    ensures { IsTrue result ↔ (new.now ≡ option_map (λ m. m.now) old.entry) }
{
    match (new, old) {
        (None, None) => true,
        (Some(new), Some(old)) => new.is_same(old),
        _ => false,
    }
}
