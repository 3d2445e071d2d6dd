// Whether a plan is sound by its data.
ghost use Rattle.std.specs.Prelude.{◌≡◌, ◌≤◌, ◌<◌, ◌↔◌, IsOk, IfErr};
ghost use Rattle.move_plan.specs.Rules.{PassesRules, IsFirstFault};
ghost use Rattle.move_plan.specs.Tests.{first_of, rule_named};
ghost use Rattle.move_plan.specs.Rising.{AreSearchable};

use crate::rules::{
    first_bound, first_lost_back, first_lost_save, first_moving_source, first_not_apart,
    first_not_keeping, first_out_of_order, first_taken_save, first_unused_clear,
};
use crate::{Plan, PlanFault};

/// Whether the plan passes the nine rules of a plan that is sound by its data alone, or the first
/// rule that it fails, with the first entry that fails it. It allocates nothing. Its time is that
/// of a few look-ups for each entry, in lists that are found to be sorted first. Of every 4,096
/// clears, where one is neither a save's destination nor the source of the set of the place that it
/// is named after, they take one more pass over the sets.
pub fn check_plan(plan: &Plan) -> Result<(), PlanFault>
    ensures passes { IsOk result ↔ PassesRules plan.now }
    ensures fault { IfErr result (λ f. IsFirstFault plan.now f.rule f.index) }
{
    for rule in 1..10 {
        if let Some(at) = first_failing(plan, rule) {
            return Err(PlanFault {
                rule,
                index: at as u64,
            });
        }
    }
    Ok(())
}

// The first entry that fails the rule of this number, in a list in which it is failed.
fn first_failing(plan: &Plan, rule: u8) -> Option<usize>
    requires first { 1 ≤ rule }
    requires last { rule < 10 }
    requires searchable { 1 < rule → AreSearchable plan.now }
    ensures { result ≡ first_of (rule_named rule) plan.now }
{
    match rule {
        1 => first_out_of_order(plan),
        2 => first_bound(plan),
        3 => first_moving_source(plan),
        4 => first_taken_save(plan),
        5 => first_not_keeping(plan),
        6 => first_unused_clear(plan),
        7 => first_lost_save(plan),
        8 => first_lost_back(plan),
        _ => first_not_apart(plan),
    }
}
