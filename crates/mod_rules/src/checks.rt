// The first rule that fails.
ghost use Rattle.std.specs.Prelude.{◌≡◌, None, IfOk, IfErr, OnOk, find};
ghost use Rattle.std.specs.Option.{option_copied, option_map};
ghost use Rattle.fault_count.specs.Causes.{Explains};
ghost use Rattle.mod_rules.specs.Checks.{is_failing, first_failing_rule, error_of};

use crate::RuleError;
use crate::nodes::is_matching;
use indexmap::IndexMap;
use profile_toml::{ModEntry, Profile, Rule, RuleKind};
use rel_paths::ModId;
use std::alloc::{AllocError, Global};

// Whether the rule of the mod with this id fails.
fn is_failing(mods: &IndexMap<ModId, ModEntry>, id: &ModId, rule: &Rule) -> bool
    ensures { result ≡ is_failing mods.now.entries (id.now, rule.now) }
{
    match rule.kind() {
        RuleKind::Requires => !is_matching(mods, rule),
        RuleKind::Conflicts => is_matching(mods, rule) && rule.refers() != id,
        RuleKind::Before | RuleKind::After | RuleKind::Recommends => false,
    }
}

// The first failing rule of the mod with this id.
fn failing_rule<'a>(
    mods: &IndexMap<ModId, ModEntry>,
    id: &ModId,
    rules: &'a [Rule],
) -> Option<&'a Rule>
    ensures { option_copied result ≡ find (λ r. is_failing mods.now.entries (id.now, r)) rules.now }
{
    rules.iter().find(|rule| is_failing(mods, id, rule))
}

// What is told of a failing rule of the mod with this id.
fn error_of(id: &ModId, rule: &Rule) -> Result<RuleError, AllocError>
    ensures { IfOk result (λ e. e ≡ error_of (id.now, rule.now)) }
{
    let mod_id = id.copy()?;
    let other = rule.refers().copy()?;
    Ok(match rule.kind() {
        RuleKind::Requires => RuleError::Missing {
            mod_id,
            needs: other,
        },
        _ => RuleError::Conflict { mod_id, other },
    })
}

/// The first rule that fails, of the enabled mods in the profile's order and of each mod's rules in
/// theirs. A rule matches where the mod that it refers to is enabled and, if the rule has a range,
/// has a release that the range matches. `Missing` is for a `requires` that doesn't match, and
/// `Conflict` for a `conflicts` that matches another mod. Rules of disabled mods don't count.
pub fn check_rules(_alloc: Global, profile: &Profile) -> Result<(), RuleError>
    ensures ok { OnOk result (first_failing_rule profile.now ≡ None) }
    ensures err { IfErr result (Explains RuleError.Memory
        (option_map error_of (first_failing_rule profile.now))) }
{
    let mods = profile.mods();
    for (id, entry) in mods {
        if entry.is_enabled() {
            if let Some(rule) = failing_rule(mods, id, entry.rules()) {
                return Err(error_of(id, rule)?);
            }
        }
    }
    Ok(())
}
