// Rules added and dropped.
ghost use Rattle.std.specs.Prelude.{◌≡◌, ◌<◌, ◌++◌, ◌∷◌, [], None, IsSome, IfOk, IfSome, OnOk, OnErr, length, position, remove};
ghost use Rattle.std.specs.Option.{option_copied};
ghost use Rattle.profile_edit.specs.Parts.{value_at, with_value, same_kind, is_rule, has_rule, with_rule, without_rule};
ghost use Rattle.profile_edit.specs.Edits.{Applies, add_fault, drop_fault};

use crate::EditError;
use crate::mods::no_mod;
use indexmap::IndexMap;
use profile_toml::{ModEntry, Rule, RuleKind};
use rel_paths::ModId;
use std::alloc::{AllocError, Global};

fn same_kind(a: RuleKind, b: RuleKind) -> bool
    ensures { result ≡ same_kind a b }
{
    a == b
}

fn is_rule(kind: RuleKind, refers: &ModId, rule: &Rule) -> bool
    ensures { result ≡ is_rule kind refers.now rule.now }
{
    same_kind(rule.kind, kind) && rule.refers == *refers
}

// The place of the first such rule.
fn place_of(kind: RuleKind, refers: &ModId, rules: &[Rule]) -> Option<usize>
    ensures { result ≡ position (is_rule kind refers.now) rules.now }
{
    rules.iter().position(|rule| is_rule(kind, refers, rule))
}

// Adds a rule to the mod with this id, last.
fn push_rule(mods: &mut IndexMap<ModId, ModEntry>, id: &ModId, rule: Rule) -> Result<(), AllocError>
    ensures ok { OnOk result
        (mods.new.entries
        ≡ with_value id.now (λ m. record m { rules = m.rules ++ rule ∷ [] }) mods.old.entries) }
    ensures err { OnErr result (mods.new.entries ≡ mods.old.entries) }
{
    match mods.get_mut(id) {
        Some(entry) => {
            entry.rules.push(rule)?;
            Ok(())
        }
        None => Ok(()),
    }
}

// Takes the rule at a place out of the mod with this id.
fn remove_rule(mods: &mut IndexMap<ModId, ModEntry>, id: &ModId, place: usize)
    requires { IfSome (value_at id.now mods.old.entries) (λ m. place < length m.rules) }
    ensures { mods.new.entries
        ≡ with_value id.now (λ m. record m { rules = remove m.rules place }) mods.old.entries }
{
    if let Some(entry) = mods.get_mut(id) {
        entry.rules.remove(place);
    }
}

pub(crate) fn add_rule(
    alloc: Global,
    mods: &mut IndexMap<ModId, ModEntry>,
    id: &ModId,
    kind: RuleKind,
    refers: &ModId,
) -> Result<bool, EditError>
    ensures { Applies (add_fault id.now kind refers.now mods.old.entries) mods.old.entries
        (with_value id.now (with_rule kind refers.now) mods.old.entries) mods.new.entries result }
{
    let Some(entry) = mods.get(id) else {
        return Err(no_mod(id)?);
    };
    if place_of(kind, refers, entry.rules()).is_some() {
        return Err(EditError::SameRule);
    }
    let rule = Rule::plain(alloc, kind, refers.copy()?);
    push_rule(mods, id, rule)?;
    Ok(true)
}

pub(crate) fn drop_rule(
    mods: &mut IndexMap<ModId, ModEntry>,
    id: &ModId,
    kind: RuleKind,
    refers: &ModId,
) -> Result<bool, EditError>
    ensures { Applies (drop_fault id.now kind refers.now mods.old.entries) mods.old.entries
        (with_value id.now (without_rule kind refers.now) mods.old.entries)
        mods.new.entries result }
{
    let Some(entry) = mods.get(id) else {
        return Err(no_mod(id)?);
    };
    let Some(place) = place_of(kind, refers, entry.rules()) else {
        return Err(EditError::NoRule);
    };
    remove_rule(mods, id, place);
    Ok(true)
}
