// Rules read from a document.
ghost use Rattle.std.specs.Prelude.{◌≡◌, ◌+◌, IfSome, codes, length, map, option_map};
ghost use Rattle.std.specs.List.{AllByRecursion};
ghost use Rattle.toml.specs.View.{view, array_view, table_view};
ghost use Rattle.profile_toml.specs.Faults.{Reads, ReadsBy, ReadsMore};
ghost use Rattle.profile_toml.specs.KeyPaths.{keyed, path_of};
ghost use Rattle.profile_toml.specs.Texts.{list_of, text_fault};
ghost use Rattle.profile_toml.specs.Rules.{kind_of, kind_at, bad_kind, rule_fault, rule_value, list_fault, rules_fault, rules_value};
ghost use Rattle.profile_toml.specs.Sound.{IsSound};
ghost use Rattle.profile_toml.specs.Tables.{OfRule, room};

use crate::key_path::{TablePath, odd_key, odd_table};
use crate::maps::add_rule;
use crate::optional::read_range;
use crate::pieces::{into_array, into_table, into_text, read_id, take, take_from_2};
use crate::{Extra, ProfileError, Rule, RuleKind};
use rel_paths::Text;
use std::alloc::Global;
use toml::Value;
use toml::value::Array;

// The kind that a word names.
#[tactic(auto, unfolding(crate::specs::Rules::kind_of))]
fn kind_of(word: &str) -> Option<RuleKind>
    ensures { result ≡ kind_of word.now }
{
    match word {
        "before" => Some(RuleKind::Before),
        "after" => Some(RuleKind::After),
        "requires" => Some(RuleKind::Requires),
        "conflicts" => Some(RuleKind::Conflicts),
        "recommends" => Some(RuleKind::Recommends),
        _ => None,
    }
}

// The kind of a rule, by what stands at its `kind`.
fn read_kind(alloc: Global, at: TablePath, value: Option<Value>) -> Result<RuleKind, ProfileError>
    ensures { Reads
        (text_fault bad_kind (keyed (path_of at) (codes "kind")) (option_map view value))
        (kind_at (option_map view value)) result }
{
    let word = into_text(alloc, at, "kind", value)?;
    match kind_of(word.as_str()) {
        Some(kind) => Ok(kind),
        None => Err(ProfileError::BadKind(Text::from_string(word))),
    }
}

// The rule that a value is.
fn rule_of(alloc: Global, version: u32, at: TablePath, value: Value) -> Result<Rule, ProfileError>
    requires { IsSound (1 + room OfRule) (view value) }
    ensures { Reads (rule_fault version (path_of at) (view value))
        (rule_value version (view value)) result }
{
    let Some(mut table) = into_table(value) else {
        return Err(odd_table(alloc, at));
    };
    let kind = read_kind(alloc, at, take(&mut table, "kind"))?;
    let refers = read_id(alloc, at, "ref", take(&mut table, "ref"))?;
    let range = read_range(alloc, at, take_from_2(version, &mut table, "range"))?;
    Ok(Rule {
        kind,
        refers,
        range,
        extra: Extra::of(table),
    })
}

// Adds the rule that a value is to those of the mod with an index, which come before it.
fn read_rule(
    alloc: Global,
    version: u32,
    index: usize,
    rules: &mut Vec<Rule>,
    value: Value,
) -> Result<(), ProfileError>
    requires { IsSound (1 + room OfRule) (view value) }
    ensures { ReadsMore
        (rule_fault version (path_of (TablePath.Rule index (length rules.old.items))) (view value))
        rules.old.items (rule_value version (view value)) rules.new.items result }
{
    let rule = rule_of(alloc, version, TablePath::Rule(index, rules.len()), value)?;
    add_rule(rules, rule)?;
    Ok(())
}

// The rules in the array of the mod with an index.
fn read_items(
    alloc: Global,
    version: u32,
    index: usize,
    array: Array,
) -> Result<Vec<Rule>, ProfileError>
    requires { AllByRecursion (IsSound (1 + room OfRule)) (list_of (array_view array)) }
    ensures { ReadsBy (λ v. v.items)
        (list_fault version (keyed (path_of (TablePath.Mod index)) (codes "rules"))
        (list_of (array_view array)))
        (map (rule_value version) (list_of (array_view array))) result }
{
    let mut rules = Vec::new(alloc);
    for item in array {
        read_rule(alloc, version, index, &mut rules, item)?;
    }
    Ok(rules)
}

// The rules of the mod with an index, by what stands at its `rules`.
pub(crate) fn read_rules(
    alloc: Global,
    version: u32,
    index: usize,
    value: Option<Value>,
) -> Result<Vec<Rule>, ProfileError>
    requires { IfSome value (λ v. IsSound (2 + room OfRule) (view v)) }
    ensures { ReadsBy (λ v. v.items)
        (rules_fault version (keyed (path_of (TablePath.Mod index)) (codes "rules"))
        (option_map view value)) (rules_value version (option_map view value)) result }
{
    let Some(value) = value else {
        return Ok(Vec::new(alloc));
    };
    let Some(array) = into_array(value) else {
        return Err(odd_key(alloc, TablePath::Mod(index), "rules"));
    };
    read_items(alloc, version, index, array)
}
