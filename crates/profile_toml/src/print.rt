// Profiles printed.
ghost use Rattle.std.specs.Prelude.{◌≡◌, ◌++◌, ◌∷◌, [], Some, Ok, true, IfOk, IfSome, OnOk, codes, map, option_map, nat_eq};
ghost use Rattle.std.specs.List.{AllByRecursion, IsDistinct};
ghost use Rattle.std.specs.Cmp.Lexicographic.{pointwise};
ghost use Rattle.indexmap.specs.IndexMap.{keys, values};
ghost use Rattle.toml.specs.Data.{string, array};
ghost use Rattle.toml.specs.View.{view, items_of, table_view};
ghost use Rattle.profile_toml.specs.Documents.{put_member, put_if, rule_data, rules_data, type_data, types_data};
ghost use Rattle.profile_toml.specs.Documents.{mod_data, override_data, profile_members};
ghost use Rattle.profile_toml.specs.Kept.{IsRule, IsMod, IsOverride, IsType, IsProfile};
ghost use Rattle.profile_toml.specs.Profiles.{document_of, profile_of};
ghost use Rattle.profile_toml.specs.Releases.{is_release, is_range};
ghost use Rattle.profile_toml.specs.Rules.{word_of};
ghost use Rattle.profile_toml.specs.Sound.{AreSound};
ghost use Rattle.profile_toml.specs.Tables.{Document, room};

use crate::{ModEntry, ModType, Override, Profile, Range, Release, Rule, RuleKind};
use indexmap::IndexMap;
use rel_paths::{ModId, RelPath};
use std::alloc::{AllocError, Global};
use toml::value::Array;
use toml::{Table, Value};

// Puts a value at a key.
fn put(alloc: Global, table: &mut Table, key: &str, value: Value) -> Result<(), AllocError>
    ensures { OnOk result
        (table_view table.new ≡ put_member key.now (view value) (table_view table.old)) }
{
    let key = key.to_string(alloc)?;
    match table.insert(key, value) {
        Ok(_) => Ok(()),
        Err(_) => Err(AllocError),
    }
}

// Puts a text at a key.
fn put_text(alloc: Global, table: &mut Table, key: &str, text: &str) -> Result<(), AllocError>
    ensures { OnOk result
        (table_view table.new ≡ put_member key.now (string text.now) (table_view table.old)) }
{
    let value = Value::string(alloc, text)?;
    put(alloc, table, key, value)
}

fn put_range(alloc: Global, table: &mut Table, range: Option<Range>) -> Result<(), AllocError>
    ensures data { OnOk result
        (table_view table.new
        ≡ put_if (codes "range") (option_map string range) (table_view table.old)) }
    ensures kept { OnOk result (IfSome range (λ text. is_range text ≡ true)) }
{
    match range {
        Some(range) => put_text(alloc, table, "range", range.text()),
        None => Ok(()),
    }
}

fn put_release(alloc: Global, table: &mut Table, release: Option<Release>) -> Result<(), AllocError>
    ensures data { OnOk result
        (table_view table.new
        ≡ put_if (codes "release") (option_map string release) (table_view table.old)) }
    ensures kept { OnOk result (IfSome release (λ text. is_release text ≡ true)) }
{
    match release {
        Some(release) => put_text(alloc, table, "release", release.text()),
        None => Ok(()),
    }
}

fn put_type(alloc: Global, table: &mut Table, id: Option<ModId>) -> Result<(), AllocError>
    ensures { OnOk result
        (table_view table.new
        ≡ put_if (codes "type") (option_map string id) (table_view table.old)) }
{
    match id {
        Some(id) => put_text(alloc, table, "type", id.text()),
        None => Ok(()),
    }
}

// Adds a value at the end of an array.
fn add(array: &mut Array, value: Value) -> Result<(), AllocError>
    ensures { OnOk result (array.new.items ≡ array.old.items ++ value ∷ []) }
{
    match array.push(value) {
        Ok(()) => Ok(()),
        Err(_) => Err(AllocError),
    }
}

fn word_of(kind: RuleKind) -> &'static str
    ensures { result.now ≡ word_of kind }
{
    match kind {
        RuleKind::Before => "before",
        RuleKind::After => "after",
        RuleKind::Requires => "requires",
        RuleKind::Conflicts => "conflicts",
        RuleKind::Recommends => "recommends",
    }
}

fn rule_value(alloc: Global, rule: Rule) -> Result<Value, AllocError>
    ensures data { IfOk result (λ v. view v ≡ rule_data rule) }
    ensures kept { IfOk result (λ _. IsRule rule) }
{
    let mut table = rule.extra.into_table();
    put_range(alloc, &mut table, rule.range)?;
    put_text(alloc, &mut table, "ref", rule.refers.text())?;
    put_text(alloc, &mut table, "kind", word_of(rule.kind))?;
    Ok(Value::Table(table))
}

fn rules_value(alloc: Global, rules: Vec<Rule>) -> Result<Value, AllocError>
    ensures data { IfOk result (λ v. view v ≡ rules_data rules.items) }
    ensures kept { IfOk result (λ _. AllByRecursion IsRule rules.items) }
{
    let mut array = Array::new(alloc);
    for rule in rules {
        let value = rule_value(alloc, rule)?;
        add(&mut array, value)?;
    }
    Ok(Value::Array(array))
}

fn type_value(alloc: Global, entry: ModType) -> Result<Value, AllocError>
    ensures data { IfOk result (λ v. view v ≡ type_data entry) }
    ensures kept { IfOk result (λ _. IsType entry) }
{
    let mut table = entry.extra.into_table();
    put_text(alloc, &mut table, "base", entry.base.text())?;
    put_text(alloc, &mut table, "id", entry.id.text())?;
    Ok(Value::Table(table))
}

fn types_value(alloc: Global, types: Vec<ModType>) -> Result<Value, AllocError>
    ensures data { IfOk result (λ v. view v ≡ array (items_of (map type_data types.items))) }
    ensures kept { IfOk result (λ _. AllByRecursion IsType types.items) }
{
    let mut array = Array::new(alloc);
    for entry in types {
        let value = type_value(alloc, entry)?;
        add(&mut array, value)?;
    }
    Ok(Value::Array(array))
}

// Puts the types, which version 1 has no meaning for.
fn put_types(
    alloc: Global,
    version: u32,
    table: &mut Table,
    types: Vec<ModType>,
) -> Result<(), AllocError>
    ensures data { OnOk result
        (table_view table.new
        ≡ put_if (codes "types") (types_data version types.items) (table_view table.old)) }
    ensures kept { OnOk result (AllByRecursion IsType types.items) }
{
    let value = types_value(alloc, types)?;
    if version == 1 {
        return Ok(());
    }
    put(alloc, table, "types", value)
}

fn mod_value(alloc: Global, id: ModId, entry: ModEntry) -> Result<Value, AllocError>
    ensures data { IfOk result (λ v. view v ≡ mod_data (id, entry)) }
    ensures kept { IfOk result (λ _. IsMod (id, entry)) }
{
    let mut table = entry.extra.into_table();
    let rules = rules_value(alloc, entry.rules)?;
    put(alloc, &mut table, "rules", rules)?;
    put_type(alloc, &mut table, entry.mod_type)?;
    put_release(alloc, &mut table, entry.release)?;
    put(alloc, &mut table, "enabled", Value::Boolean(entry.enabled))?;
    put_text(alloc, &mut table, "id", id.text())?;
    Ok(Value::Table(table))
}

fn mods_value(alloc: Global, mods: IndexMap<ModId, ModEntry>) -> Result<Value, AllocError>
    ensures data { IfOk result (λ v. view v ≡ array (items_of (map mod_data mods.entries))) }
    ensures kept { IfOk result (λ _. AllByRecursion IsMod mods.entries) }
    ensures ids { IfOk result (λ _. IsDistinct (pointwise nat_eq) (keys mods)) }
{
    let mut array = Array::new(alloc);
    for (id, entry) in mods {
        let value = mod_value(alloc, id, entry)?;
        add(&mut array, value)?;
    }
    Ok(Value::Array(array))
}

fn override_value(alloc: Global, entry: Override) -> Result<Value, AllocError>
    ensures data { IfOk result (λ v. view v ≡ override_data entry) }
    ensures kept { IfOk result (λ _. IsOverride entry) }
{
    let mut table = entry.extra.into_table();
    put_text(alloc, &mut table, "mod", entry.mod_id.text())?;
    put_text(alloc, &mut table, "path", entry.path.text())?;
    Ok(Value::Table(table))
}

fn overrides_value(
    alloc: Global,
    overrides: IndexMap<RelPath, Override>,
) -> Result<Value, AllocError>
    ensures data { IfOk result
        (λ v. view v ≡ array (items_of (map override_data (values overrides)))) }
    ensures kept { IfOk result (λ _. AllByRecursion IsOverride (values overrides)) }
    ensures keys { IfOk result (λ _. IsDistinct (pointwise nat_eq) (keys overrides)) }
{
    let mut array = Array::new(alloc);
    for (_path, entry) in overrides {
        let value = override_value(alloc, entry)?;
        add(&mut array, value)?;
    }
    Ok(Value::Array(array))
}

// The bytes that a table is printed as.
fn print_table(alloc: Global, table: Table) -> Result<Vec<u8>, AllocError>
    requires { AreSound (room Document) (table_view table) }
    ensures { IfOk result (λ b. document_of b.items ≡ Some (table_view table)) }
{
    match toml::table_to_string(alloc, &table) {
        Ok(text) => Ok(text.into_bytes()),
        Err(_) => Err(AllocError),
    }
}

fn profile_table(alloc: Global, profile: Profile) -> Result<Table, AllocError>
    ensures data { IfOk result (λ t. table_view t ≡ profile_members profile) }
    ensures kept { IfOk result (λ _. IsProfile profile) }
{
    let version = profile.version;
    let mut table = profile.extra.into_table();
    let overrides = overrides_value(alloc, profile.overrides)?;
    put(alloc, &mut table, "overrides", overrides)?;
    let mods = mods_value(alloc, profile.mods)?;
    put(alloc, &mut table, "mods", mods)?;
    put_types(alloc, version, &mut table, profile.types)?;
    put(
        alloc,
        &mut table,
        "version",
        Value::Integer(i64::from(version)),
    )?;
    Ok(table)
}

/// Bytes that read as this profile. Their layout is the TOML printer's.
pub fn print_profile(alloc: Global, profile: Profile) -> Result<Vec<u8>, AllocError>
    ensures { IfOk result (λ b. profile_of b.items ≡ Ok profile) }
{
    let table = profile_table(alloc, profile)?;
    print_table(alloc, table)
}
