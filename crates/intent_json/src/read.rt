// Intents read from bytes.
ghost use Rattle.std.specs.Prelude.{◌≡◌, None, Some, IfOk, if◌then◌else◌, option_map};
ghost use Rattle.std.specs.List.{list_all};
ghost use Rattle.std.specs.Str.{bytes_eq};
ghost use Rattle.serde_json.specs.View.{view, items_view};
ghost use Rattle.manifest_json.specs.Manifests.{json_of, array_at, version_of};
ghost use Rattle.move_plan.specs.Tests.{passes};
ghost use Rattle.intent_json.specs.Places.{place_of, pair_of, set_of};
ghost use Rattle.intent_json.specs.Forms.{is_bare, is_formed};
ghost use Rattle.intent_json.specs.Accepted.{IsIntentOf};
ghost use Rattle.intent_json.specs.Reads.{list_at, manifest_from, phase_of, phase_at, intent_of, has_own_source};
ghost use Rattle.intent_json.specs.Reads.{has_form, has_manifest_form, is_accepted, intent_in, intent_value};

use crate::print::text_in;
use crate::read_places::{read_pairs, read_places, read_sets};
use crate::{Intent, Phase};
use manifest_json::{FormatVersion, Manifest, ManifestError, Row, manifest_from_json};
use move_plan::{Places, Plan, Saves, SetRow, Sets, check_plan};
use serde_json::Value;
use std::alloc::{AllocError, Global};
use tree_fs::Place;

fn array_at<'a>(value: &'a Value, key: &str) -> Option<&'a Vec<Value>>
    ensures { option_map (λ v. items_view v.now.items) result ≡ array_at key.now (view value.now) }
{
    value.get(key)?.as_array()
}

fn places_at(alloc: Global, value: &Value, key: &str) -> Result<Option<Vec<Place>>, AllocError>
    ensures { IfOk result (λ o.
        option_map (λ v. v.items) o ≡ list_at place_of key.now (view value.now)) }
{
    let Some(items) = array_at(value, key) else {
        return Ok(None);
    };
    read_places(alloc, items)
}

fn pairs_at(
    alloc: Global,
    value: &Value,
    key: &str,
) -> Result<Option<Vec<(Place, Place)>>, AllocError>
    ensures { IfOk result (λ o.
        option_map (λ v. v.items) o ≡ list_at pair_of key.now (view value.now)) }
{
    let Some(items) = array_at(value, key) else {
        return Ok(None);
    };
    read_pairs(alloc, items)
}

fn sets_at(alloc: Global, value: &Value, key: &str) -> Result<Option<Vec<SetRow>>, AllocError>
    ensures { IfOk result (λ o.
        option_map (λ v. v.items) o ≡ list_at set_of key.now (view value.now)) }
{
    let Some(items) = array_at(value, key) else {
        return Ok(None);
    };
    read_sets(alloc, items)
}

// The manifest, or none for `null`.
fn manifest_from(alloc: Global, value: &Value) -> Result<Option<Option<Manifest>>, AllocError>
    ensures { IfOk result (λ o. o ≡ manifest_from (view value.now)) }
{
    if value.is_null() {
        return Ok(Some(None));
    }
    match manifest_from_json(alloc, value) {
        Ok(manifest) => Ok(Some(Some(manifest))),
        Err(ManifestError::Memory) => Err(AllocError),
        Err(_) => Ok(None),
    }
}

fn phase_of(word: &str) -> Option<Phase>
    ensures { result ≡ phase_of word.now }
{
    match word {
        "set" => Some(Phase::Set),
        "clear" => Some(Phase::Clear),
        _ => None,
    }
}

fn phase_at(value: &Value) -> Option<Phase>
    ensures { result ≡ phase_at (view value.now) }
{
    phase_of(value.get("phase")?.as_str()?)
}

fn intent_from(alloc: Global, value: &Value) -> Result<Option<Intent>, AllocError>
    ensures { IfOk result (λ o. o ≡ intent_of (view value.now)) }
{
    let Some(folders) = places_at(alloc, value, "folders")? else {
        return Ok(None);
    };
    let Some(saves) = pairs_at(alloc, value, "saves")? else {
        return Ok(None);
    };
    let Some(sets) = sets_at(alloc, value, "sets")? else {
        return Ok(None);
    };
    let Some(manifest_value) = value.get("manifest") else {
        return Ok(None);
    };
    let Some(manifest) = manifest_from(alloc, manifest_value)? else {
        return Ok(None);
    };
    let Some(clears) = places_at(alloc, value, "clears")? else {
        return Ok(None);
    };
    let Some(folders_off) = places_at(alloc, value, "folders_off")? else {
        return Ok(None);
    };
    let Some(phase) = phase_at(value) else {
        return Ok(None);
    };
    Ok(Some(Intent {
        phase,
        plan: Plan {
            folders: Places::new(folders),
            saves: Saves::new(saves),
            sets: Sets::new(sets),
            manifest,
            clears: Places::new(clears),
            folders_off: Places::new(folders_off),
        },
    }))
}

fn read_json(alloc: Global, bytes: &[u8]) -> Result<Option<Value>, AllocError>
    ensures { IfOk result (λ o. option_map view o ≡ json_of bytes.now) }
{
    match Value::from_slice(alloc, bytes) {
        Ok(value) => Ok(Some(value)),
        Err(e) => {
            if e.is_memory() {
                Err(AllocError)
            } else {
                Ok(None)
            }
        }
    }
}

// The version, where it is one that is known.
fn version_of(value: &Value) -> Option<FormatVersion>
    ensures { result ≡ version_of (view value.now) }
{
    FormatVersion::numbered(value.get("version")?.as_u64()?)
}

fn is_bare(plan: &Plan) -> bool
    ensures { result ≡ is_bare plan.now }
{
    plan.folders.as_slice().is_empty()
        && plan.saves.as_slice().is_empty()
        && plan.sets.as_slice().is_empty()
}

fn is_formed(phase: Phase, plan: &Plan) -> bool
    ensures { result ≡ is_formed phase plan.now }
{
    match phase {
        Phase::Set => true,
        Phase::Clear => is_bare(plan),
    }
}

fn passes(plan: &Plan) -> bool
    ensures { result ≡ passes plan.now }
{
    check_plan(plan).is_ok()
}

// Whether the row's source is its path.
fn has_own_source(row: &Row) -> bool
    ensures { result ≡ has_own_source row.now }
{
    row.source.text() == row.path.text()
}

fn have_own_sources(rows: &[Row]) -> bool
    ensures { result ≡ list_all has_own_source rows.now }
{
    for row in rows {
        if !has_own_source(row) {
            return false;
        }
    }
    true
}

fn has_form(version: FormatVersion, rows: &[Row]) -> bool
    ensures { result ≡ has_form version rows.now }
{
    match version {
        FormatVersion::One => have_own_sources(rows),
        FormatVersion::Two => true,
    }
}

// Whether the version has a form for the manifest.
fn has_manifest_form(version: FormatVersion, manifest: &Option<Manifest>) -> bool
    ensures { result ≡ has_manifest_form version manifest.now }
{
    match manifest {
        None => true,
        Some(manifest) => has_form(version, manifest.rows.as_slice()),
    }
}

fn is_same(text: &[u8], bytes: &[u8]) -> bool
    ensures { result ≡ bytes_eq text.now bytes.now }
{
    text == bytes
}

// Whether the intent is accepted, and these bytes are its text in the version.
fn is_accepted(
    alloc: Global,
    version: FormatVersion,
    bytes: &[u8],
    intent: &Intent,
) -> Result<bool, AllocError>
    ensures { IfOk result (λ b. b ≡ is_accepted version bytes.now intent.now) }
{
    let plan = &intent.plan;
    if !is_formed(intent.phase, plan)
        || !passes(plan)
        || !has_manifest_form(version, &plan.manifest)
    {
        return Ok(false);
    }
    let text = text_in(alloc, version, intent.phase, plan)?;
    Ok(is_same(&text, bytes))
}

// The intent that a JSON value is, where it is accepted and these bytes are its text.
fn intent_in(alloc: Global, bytes: &[u8], value: &Value) -> Result<Option<Intent>, AllocError>
    ensures { IfOk result (λ o. o ≡ intent_in bytes.now (view value.now)) }
{
    let Some(version) = version_of(value) else {
        return Ok(None);
    };
    let Some(intent) = intent_from(alloc, value)? else {
        return Ok(None);
    };
    let accepted = is_accepted(alloc, version, bytes, &intent)?;
    if accepted { Ok(Some(intent)) } else { Ok(None) }
}

/// The intent whose text these bytes are, or none. The bytes are taken only where they are exactly
/// the text of an intent whose plan passes the rules, in the second version of the format or in the
/// first, which has a form where the source of each row of the manifest is its path. A text is that
/// of one intent at most.
pub fn read_intent(alloc: Global, bytes: &[u8]) -> Result<Option<Intent>, AllocError>
    ensures value { IfOk result (λ o. o ≡ intent_value bytes.now) }
    ensures exact { IfOk result (λ o. IsIntentOf bytes.now o) }
{
    let Some(value) = read_json(alloc, bytes)? else {
        return Ok(None);
    };
    intent_in(alloc, bytes, &value)
}
