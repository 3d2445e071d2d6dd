// Intents as JSON text.
ghost use Rattle.std.specs.Prelude.{◌≡◌, ◌∷◌, ◌++◌, IfOk, OnOk, IsUtf8, Some, codes};
ghost use Rattle.std.specs.List.{AllByRecursion};
ghost use Rattle.json.specs.Token.{Token};
ghost use Rattle.serde_json.specs.Data.{string, number, unsigned};
ghost use Rattle.manifest_json.specs.Versions.{number_of};
ghost use Rattle.manifest_json.specs.Texts.{tokens_of};
ghost use Rattle.move_plan.specs.Rules.{PassesRules};
ghost use Rattle.intent_json.specs.Places.{places_data, pairs_data, sets_data};
ghost use Rattle.intent_json.specs.Held.{IsHeld, IsHeldPair, IsHeldSet, IsHeldManifest, IsHeldPlan};
ghost use Rattle.intent_json.specs.Forms.{form_of, with_steps};
ghost use Rattle.intent_json.specs.Texts.{manifest_or_null, phase_word, intent_data, text_in, text_of};
ghost use Rattle.intent_json.specs.Accepted.{TellsIntent};
ghost use Rattle.intent_json.specs.Reads.{intent_value};

use crate::Phase;
use crate::places::{write_pairs, write_places, write_sets};
use json::Writer;
use manifest_json::{FormatVersion, Manifest, write_manifest};
use move_plan::{Plan, SetRow};
use std::alloc::{AllocError, Global};
use tree_fs::Place;

fn write_manifest_or_null(
    alloc: Global,
    writer: &mut Writer,
    version: FormatVersion,
    manifest: &Option<Manifest>,
) -> Result<(), AllocError>
    ensures tokens { OnOk result (writer.new.tokens
        ≡ writer.old.tokens ++ tokens_of (manifest_or_null version manifest.now)) }
    ensures before { writer.new.before ≡ writer.old.before }
    ensures held { OnOk result (IsHeldManifest manifest.now) }
{
    match manifest {
        None => writer.null(),
        Some(manifest) => write_manifest(alloc, writer, version, manifest),
    }
}

fn word(phase: Phase) -> &'static str
    ensures { result.now ≡ phase_word phase }
{
    match phase {
        Phase::Set => "set",
        Phase::Clear => "clear",
    }
}

// What a plan makes, saves and sets.
#[derive(Drop)]
struct Steps<'a> {
    folders: &'a [Place],
    saves: &'a [(Place, Place)],
    sets: &'a [SetRow],
}

// A key, and the places that stand at it.
fn write_places_at(
    alloc: Global,
    writer: &mut Writer,
    key: &str,
    places: &[Place],
) -> Result<(), AllocError>
    ensures tokens { OnOk result (writer.new.tokens
        ≡ writer.old.tokens ++ Token.key key.now ∷ tokens_of (places_data places.now)) }
    ensures before { writer.new.before ≡ writer.old.before }
    ensures held { OnOk result (AllByRecursion IsHeld places.now) }
{
    writer.key(key)?;
    write_places(alloc, writer, places)
}

// The keys up to the manifest.
fn write_first(
    alloc: Global,
    writer: &mut Writer,
    version: FormatVersion,
    folders: &[Place],
    plan: &Plan,
) -> Result<(), AllocError>
    ensures tokens { OnOk result (writer.new.tokens ≡ writer.old.tokens
        ++ Token.key (codes "clears") ∷ (tokens_of (places_data plan.now.clears)
        ++ Token.key (codes "folders") ∷ (tokens_of (places_data folders.now)
        ++ Token.key (codes "folders_off") ∷ (tokens_of (places_data plan.now.folders_off)
        ++ Token.key (codes "manifest") ∷ tokens_of (manifest_or_null version plan.now.manifest))))) }
    ensures before { writer.new.before ≡ writer.old.before }
    ensures clears { OnOk result (AllByRecursion IsHeld plan.now.clears) }
    ensures folders { OnOk result (AllByRecursion IsHeld folders.now) }
    ensures folders_off { OnOk result (AllByRecursion IsHeld plan.now.folders_off) }
    ensures manifest { OnOk result (IsHeldManifest plan.now.manifest) }
{
    write_places_at(alloc, writer, "clears", plan.clears.as_slice())?;
    write_places_at(alloc, writer, "folders", folders)?;
    write_places_at(alloc, writer, "folders_off", plan.folders_off.as_slice())?;
    writer.key("manifest")?;
    write_manifest_or_null(alloc, writer, version, &plan.manifest)
}

// The keys behind the manifest.
fn write_last(
    alloc: Global,
    writer: &mut Writer,
    version: FormatVersion,
    phase: Phase,
    saves: &[(Place, Place)],
    sets: &[SetRow],
) -> Result<(), AllocError>
    ensures tokens { OnOk result (writer.new.tokens ≡ writer.old.tokens
        ++ Token.key (codes "phase") ∷ (tokens_of (string (phase_word phase))
        ++ Token.key (codes "saves") ∷ (tokens_of (pairs_data saves.now)
        ++ Token.key (codes "sets") ∷ (tokens_of (sets_data sets.now)
        ++ Token.key (codes "version") ∷ tokens_of (number (unsigned (number_of version))))))) }
    ensures before { writer.new.before ≡ writer.old.before }
    ensures saves { OnOk result (AllByRecursion IsHeldPair saves.now) }
    ensures sets { OnOk result (AllByRecursion IsHeldSet sets.now) }
{
    writer.key("phase")?;
    writer.string(word(phase))?;
    writer.key("saves")?;
    write_pairs(alloc, writer, saves)?;
    writer.key("sets")?;
    write_sets(alloc, writer, sets)?;
    writer.key("version")?;
    writer.u64(version.number())
}

// The intent of these steps and of the rest of a plan.
fn write_steps(
    alloc: Global,
    writer: &mut Writer,
    version: FormatVersion,
    phase: Phase,
    steps: Steps<'_>,
    plan: &Plan,
) -> Result<(), AllocError>
    ensures tokens { OnOk result (writer.new.tokens ≡ writer.old.tokens
        ++ tokens_of (intent_data version
        (with_steps phase steps.entry.folders.now steps.entry.saves.now steps.entry.sets.now plan.now))) }
    ensures before { writer.new.before ≡ writer.old.before }
    ensures held { OnOk result
        (IsHeldPlan
        (with_steps phase steps.entry.folders.now steps.entry.saves.now steps.entry.sets.now plan.now).plan) }
{
    let Steps {
        folders,
        saves,
        sets,
    } = steps;
    writer.begin_object()?;
    write_first(alloc, writer, version, folders, plan)?;
    write_last(alloc, writer, version, phase, saves, sets)?;
    writer.end_object()
}

#[tactic(auto, unfolding(crate::specs::Forms::bare_of))]
fn write_intent(
    alloc: Global,
    writer: &mut Writer,
    version: FormatVersion,
    phase: Phase,
    plan: &Plan,
) -> Result<(), AllocError>
    ensures tokens { OnOk result (writer.new.tokens
        ≡ writer.old.tokens ++ tokens_of (intent_data version (form_of phase plan.now))) }
    ensures before { writer.new.before ≡ writer.old.before }
    ensures held { OnOk result (IsHeldPlan (form_of phase plan.now).plan) }
{
    match phase {
        Phase::Set => {
            let steps = Steps {
                folders: plan.folders.as_slice(),
                saves: plan.saves.as_slice(),
                sets: plan.sets.as_slice(),
            };
            write_steps(alloc, writer, version, phase, steps, plan)
        }
        Phase::Clear => {
            let steps = Steps {
                folders: &[],
                saves: &[],
                sets: &[],
            };
            write_steps(alloc, writer, version, phase, steps, plan)
        }
    }
}

// The text of the intent of a plan in this phase, in this version of the format.
pub(crate) fn text_in(
    alloc: Global,
    version: FormatVersion,
    phase: Phase,
    plan: &Plan,
) -> Result<Vec<u8>, AllocError>
    ensures exact { IfOk result (λ bytes. bytes.items ≡ text_in version (form_of phase plan.now)) }
    ensures utf8 { IfOk result (λ bytes. IsUtf8 bytes.items) }
    ensures held { IfOk result (λ _. IsHeldPlan (form_of phase plan.now).plan) }
{
    let mut writer = Writer::new(Vec::new(alloc));
    write_intent(alloc, &mut writer, version, phase, plan)?;
    Ok(writer.into_inner())
}

/// The text of the intent of a plan in this phase: compact JSON in the second version of the
/// format, with its keys in byte order. In the clear phase the plan's folders to make, its saves
/// and its sets are left out. No other intent has this text. Where the plan passes the rules, the
/// text reads as that intent.
pub fn intent_text(alloc: Global, phase: Phase, plan: &Plan) -> Result<Vec<u8>, AllocError>
    ensures exact { IfOk result (λ bytes. bytes.items ≡ text_of (form_of phase plan.now)) }
    ensures alone { IfOk result (λ bytes. TellsIntent bytes.items (form_of phase plan.now)) }
    ensures reads_back { IfOk result (λ bytes.
        PassesRules plan.now → intent_value bytes.items ≡ Some (form_of phase plan.now)) }
{
    text_in(alloc, FormatVersion::Two, phase, plan)
}
