// The texts that a plan's steps write.
ghost use Rattle.std.specs.Prelude.{◌≡◌, None, Some, IfOk, IfErr, IfSome};
ghost use Rattle.fault_count.specs.Causes.{Explains};
ghost use Rattle.manifest_json.specs.Manifests.{manifest_value};
ghost use Rattle.manifest_json.specs.Texts.{text_of as manifest_text};
ghost use Rattle.move_plan.specs.Rules.{PassesRules};
ghost use Rattle.intent_json.specs.Forms.{set_form};
ghost use Rattle.intent_json.specs.Texts.{text_of};
ghost use Rattle.intent_json.specs.Reads.{intent_value};
ghost use Rattle.intent_journal.specs.Ready.{AreTexts};
ghost use Rattle.intent_journal.specs.Lengths.{length_fault};

use crate::ReadyError;
use intent_json::{Phase, intent_text};
use manifest_json::{Manifest, manifest_text};
use move_plan::Plan;
use std::alloc::{AllocError, Global};

// The texts of the two forms of a plan's intent, and of its manifest where it has one.
#[derive(Drop)]
pub struct Texts {
    pub(crate) set: Vec<u8>,
    pub(crate) clear: Vec<u8>,
    pub(crate) manifest: Vec<u8>,
}

// The text of a plan's set form, which may have two bytes less than `most`.
fn short_text(alloc: Global, plan: &Plan, most: u64) -> Result<Vec<u8>, ReadyError>
    requires { PassesRules plan.now }
    ensures text { IfOk result (λ text. text.items ≡ text_of (set_form plan.now)) }
    ensures reads { IfOk result (λ text. intent_value text.items ≡ Some (set_form plan.now)) }
    ensures fits { IfOk result (λ _. length_fault plan.now most ≡ None) }
    ensures err { IfErr result (Explains ReadyError.Memory (length_fault plan.now most)) }
{
    let text = intent_text(alloc, Phase::Set, plan)?;
    let written = text.len() as u64 + 2;
    if written > most {
        return Err(ReadyError::TooLong(written));
    }
    Ok(text)
}

// The manifest's text, or no bytes where there is none.
#[tactic(auto, unfolding(manifest_json::specs::Manifests::manifest_value))]
fn manifest_or_empty(alloc: Global, manifest: &Option<Manifest>) -> Result<Vec<u8>, AllocError>
    ensures text { IfOk result (λ text. IfSome manifest.now (λ m. text.items ≡ manifest_text m)) }
    ensures reads { IfOk result (λ text.
        IfSome manifest.now (λ m. manifest_value text.items ≡ Some m)) }
{
    match manifest {
        Some(manifest) => manifest_text(alloc, manifest),
        None => Ok(Vec::new(alloc)),
    }
}

// The texts of a plan.
pub(crate) fn texts_of(alloc: Global, plan: &Plan, most: u64) -> Result<Texts, ReadyError>
    requires { PassesRules plan.now }
    ensures texts { IfOk result (λ texts. AreTexts plan.now texts) }
    ensures fits { IfOk result (λ _. length_fault plan.now most ≡ None) }
    ensures err { IfErr result (Explains ReadyError.Memory (length_fault plan.now most)) }
{
    let set = short_text(alloc, plan, most)?;
    let clear = intent_text(alloc, Phase::Clear, plan)?;
    let manifest = manifest_or_empty(alloc, &plan.manifest)?;
    Ok(Texts {
        set,
        clear,
        manifest,
    })
}
