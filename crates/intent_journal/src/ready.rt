// A plan with all that its steps need besides.
ghost use Rattle.std.specs.Prelude.{◌≡◌, None, Some, IfOk, IfErr, IfSome};
ghost use Rattle.fault_count.specs.Causes.{Explains};
ghost use Rattle.manifest_json.specs.Manifests.{manifest_value};
ghost use Rattle.manifest_json.specs.Texts.{text_of as manifest_text};
ghost use Rattle.move_plan.specs.Rules.{PassesRules};
ghost use Rattle.intent_json.specs.Forms.{set_form, clear_form};
ghost use Rattle.intent_json.specs.Texts.{text_of};
ghost use Rattle.intent_json.specs.Reads.{intent_value};
ghost use Rattle.intent_journal.specs.Lengths.{length_fault};

use crate::ReadyError;
use crate::folders::{SyncFolders, sync_folders};
use crate::parents::{Parents, plan_parents};
use crate::texts::{Texts, texts_of};
use move_plan::Plan;
use std::alloc::Global;
use std::marker::Model;
use tree_fs::Place;

/// A plan that passes the rules, with the texts that its steps write, the parents of its places,
/// and the folders that its steps sync. A contract sees the plan.
#[derive(Drop)]
pub struct Ready {
    plan: Plan,
    texts: Texts,
    parents: Parents,
    folders: SyncFolders,
}

impl Model for Ready {
    ghost use Rattle.move_plan.specs.declared.plan.Plan.{Plan};
    ghost use Rattle.intent_journal.specs.Ready.{IsReady};

    ghost Value = { Plan };

    ghost view = { λ a. a.plan };

    ghost invariant = { λ a. IsReady a.plan a.texts a.parents a.folders };
}

impl Ready {
    ghost use Rattle.intent_journal.specs.Ready.{saved_places, set_places, AreParents, AreFolders};

    /// The plan.
    pub fn plan(&self) -> &Plan
        ensures same { result.now ≡ self.now }
        ensures rules { PassesRules self.now }
    {
        &self.plan
    }

    /// The text of the intent in its set form.
    pub fn set_text(&self) -> &[u8]
        ensures text { result.now ≡ text_of (set_form self.now) }
        ensures reads { intent_value result.now ≡ Some (set_form self.now) }
    {
        &self.texts.set
    }

    /// The text of the intent in its clear form.
    pub fn clear_text(&self) -> &[u8]
        ensures text { result.now ≡ text_of (clear_form self.now) }
        ensures reads { intent_value result.now ≡ Some (clear_form self.now) }
    {
        &self.texts.clear
    }

    /// The text of the new manifest, where the plan has one.
    pub fn manifest_text(&self) -> &[u8]
        ensures text { IfSome self.now.manifest (λ m. result.now ≡ manifest_text m) }
        ensures reads { IfSome self.now.manifest (λ m. manifest_value result.now ≡ Some m) }
    {
        &self.texts.manifest
    }

    /// The folder in which each folder to make lies, in their order.
    pub fn folder_parents(&self) -> &[Place]
        ensures { AreParents self.now.folders result.now }
    {
        self.parents.folders.as_slice()
    }

    /// The folder in which each save's destination lies, in the saves' order.
    pub fn save_parents(&self) -> &[Place]
        ensures { AreParents (saved_places self.now) result.now }
    {
        self.parents.saves.as_slice()
    }

    /// The folder in which each set's destination lies, in the sets' order.
    pub fn set_parents(&self) -> &[Place]
        ensures { AreParents (set_places self.now) result.now }
    {
        self.parents.sets.as_slice()
    }

    /// The folders in which the saves' destinations lie, each once.
    pub fn save_folders(&self) -> &[Place]
        ensures { AreFolders (saved_places self.now) result.now }
    {
        self.folders.saves.as_slice()
    }

    /// The folders in which the sets' destinations lie, each once.
    pub fn set_folders(&self) -> &[Place]
        ensures { AreFolders (set_places self.now) result.now }
    {
        self.folders.sets.as_slice()
    }

    /// The folders in which the clears lie, each once.
    pub fn clear_folders(&self) -> &[Place]
        ensures { AreFolders self.now.clears result.now }
    {
        self.folders.clears.as_slice()
    }
}

/// Makes all that the steps of a plan need. The plan has to pass the rules. `TooLong(n)` comes
/// where n, the number of bytes of the intent's text in its set form and two more, is above `most`.
/// The plan is dropped on a refusal.
pub fn prepare(alloc: Global, plan: Plan, most: u64) -> Result<Ready, ReadyError>
    requires { PassesRules plan }
    ensures same { IfOk result (λ ready. ready ≡ plan) }
    ensures fits { IfOk result (λ _. length_fault plan most ≡ None) }
    ensures err { IfErr result (Explains ReadyError.Memory (length_fault plan most)) }
{
    let texts = texts_of(alloc, &plan, most)?;
    let parents = plan_parents(alloc, &plan)?;
    let folders = sync_folders(alloc, &plan, &parents)?;
    Ok(Ready {
        plan,
        texts,
        parents,
        folders,
    })
}
