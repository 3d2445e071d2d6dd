// What has to be spent: a temp that is written, and an intent that stands on the disk.
ghost use Rattle.std.specs.Prelude.{◌≡◌};
ghost use Rattle.intent_json.specs.Forms.{form_of};

use crate::Temp;
use intent_json::Phase;
use move_plan::Plan;
use std::marker::Model;
use std::snapshot::Snapshot;
use tree_fs::TreeError;

/// A temp that is written. It can't be dropped: `install` gives it its place, and `discard` takes
/// it away. A contract sees which temp it is.
pub struct TempFile {
    pub(crate) which: Temp,
}

impl Model for TempFile {
    ghost use Rattle.intent_journal.specs.declared.temp.Temp.{Temp};

    ghost Value = { Temp };

    ghost view = { λ a. a.which };
}

/// An intent that stands on the disk. It can't be dropped: `finish` takes it away, and `leave`
/// leaves it to recovery. A contract sees the intent: its phase and its plan.
pub struct OpenIntent {
    pub(crate) phase: Phase,
    pub(crate) plan: Snapshot<Plan>,
}

impl Model for OpenIntent {
    ghost use Rattle.intent_json.specs.declared.intent.Intent.{Intent};
    ghost use Rattle.intent_json.specs.Forms.{form_of};

    ghost Value = { Intent };

    ghost view = { λ a. form_of a.phase a.plan.value };
}

/// Why a step of the journal failed, and what it leaves to be spent.
pub struct Held {
    pub error: TreeError,
    /// The intent that was handed in.
    pub intent: Option<OpenIntent>,
    /// The temp, where it is written and may not have come to its place.
    pub temp: Option<TempFile>,
}

// The guard of the intent of a plan in this phase.
pub(crate) fn open_intent(phase: Phase, plan: &Plan) -> OpenIntent
    ensures { result ≡ form_of phase plan.now }
{
    OpenIntent {
        phase,
        plan: Snapshot::of(plan),
    }
}

/// Spends the guard of an intent, which stays on the disk for recovery.
pub fn leave(intent: OpenIntent) {
    let OpenIntent { phase: _, plan: _ } = intent;
}
