// Why a command stopped before its work was done.
ghost use Rattle.std.specs.Prelude.{◌≡◌};
ghost use Rattle.command_steps.specs.Stops.{tree_stop, profile_stop, rule_stop, win_stop, manifest_stop, change_stop};
ghost use Rattle.command_steps.specs.Stops.{intent_stop, plan_stop, ready_stop, purge_stop, settle_stop, edit_stop};
ghost use Rattle.command_steps.specs.declared.stop.Stop.TheVariants.{Memory};

use answer_lines::{
    EditRefusal, ManifestRefusal, PlanRefusal, ProfileRefusal, RecoveryRefusal, Refusal,
    RuleRefusal, ScanRefusal,
};
use change_detect::ChangeError;
use change_settle::SettleError;
use deploy_plan::PlanError;
use intent_journal::{IntentError, ReadyError};
use manifest_json::ManifestError;
use mod_rules::RuleError;
use profile_edit::EditError;
use profile_toml::ProfileError;
use purge_run::PurgeError;
use std::alloc::{AllocError, AllocFailed};
use tree_fs::TreeError;
use winner_table::WinError;

/// Why a command stopped before its work was done.
#[derive(Drop)]
pub enum Stop {
    /// It is refused.
    Refused(Refusal),
    /// An earlier command was stopped, and what it left has to be settled first.
    RecoverFirst,
    /// The file system failed, and the tree counted it.
    TreeFault,
    /// Memory ran out.
    Memory,
}

impl From<TreeError> for Stop {
    ghost from_gives = { λ x e. e ≡ tree_stop x };

    fn from(error: TreeError) -> Self {
        match error {
            TreeError::Failed => Stop::TreeFault,
            TreeError::Memory => Stop::Memory,
        }
    }
}

impl From<AllocError> for Stop {
    ghost from_gives = { λ _ e. e ≡ Memory };

    fn from(_: AllocError) -> Self {
        Stop::Memory
    }
}

impl<T: Drop> From<AllocFailed<T>> for Stop {
    ghost from_gives = { λ _ e. e ≡ Memory };

    fn from(_: AllocFailed<T>) -> Self {
        Stop::Memory
    }
}

impl From<ProfileError> for Stop {
    ghost from_gives = { λ x e. e ≡ profile_stop x };

    fn from(error: ProfileError) -> Self {
        Stop::Refused(Refusal::Profile(match error {
            ProfileError::NotToml => ProfileRefusal::ProfileNotToml,
            ProfileError::Deep => ProfileRefusal::ProfileDeep,
            ProfileError::Float => ProfileRefusal::ProfileFloat,
            ProfileError::Version => ProfileRefusal::ProfileVersion,
            ProfileError::Shape(key) => ProfileRefusal::ProfileShape(key),
            ProfileError::BadPath(text) => ProfileRefusal::BadPath(text),
            ProfileError::BadKind(text) => ProfileRefusal::BadKind(text),
            ProfileError::BadRelease(text) => ProfileRefusal::BadRelease(text),
            ProfileError::BadRange(text) => ProfileRefusal::BadRange(text),
            ProfileError::SameMod(id) => ProfileRefusal::SameMod(id),
            ProfileError::SameOverride(path) => ProfileRefusal::SameOverride(path),
            ProfileError::SameType(id) => ProfileRefusal::SameType(id),
            ProfileError::NoType(text) => ProfileRefusal::NoType(text),
            ProfileError::Memory => return Stop::Memory,
        }))
    }
}

impl From<RuleError> for Stop {
    ghost from_gives = { λ x e. e ≡ rule_stop x };

    fn from(error: RuleError) -> Self {
        match error {
            RuleError::Missing { mod_id, needs } => {
                Stop::Refused(Refusal::Rules(RuleRefusal::Missing { mod_id, needs }))
            }
            RuleError::Conflict { mod_id, other } => {
                Stop::Refused(Refusal::Rules(RuleRefusal::Conflict { mod_id, other }))
            }
            RuleError::Memory => Stop::Memory,
        }
    }
}

impl From<WinError> for Stop {
    ghost from_gives = { λ x e. e ≡ win_stop x };

    fn from(error: WinError) -> Self {
        match error {
            WinError::FileAndFolder(path) => {
                Stop::Refused(Refusal::Scan(ScanRefusal::FileAndFolder(path)))
            }
            WinError::Memory => Stop::Memory,
        }
    }
}

impl From<ManifestError> for Stop {
    ghost from_gives = { λ x e. e ≡ manifest_stop x };

    fn from(error: ManifestError) -> Self {
        Stop::Refused(Refusal::Manifest(match error {
            ManifestError::NotJson => ManifestRefusal::ManifestNotJson,
            ManifestError::Version => ManifestRefusal::ManifestVersion,
            ManifestError::Shape(spot) => ManifestRefusal::ManifestShape(spot),
            ManifestError::BadPath(spot) => ManifestRefusal::ManifestBadPath(spot),
            ManifestError::Order(spot) => ManifestRefusal::ManifestOrder(spot),
            ManifestError::Nested(spot) => ManifestRefusal::ManifestNested(spot),
            ManifestError::Source(spot) => ManifestRefusal::ManifestSource(spot),
            ManifestError::Memory => return Stop::Memory,
        }))
    }
}

impl From<ChangeError> for Stop {
    ghost from_gives = { λ x e. e ≡ change_stop x };

    fn from(error: ChangeError) -> Self {
        match error {
            ChangeError::Blocked(place) => {
                Stop::Refused(Refusal::Plan(PlanRefusal::Blocked(place)))
            }
            ChangeError::Failed => Stop::TreeFault,
            ChangeError::Memory => Stop::Memory,
        }
    }
}

impl From<IntentError> for Stop {
    ghost from_gives = { λ x e. e ≡ intent_stop x };

    fn from(error: IntentError) -> Self {
        match error {
            IntentError::BadIntent => Stop::Refused(Refusal::Recovery(RecoveryRefusal::BadIntent)),
            IntentError::Failed => Stop::TreeFault,
            IntentError::Memory => Stop::Memory,
        }
    }
}

impl From<PlanError> for Stop {
    ghost from_gives = { λ x e. e ≡ plan_stop x };

    fn from(error: PlanError) -> Self {
        Stop::Refused(Refusal::Plan(match error {
            PlanError::ChangesFound { first, count } => PlanRefusal::ChangesFound {
                path: first,
                count,
            },
            PlanError::Turned(path) => PlanRefusal::Turned(path),
            PlanError::Blocked(place) => PlanRefusal::Blocked(place),
            PlanError::BackupTaken(path) => PlanRefusal::BackupTaken(path),
            PlanError::Failed => return Stop::TreeFault,
            PlanError::Memory => return Stop::Memory,
        }))
    }
}

impl From<ReadyError> for Stop {
    ghost from_gives = { λ x e. e ≡ ready_stop x };

    fn from(error: ReadyError) -> Self {
        match error {
            ReadyError::TooLong(length) => {
                Stop::Refused(Refusal::Plan(PlanRefusal::PlanTooLong(length)))
            }
            ReadyError::Memory => Stop::Memory,
        }
    }
}

impl From<PurgeError> for Stop {
    ghost from_gives = { λ x e. e ≡ purge_stop x };

    fn from(error: PurgeError) -> Self {
        match error {
            PurgeError::Blocked(place) => Stop::Refused(Refusal::Plan(PlanRefusal::Blocked(place))),
            PurgeError::AsideFull => Stop::Refused(Refusal::Plan(PlanRefusal::AsideFull)),
            PurgeError::Failed => Stop::TreeFault,
            PurgeError::Memory => Stop::Memory,
        }
    }
}

impl From<SettleError> for Stop {
    ghost from_gives = { λ x e. e ≡ settle_stop x };

    fn from(error: SettleError) -> Self {
        match error {
            SettleError::Blocked(place) => {
                Stop::Refused(Refusal::Plan(PlanRefusal::Blocked(place)))
            }
            SettleError::AsideFull => Stop::Refused(Refusal::Plan(PlanRefusal::AsideFull)),
            SettleError::Failed => Stop::TreeFault,
            SettleError::Memory => Stop::Memory,
        }
    }
}

impl From<EditError> for Stop {
    ghost from_gives = { λ x e. e ≡ edit_stop x };

    fn from(error: EditError) -> Self {
        Stop::Refused(Refusal::Edit(match error {
            EditError::TooMany(count) => {
                return Stop::Refused(Refusal::Profile(ProfileRefusal::TooManyMods(count)));
            }
            EditError::NoMod(id) => EditRefusal::NoMod(id),
            EditError::SameRule => EditRefusal::SameRule,
            EditError::NoRule => EditRefusal::NoRule,
            EditError::NoOverride(path) => EditRefusal::NoOverride(path),
            EditError::KeyTaken(key) => EditRefusal::KeyTaken(key),
            EditError::OldProfile => EditRefusal::OldProfile,
            EditError::Memory => return Stop::Memory,
        }))
    }
}
