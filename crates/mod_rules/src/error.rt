// Why a profile's rules don't hold.
use rel_paths::ModId;
use std::alloc::AllocError;

/// The first rule that fails.
#[derive(Debug, Drop)]
pub enum RuleError {
    /// The mod requires one that isn't enabled, or isn't in the release that is asked for.
    Missing {
        /// The mod with the rule.
        mod_id: ModId,
        /// The mod that it requires.
        needs: ModId,
    },
    /// The mod conflicts with another that is enabled, in the release that it has.
    Conflict {
        /// The mod with the rule.
        mod_id: ModId,
        /// The other.
        other: ModId,
    },
    /// Memory ran out.
    Memory,
}

impl From<AllocError> for RuleError {
    ghost use Rattle.std.specs.Prelude.{◌≡◌};
    ghost use Rattle.mod_rules.specs.declared.error.RuleError.TheVariants.{Memory};

    ghost from_gives = { λ _ e. e ≡ Memory };

    fn from(_e: AllocError) -> RuleError {
        RuleError::Memory
    }
}
