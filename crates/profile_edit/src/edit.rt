// Edits.
use profile_toml::{Release, RuleKind};
use rel_paths::{ModId, RelPath};

/// An edit of a profile.
#[derive(Debug, Drop)]
pub enum Edit {
    /// The mod is enabled. An unknown one is added, last.
    Enable(ModId),
    /// The mod is disabled.
    Disable(ModId),
    /// The mod gets a rule, last. The mod that the rule refers to need not be there.
    AddRule {
        /// The mod with the rule.
        mod_id: ModId,
        /// The rule's kind.
        kind: RuleKind,
        /// The mod that the rule refers to.
        refers: ModId,
    },
    /// The mod loses the first rule of this kind and reference.
    DropRule {
        /// The mod with the rule.
        mod_id: ModId,
        /// The rule's kind.
        kind: RuleKind,
        /// The mod that the rule refers to.
        refers: ModId,
    },
    /// The file at this user path is to be that of the mod. An override of the path is changed in its place, and a new one is
    /// last.
    SetOverride {
        /// The path.
        path: RelPath,
        /// The mod.
        mod_id: ModId,
    },
    /// The override of this path goes.
    DropOverride(RelPath),
    /// The profile gets version 2, and stays as it is where it has that already.
    Upgrade,
    /// The mod gets a release, in a profile of version 2.
    Release {
        /// The mod.
        mod_id: ModId,
        /// The release.
        release: Release,
    },
}
