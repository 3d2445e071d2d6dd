// Why a command was refused.
ghost use Rattle.std.specs.Prelude.{◌≡◌};
ghost use Rattle.answer_lines.specs.Refusals.{row_of};

use crate::Ids;
use manifest_json::Spot;
use rel_paths::{ModId, RelPath, Text};
use tree_fs::{Name, Place};

/// Why a command was refused, by group. A refusal carries what its line names, in that order.
#[derive(Drop)]
pub enum Refusal {
    Profile(ProfileRefusal),
    Edit(EditRefusal),
    Rules(RuleRefusal),
    Scan(ScanRefusal),
    Manifest(ManifestRefusal),
    Plan(PlanRefusal),
    Recovery(RecoveryRefusal),
    Input(InputRefusal),
    Early(EarlyRefusal),
    Named(NamedRefusal),
    Foreign(ForeignRefusal),
}

/// Refusals of the profile that stands on the disk.
#[derive(Drop)]
pub enum ProfileRefusal {
    /// The bytes are no TOML document.
    ProfileNotToml,
    /// A value lies more than 64 levels deep.
    ProfileDeep,
    /// A value is a float, or a date that isn't printed.
    ProfileFloat,
    /// `version` is missing, or is neither 1 nor 2.
    ProfileVersion,
    /// At this key path a value is missing or of the wrong kind.
    ProfileShape(Text),
    /// This id of a mod stands twice.
    SameMod(ModId),
    /// The path of two overrides.
    SameOverride(RelPath),
    /// This text is no id, no user path, or no base of a type.
    BadPath(Text),
    /// This text is no kind of rule.
    BadKind(Text),
    /// The profile, or what an edit makes of it, has so many mods, which is above the limit.
    TooManyMods(u64),
    /// The file at this place has more bytes than the limit.
    TooLong(Place),
    /// This text is no release.
    BadRelease(Text),
    /// This text is no range of releases.
    BadRange(Text),
    /// This id of a type stands twice.
    SameType(ModId),
    /// This text is the type of a mod, and the id of no type.
    NoType(Text),
}

/// Refusals of an edit of the profile.
#[derive(Drop)]
pub enum EditRefusal {
    /// The profile has no such mod.
    NoMod(ModId),
    /// The mod has a rule of this kind and reference.
    SameRule,
    /// The mod has no rule of this kind and reference.
    NoRule,
    /// The path has no override.
    NoOverride(RelPath),
    /// At this key path a value stands that version 2 would read.
    KeyTaken(Text),
    /// A profile of version 1 has no releases.
    OldProfile,
}

/// Refusals of the rules and of the order that they ask for.
#[derive(Drop)]
pub enum RuleRefusal {
    /// The mod requires one that isn't enabled, or isn't in the release that is asked for.
    Missing { mod_id: ModId, needs: ModId },
    /// The mod conflicts with another that is enabled.
    Conflict { mod_id: ModId, other: ModId },
    /// No order keeps the rules: each of these mods comes before the next, and the last one before
    /// the first.
    Cycle(Ids),
}

/// Refusals of what the mods have.
#[derive(Drop)]
pub enum ScanRefusal {
    /// `stage/<id>` is no folder.
    NoFolder(ModId),
    /// An entry of a mod is neither a file nor a folder.
    OddEntry { folder: Place, name: Name },
    /// An entry's path below its mod is no user path.
    BadEntry { folder: Place, name: Name },
    /// A file or folder of a mod has a reserved path.
    Reserved(Place),
    /// All enabled mods together have more files and folders than this, the limit.
    TooManyEntries(u32),
    /// A winning path would be a file and a folder.
    FileAndFolder(RelPath),
    /// The path of a mod's file is too long below the base of the mod's type.
    TargetLong { mod_id: ModId, path: RelPath },
    /// A file of a mod has the folded path of an earlier one.
    TwoSpellings { mod_id: ModId, path: RelPath },
    /// The folded path of a mod's file is reserved.
    FoldReserved { mod_id: ModId, path: RelPath },
}

/// Refusals of the manifest that stands on the disk.
#[derive(Drop)]
pub enum ManifestRefusal {
    /// The bytes are no JSON.
    ManifestNotJson,
    /// `version` is missing, or is neither 1 nor 2.
    ManifestVersion,
    /// A value is missing or of the wrong kind.
    ManifestShape(Spot),
    /// A text is no mod's id, or no user path, or a reserved path.
    ManifestBadPath(Spot),
    /// The path isn't above that of the one in front.
    ManifestOrder(Spot),
    /// The path extends that of an earlier file.
    ManifestNested(Spot),
    /// The source meets that of an earlier file of the same mod.
    ManifestSource(Spot),
}

/// Refusals of what stands in the way of a plan.
#[derive(Drop)]
pub enum PlanRefusal {
    /// Others changed so many deployed files, this path's first.
    ChangesFound { path: RelPath, count: u64 },
    /// A path turned from a file into a folder, or back.
    Turned(RelPath),
    /// Something stands at this place, and what the command needs there can't be.
    Blocked(Place),
    /// Something stands where the original of this path is to be kept.
    BackupTaken(RelPath),
    /// All numbers for what is set aside are used.
    AsideFull,
    /// The text of the intent would have so many bytes, which is above the limit.
    PlanTooLong(u64),
}

/// Refusals of a recovery.
#[derive(Drop)]
pub enum RecoveryRefusal {
    /// The bytes of the intent are none that the program writes.
    BadIntent,
    /// The file that a step moves isn't there.
    SourceGone(Place),
    /// The command has done its work, and can't be taken back.
    CannotBack,
}

/// Refusals of lines that are read. Lines are counted from 1.
#[derive(Drop)]
pub enum InputRefusal {
    /// This line has more than 4,096 bytes.
    LineTooLong(u32),
    /// There are more than 10,000 lines.
    TooManyLines,
    /// This line isn't UTF-8.
    BadLine(u32),
    /// This line is no answer about a change.
    BadAnswer(u32),
}

/// Refusals of what can't be deployed yet.
#[derive(Drop)]
pub enum EarlyRefusal {
    /// Something stands at this path in `game`.
    Taken(RelPath),
    /// A folder lies inside a mod.
    Folder(Place),
    /// A control place isn't absent.
    NotBuilt,
}

/// Refusals of named profiles.
#[derive(Drop)]
pub enum NamedRefusal {
    /// No profile is kept under this name.
    NoName(ModId),
    /// Something is kept under this name.
    NameTaken(ModId),
    /// There is no profile to be kept.
    NoProfile,
}

/// Refusals of another manager's list of files.
#[derive(Drop)]
pub enum ForeignRefusal {
    /// The list has more bytes than the limit.
    ForeignLong,
    /// The bytes are no JSON.
    ForeignNotJson,
    /// A value is missing or of the wrong kind.
    ForeignShape(Spot),
}

impl Refusal {
    /// The number that is printed, 1 to 62.
    pub fn number(&self) -> u8
        ensures { result ≡ (row_of self.now).number }
    {
        self.row().number
    }
}
