// The table of refusals.
ghost use Rattle.std.specs.Prelude.{◌≡◌};
ghost use Rattle.answer_lines.specs.Refusals.{refusal as refusal_row, row_of, profile_row, edit_row, rule_row, scan_row};
ghost use Rattle.answer_lines.specs.Refusals.{manifest_row, plan_row, recovery_row, input_row, early_row, named_row};
ghost use Rattle.answer_lines.specs.Refusals.{foreign_row};
ghost use Rattle.answer_lines.specs.Shown.{texts_of, row_shown};

use crate::{
    EarlyRefusal, EditRefusal, ForeignRefusal, InputRefusal, ManifestRefusal, NamedRefusal,
    PlanRefusal, ProfileRefusal, RecoveryRefusal, Refusal, RuleRefusal, ScanRefusal,
};
use manifest_json::Spot;
use rel_paths::ModId;
use tree_fs::Place;

/// What a refusal carries.
#[derive(Clone, Copy)]
pub(crate) enum Carried<'a> {
    Nothing,
    Text(&'a str),
    Texts(&'a str, &'a str),
    Ids(&'a [ModId]),
    Place(&'a Place),
    Entry(&'a Place, &'a str),
    Number(u64),
    Counted(&'a str, u64),
    Spot(Spot),
}

/// A row of the table of refusals, as it is read off a refusal.
#[derive(Clone, Copy)]
pub(crate) struct RowView<'a> {
    pub number: u8,
    pub name: &'static str,
    pub carried: Carried<'a>,
}

fn row<'a>(number: u8, name: &'static str, carried: Carried<'a>) -> RowView<'a>
    ensures { row_shown result ≡ refusal_row number name.now (texts_of carried.entry) }
{
    RowView {
        number,
        name,
        carried,
    }
}

impl Refusal {
    /// The refusal's row.
    pub(crate) fn row(&self) -> RowView<'_>
        ensures { row_shown result ≡ row_of self.now }
    {
        match self {
            Refusal::Profile(refusal) => refusal.row(),
            Refusal::Edit(refusal) => refusal.row(),
            Refusal::Rules(refusal) => refusal.row(),
            Refusal::Scan(refusal) => refusal.row(),
            Refusal::Manifest(refusal) => refusal.row(),
            Refusal::Plan(refusal) => refusal.row(),
            Refusal::Recovery(refusal) => refusal.row(),
            Refusal::Input(refusal) => refusal.row(),
            Refusal::Early(refusal) => refusal.row(),
            Refusal::Named(refusal) => refusal.row(),
            Refusal::Foreign(refusal) => refusal.row(),
        }
    }
}

impl ProfileRefusal {
    fn row(&self) -> RowView<'_>
        ensures { row_shown result ≡ profile_row self.now }
    {
        match self {
            ProfileRefusal::ProfileNotToml => row(1, "ProfileNotToml", Carried::Nothing),
            ProfileRefusal::ProfileDeep => row(2, "ProfileDeep", Carried::Nothing),
            ProfileRefusal::ProfileFloat => row(3, "ProfileFloat", Carried::Nothing),
            ProfileRefusal::ProfileVersion => row(4, "ProfileVersion", Carried::Nothing),
            ProfileRefusal::ProfileShape(key) => {
                row(5, "ProfileShape", Carried::Text(key.as_str()))
            }
            ProfileRefusal::SameMod(id) => row(6, "SameMod", Carried::Text(id.text())),
            ProfileRefusal::SameOverride(path) => {
                row(7, "SameOverride", Carried::Text(path.text()))
            }
            ProfileRefusal::BadPath(text) => row(8, "BadPath", Carried::Text(text.as_str())),
            ProfileRefusal::BadKind(text) => row(9, "BadKind", Carried::Text(text.as_str())),
            ProfileRefusal::TooManyMods(count) => row(10, "TooManyMods", Carried::Number(*count)),
            ProfileRefusal::TooLong(place) => row(11, "TooLong", Carried::Place(place)),
            ProfileRefusal::BadRelease(text) => row(46, "BadRelease", Carried::Text(text.as_str())),
            ProfileRefusal::BadRange(text) => row(47, "BadRange", Carried::Text(text.as_str())),
            ProfileRefusal::SameType(id) => row(50, "SameType", Carried::Text(id.text())),
            ProfileRefusal::NoType(text) => row(51, "NoType", Carried::Text(text.as_str())),
        }
    }
}

impl EditRefusal {
    fn row(&self) -> RowView<'_>
        ensures { row_shown result ≡ edit_row self.now }
    {
        match self {
            EditRefusal::NoMod(id) => row(12, "NoMod", Carried::Text(id.text())),
            EditRefusal::SameRule => row(13, "SameRule", Carried::Nothing),
            EditRefusal::NoRule => row(14, "NoRule", Carried::Nothing),
            EditRefusal::NoOverride(path) => row(15, "NoOverride", Carried::Text(path.text())),
            EditRefusal::KeyTaken(key) => row(48, "KeyTaken", Carried::Text(key.as_str())),
            EditRefusal::OldProfile => row(49, "OldProfile", Carried::Nothing),
        }
    }
}

impl RuleRefusal {
    fn row(&self) -> RowView<'_>
        ensures { row_shown result ≡ rule_row self.now }
    {
        match self {
            RuleRefusal::Missing { mod_id, needs } => {
                row(16, "Missing", Carried::Texts(mod_id.text(), needs.text()))
            }
            RuleRefusal::Conflict { mod_id, other } => {
                row(17, "Conflict", Carried::Texts(mod_id.text(), other.text()))
            }
            RuleRefusal::Cycle(ids) => row(18, "Cycle", Carried::Ids(ids.as_slice())),
        }
    }
}

impl ScanRefusal {
    fn row(&self) -> RowView<'_>
        ensures { row_shown result ≡ scan_row self.now }
    {
        match self {
            ScanRefusal::NoFolder(id) => row(19, "NoFolder", Carried::Text(id.text())),
            ScanRefusal::OddEntry { folder, name } => {
                row(20, "OddEntry", Carried::Entry(folder, name.text()))
            }
            ScanRefusal::BadEntry { folder, name } => {
                row(21, "BadEntry", Carried::Entry(folder, name.text()))
            }
            ScanRefusal::Reserved(place) => row(22, "Reserved", Carried::Place(place)),
            ScanRefusal::TooManyEntries(limit) => {
                row(23, "TooManyEntries", Carried::Number(*limit as u64))
            }
            ScanRefusal::FileAndFolder(path) => {
                row(24, "FileAndFolder", Carried::Text(path.text()))
            }
            ScanRefusal::TargetLong { mod_id, path } => {
                row(52, "TargetLong", Carried::Texts(mod_id.text(), path.text()))
            }
            ScanRefusal::TwoSpellings { mod_id, path } => {
                row(
                    55,
                    "TwoSpellings",
                    Carried::Texts(mod_id.text(), path.text()),
                )
            }
            ScanRefusal::FoldReserved { mod_id, path } => {
                row(
                    56,
                    "FoldReserved",
                    Carried::Texts(mod_id.text(), path.text()),
                )
            }
        }
    }
}

impl ManifestRefusal {
    fn row(&self) -> RowView<'_>
        ensures { row_shown result ≡ manifest_row self.now }
    {
        match self {
            ManifestRefusal::ManifestNotJson => row(25, "ManifestNotJson", Carried::Nothing),
            ManifestRefusal::ManifestVersion => row(26, "ManifestVersion", Carried::Nothing),
            ManifestRefusal::ManifestShape(spot) => row(27, "ManifestShape", Carried::Spot(*spot)),
            ManifestRefusal::ManifestBadPath(spot) => {
                row(28, "ManifestBadPath", Carried::Spot(*spot))
            }
            ManifestRefusal::ManifestOrder(spot) => row(29, "ManifestOrder", Carried::Spot(*spot)),
            ManifestRefusal::ManifestNested(spot) => {
                row(30, "ManifestNested", Carried::Spot(*spot))
            }
            ManifestRefusal::ManifestSource(spot) => {
                row(53, "ManifestSource", Carried::Spot(*spot))
            }
        }
    }
}

impl PlanRefusal {
    fn row(&self) -> RowView<'_>
        ensures { row_shown result ≡ plan_row self.now }
    {
        match self {
            PlanRefusal::ChangesFound { path, count } => {
                row(31, "ChangesFound", Carried::Counted(path.text(), *count))
            }
            PlanRefusal::Turned(path) => row(32, "Turned", Carried::Text(path.text())),
            PlanRefusal::Blocked(place) => row(33, "Blocked", Carried::Place(place)),
            PlanRefusal::BackupTaken(path) => row(34, "BackupTaken", Carried::Text(path.text())),
            PlanRefusal::AsideFull => row(35, "AsideFull", Carried::Nothing),
            PlanRefusal::PlanTooLong(length) => row(36, "PlanTooLong", Carried::Number(*length)),
        }
    }
}

impl RecoveryRefusal {
    fn row(&self) -> RowView<'_>
        ensures { row_shown result ≡ recovery_row self.now }
    {
        match self {
            RecoveryRefusal::BadIntent => row(37, "BadIntent", Carried::Nothing),
            RecoveryRefusal::SourceGone(place) => row(38, "SourceGone", Carried::Place(place)),
            RecoveryRefusal::CannotBack => row(54, "CannotBack", Carried::Nothing),
        }
    }
}

impl InputRefusal {
    fn row(&self) -> RowView<'_>
        ensures { row_shown result ≡ input_row self.now }
    {
        match self {
            InputRefusal::LineTooLong(line) => {
                row(39, "LineTooLong", Carried::Number(*line as u64))
            }
            InputRefusal::TooManyLines => row(40, "TooManyLines", Carried::Nothing),
            InputRefusal::BadLine(line) => row(41, "BadLine", Carried::Number(*line as u64)),
            InputRefusal::BadAnswer(line) => row(42, "BadAnswer", Carried::Number(*line as u64)),
        }
    }
}

impl EarlyRefusal {
    fn row(&self) -> RowView<'_>
        ensures { row_shown result ≡ early_row self.now }
    {
        match self {
            EarlyRefusal::Taken(path) => row(43, "Taken", Carried::Text(path.text())),
            EarlyRefusal::Folder(place) => row(44, "Folder", Carried::Place(place)),
            EarlyRefusal::NotBuilt => row(45, "NotBuilt", Carried::Nothing),
        }
    }
}

impl NamedRefusal {
    fn row(&self) -> RowView<'_>
        ensures { row_shown result ≡ named_row self.now }
    {
        match self {
            NamedRefusal::NoName(id) => row(57, "NoName", Carried::Text(id.text())),
            NamedRefusal::NameTaken(id) => row(58, "NameTaken", Carried::Text(id.text())),
            NamedRefusal::NoProfile => row(59, "NoProfile", Carried::Nothing),
        }
    }
}

impl ForeignRefusal {
    fn row(&self) -> RowView<'_>
        ensures { row_shown result ≡ foreign_row self.now }
    {
        match self {
            ForeignRefusal::ForeignLong => row(60, "ForeignLong", Carried::Nothing),
            ForeignRefusal::ForeignNotJson => row(61, "ForeignNotJson", Carried::Nothing),
            ForeignRefusal::ForeignShape(spot) => row(62, "ForeignShape", Carried::Spot(*spot)),
        }
    }
}
