// Lines of totals.
ghost use Rattle.std.specs.Prelude.{◌≡◌, IfOk};
ghost use Rattle.std.specs.String.{string_bytes};
ghost use Rattle.answer_lines.specs.Told.{intent_word, moved_line, recovered_line, status_lines, total_lines};

use std::alloc::{AllocError, Global};

/// What a command did or found, in numbers.
#[derive(Clone, Copy, Debug, PartialEq, Eq)]
pub enum Totals {
    /// A deployment: rows of the new manifest, sets and saves of the plan.
    Deployed {
        rows: u64,
        sets: u64,
        saves: u64,
    },
    /// A settlement: changes, sets and saves of the plan.
    Settled {
        changes: u64,
        sets: u64,
        saves: u64,
    },
    /// A purge: rows of the old manifest, sets and saves of the plan.
    Purged {
        rows: u64,
        sets: u64,
        saves: u64,
    },
    /// A finished recovery: sets and clears of the intent.
    Recovered {
        sets: u64,
        clears: u64,
    },
    /// The manifest's rows and folders, and which intent stands.
    Status {
        files: u64,
        folders: u64,
        intent: IntentState,
    },
}

/// Which intent stands.
#[derive(Clone, Copy, Debug, PartialEq, Eq)]
pub enum IntentState {
    /// None: no command was stopped.
    None,
    /// One whose saves and sets may not be done.
    Set,
    /// One whose saves and sets are done, and whose clears may not be.
    Clear,
}

fn intent_word(intent: IntentState) -> &'static str
    ensures { result.now ≡ intent_word intent }
{
    match intent {
        IntentState::None => "none",
        IntentState::Set => "set",
        IntentState::Clear => "clear",
    }
}

fn moved_text(
    alloc: Global,
    word: &str,
    count: u64,
    sets: u64,
    saves: u64,
) -> Result<String, AllocError>
    ensures { IfOk result (λ text. string_bytes text ≡ moved_line word.now count sets saves) }
{
    format!(in alloc; "{word} {count}, set {sets}, saved {saves}\n")
}

fn recovered_text(alloc: Global, sets: u64, clears: u64) -> Result<String, AllocError>
    ensures { IfOk result (λ text. string_bytes text ≡ recovered_line sets clears) }
{
    format!(in alloc; "recovered, set {sets}, cleared {clears}\n")
}

fn status_text(
    alloc: Global,
    files: u64,
    folders: u64,
    intent: IntentState,
) -> Result<String, AllocError>
    ensures { IfOk result (λ text. string_bytes text ≡ status_lines files folders intent) }
{
    let intent = intent_word(intent);
    format!(in alloc; "files {files}\nfolders {folders}\nintent {intent}\n")
}

fn total_text(alloc: Global, totals: &Totals) -> Result<String, AllocError>
    ensures { IfOk result (λ text. string_bytes text ≡ total_lines totals.now) }
{
    match totals {
        Totals::Deployed { rows, sets, saves } => {
            moved_text(alloc, "deployed", *rows, *sets, *saves)
        }
        Totals::Settled {
            changes,
            sets,
            saves,
        } => moved_text(alloc, "settled", *changes, *sets, *saves),
        Totals::Purged { rows, sets, saves } => moved_text(alloc, "purged", *rows, *sets, *saves),
        Totals::Recovered { sets, clears } => recovered_text(alloc, *sets, *clears),
        Totals::Status {
            files,
            folders,
            intent,
        } => status_text(alloc, *files, *folders, *intent),
    }
}

/// The line of what was done, as `deployed 1, set 1, saved 0` or `recovered, set 1, cleared 0`; for
/// a status the three lines `files`, `folders` and `intent`, each with its value after a space.
pub fn total_lines(alloc: Global, totals: &Totals) -> Result<Vec<u8>, AllocError>
    ensures { IfOk result (λ lines. lines.items ≡ total_lines totals.now) }
{
    Ok(total_text(alloc, totals)?.into_bytes())
}
