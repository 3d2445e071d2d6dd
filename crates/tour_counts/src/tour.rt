// The numbers of a tour.
ghost use Rattle.std.specs.Prelude.{◌≡◌, ◌++◌, IfOk, OnOk};
ghost use Rattle.std.specs.String.{string_bytes};
ghost use Rattle.tour_counts.specs.Lines.{number_line, mod_lines, conflict_lines, move_lines, tour_lines};

use std::alloc::{AllocError, Global};

/// What a tour over a disk counted: a look at the mods, a deployment, a check and a purge.
#[derive(Clone, Copy, Debug, PartialEq, Eq)]
pub struct Tour {
    /// Enabled mods.
    pub mods: u64,
    /// Files of these mods.
    pub files: u64,
    /// Provided paths, each of which has a winner.
    pub winners: u64,
    /// Contested paths that an override decided.
    pub by_override: u64,
    /// Contested paths that the rules decided.
    pub by_rule: u64,
    /// Contested paths that the place in the load order alone decided.
    pub by_position: u64,
    /// Pairs of mods that share a path, and that no rule orders.
    pub pairs: u64,
    /// Saves of the deployment.
    pub saved: u64,
    /// Folders of the manifest after the deployment.
    pub folders: u64,
    /// Changes that the check found.
    pub changes: u64,
    /// Files in the game folder after the purge.
    pub plain: u64,
}

// Adds a word, a space and a number.
fn push_number(lines: &mut String, word: &str, number: u64) -> Result<(), AllocError>
    ensures { OnOk result
        (string_bytes lines.new ≡ string_bytes lines.old ++ number_line word.now number) }
{
    write!(lines, "{word} {number}\n")
}

fn push_mods(lines: &mut String, tour: &Tour) -> Result<(), AllocError>
    ensures { OnOk result (string_bytes lines.new ≡ string_bytes lines.old ++ mod_lines tour.now) }
{
    push_number(lines, "mods", tour.mods)?;
    push_number(lines, "files", tour.files)?;
    push_number(lines, "winners", tour.winners)
}

fn push_conflicts(lines: &mut String, tour: &Tour) -> Result<(), AllocError>
    ensures { OnOk result
        (string_bytes lines.new ≡ string_bytes lines.old ++ conflict_lines tour.now) }
{
    push_number(lines, "override", tour.by_override)?;
    push_number(lines, "rule", tour.by_rule)?;
    push_number(lines, "position", tour.by_position)?;
    push_number(lines, "pairs", tour.pairs)
}

fn push_moves(lines: &mut String, tour: &Tour) -> Result<(), AllocError>
    ensures { OnOk result (string_bytes lines.new ≡ string_bytes lines.old ++ move_lines tour.now) }
{
    push_number(lines, "saved", tour.saved)?;
    push_number(lines, "folders", tour.folders)?;
    push_number(lines, "changes", tour.changes)?;
    push_number(lines, "plain", tour.plain)
}

/// The lines of a tour, one for each number: `mods`, `files`, `winners`, `override`, `rule`,
/// `position`, `pairs`, `saved`, `folders`, `changes` and `plain`, each with its number after a space.
pub fn tour_lines(alloc: Global, tour: &Tour) -> Result<Vec<u8>, AllocError>
    ensures { IfOk result (λ lines. lines.items ≡ tour_lines tour.now) }
{
    let mut lines = String::new(alloc);
    push_mods(&mut lines, tour)?;
    push_conflicts(&mut lines, tour)?;
    push_moves(&mut lines, tour)?;
    Ok(lines.into_bytes())
}
