// The lines that a plan is printed as.
ghost use Rattle.std.specs.Prelude.{◌≡◌, ◌++◌, IfOk, OnOk};
ghost use Rattle.std.specs.List.{flat_map};
ghost use Rattle.std.specs.String.{string_bytes};
ghost use Rattle.tree_fs.specs.Texts.{place_text};
ghost use Rattle.move_plan.specs.Lines.{place_line, save_line, source_text, set_line, row_count, files_line, lines_of};

use crate::{Plan, SetRow};
use manifest_json::Manifest;
use std::alloc::{AllocError, Global};
use tree_fs::Place;

/// The lines of a plan: `folder` and a place; `save`, a source and a destination; `set`, a
/// destination and its source, or `-` for none; `clear` and a place; `remove` and a folder, with
/// tabs between; last `files` and the number of rows of the new manifest.
pub fn plan_lines(alloc: Global, plan: &Plan) -> Result<Vec<u8>, AllocError>
    ensures { IfOk result (λ lines. lines.items ≡ lines_of plan.now) }
{
    let mut lines = String::new(alloc);
    push_places(&mut lines, "folder", plan.folders.as_slice())?;
    push_saves(&mut lines, plan.saves.as_slice())?;
    push_sets(&mut lines, plan.sets.as_slice())?;
    push_places(&mut lines, "clear", plan.clears.as_slice())?;
    push_places(&mut lines, "remove", plan.folders_off.as_slice())?;
    let count = row_count(&plan.manifest);
    let files = format!(in alloc; "files {count}\n")?;
    lines.push_str(&files)?;
    Ok(lines.into_bytes())
}

fn row_count(manifest: &Option<Manifest>) -> usize
    ensures { result ≡ row_count manifest.now }
{
    match manifest {
        None => 0,
        Some(manifest) => manifest.rows.as_slice().len(),
    }
}

fn push_places(lines: &mut String, word: &str, places: &[Place]) -> Result<(), AllocError>
    ensures { OnOk result (string_bytes lines.new ≡ string_bytes lines.old ++ flat_map (place_line word.now) places.now) }
{
    for place in places {
        push_place_line(lines, word, place)?;
    }
    Ok(())
}

fn push_saves(lines: &mut String, saves: &[(Place, Place)]) -> Result<(), AllocError>
    ensures { OnOk result (string_bytes lines.new ≡ string_bytes lines.old ++ flat_map save_line saves.now) }
{
    for save in saves {
        push_save_line(lines, save)?;
    }
    Ok(())
}

fn push_sets(lines: &mut String, sets: &[SetRow]) -> Result<(), AllocError>
    ensures { OnOk result (string_bytes lines.new ≡ string_bytes lines.old ++ flat_map set_line sets.now) }
{
    for row in sets {
        push_set_line(lines, row)?;
    }
    Ok(())
}

fn push_place_line(lines: &mut String, word: &str, place: &Place) -> Result<(), AllocError>
    ensures { OnOk result (string_bytes lines.new ≡ string_bytes lines.old ++ place_line word.now place.now) }
{
    lines.push_str(word)?;
    lines.push_str("\t")?;
    push_place(lines, place)?;
    lines.push_str("\n")
}

fn push_save_line(lines: &mut String, save: &(Place, Place)) -> Result<(), AllocError>
    ensures { OnOk result (string_bytes lines.new ≡ string_bytes lines.old ++ save_line save.now) }
{
    lines.push_str("save\t")?;
    push_place(lines, &save.0)?;
    lines.push_str("\t")?;
    push_place(lines, &save.1)?;
    lines.push_str("\n")
}

fn push_set_line(lines: &mut String, row: &SetRow) -> Result<(), AllocError>
    ensures { OnOk result (string_bytes lines.new ≡ string_bytes lines.old ++ set_line row.now) }
{
    lines.push_str("set\t")?;
    push_place(lines, &row.to)?;
    lines.push_str("\t")?;
    push_source(lines, &row.from)?;
    lines.push_str("\n")
}

fn push_source(lines: &mut String, from: &Option<Place>) -> Result<(), AllocError>
    ensures { OnOk result (string_bytes lines.new ≡ string_bytes lines.old ++ source_text from.now) }
{
    match from {
        None => lines.push_str("-"),
        Some(place) => push_place(lines, place),
    }
}

fn push_place(lines: &mut String, place: &Place) -> Result<(), AllocError>
    ensures { OnOk result (string_bytes lines.new ≡ string_bytes lines.old ++ place_text place.now) }
{
    lines.push_str(place.root.word())?;
    if let Some(path) = &place.rel {
        lines.push_str("/")?;
        lines.push_str(path.text())?;
    }
    Ok(())
}
