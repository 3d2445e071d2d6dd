// Rows read from a JSON value.
ghost use Rattle.std.specs.Prelude.{◌≡◌, true, false, ◌++◌, ◌∷◌, [], Ok, Err, IfOk, IfErr, OnOk, length, map, reverse, unwrap_or};
ghost use Rattle.serde_json.specs.View.{view};
ghost use Rattle.manifest_json.specs.Answers.{Reads, checked};
ghost use Rattle.manifest_json.specs.Paths.{is_mod_id, is_free_path, is_above};
ghost use Rattle.manifest_json.specs.Stack.{IsStacked};
ghost use Rattle.manifest_json.specs.Records.{paths_of};
ghost use Rattle.manifest_json.specs.Rows.{path_in, id_in, source_in, row_alone, row_behind, rows_from};
ghost use Rattle.manifest_json.specs.Sources.{is_met, HasAdded};
ghost use Rattle.manifest_json.specs.Sound.{IsRow, AreRows};

use crate::nesting::{close, extends_last};
use crate::pieces::{digest_at, flag_at, text_at};
use crate::sources::Sources;
use crate::{FormatVersion, ManifestError, Row, Spot};
use rel_paths::{ModId, PathError, RelPath};
use serde_json::Value;
use std::alloc::{AllocError, Global};

// The mod's id with this text.
fn read_id(alloc: Global, spot: Spot, text: &str) -> Result<ModId, ManifestError>
    ensures { Reads (λ id. id) (checked (is_mod_id text.now) (ManifestError.BadPath spot) text.now) result }
{
    match ModId::parse(alloc, text) {
        Ok(id) => Ok(id),
        Err(PathError::Memory) => Err(ManifestError::Memory),
        Err(_) => Err(ManifestError::BadPath(spot)),
    }
}

// The user path with this text, which isn't reserved.
pub(crate) fn read_path(alloc: Global, spot: Spot, text: &str) -> Result<RelPath, ManifestError>
    ensures { Reads (λ path. path) (checked (is_free_path text.now) (ManifestError.BadPath spot) text.now) result }
{
    match RelPath::parse(alloc, text) {
        Ok(path) => {
            if path.is_reserved() {
                return Err(ManifestError::BadPath(spot));
            }
            Ok(path)
        }
        Err(PathError::Memory) => Err(ManifestError::Memory),
        Err(_) => Err(ManifestError::BadPath(spot)),
    }
}

// The row that a value is, as file i.
fn read_row(
    alloc: Global,
    version: FormatVersion,
    i: u64,
    value: &Value,
) -> Result<Row, ManifestError>
    ensures reads { Reads (λ row. row) (row_alone version i (view value.now)) result }
    ensures kept { IfOk result IsRow }
{
    let spot = Spot::File(i);
    let Some(digest) = digest_at(value, "digest") else {
        return Err(ManifestError::Shape(spot));
    };
    let Some(id_text) = text_at(value, "mod") else {
        return Err(ManifestError::Shape(spot));
    };
    let Some(path_text) = text_at(value, "path") else {
        return Err(ManifestError::Shape(spot));
    };
    let Some(shadowed) = flag_at(value, "shadowed") else {
        return Err(ManifestError::Shape(spot));
    };
    let Some(source_text) = text_at(value, version.source_key()) else {
        return Err(ManifestError::Shape(spot));
    };
    let mod_id = read_id(alloc, spot, id_text)?;
    let path = read_path(alloc, spot, path_text)?;
    let source = read_path(alloc, spot, source_text)?;
    Ok(Row {
        path,
        mod_id,
        digest,
        shadowed,
        source,
    })
}

// The text of a row's path.
fn path_in(value: &Value) -> &str
    ensures { result.now ≡ path_in (view value.now) }
{
    text_at(value, "path").unwrap_or("")
}

// The text of the id of a row's mod.
fn id_in(value: &Value) -> &[u8]
    ensures { result.now ≡ id_in (view value.now) }
{
    text_at(value, "mod").unwrap_or("").as_bytes()
}

// The text of a row's source.
fn source_in(version: FormatVersion, value: &Value) -> &[u8]
    ensures { result.now ≡ source_in version (view value.now) }
{
    text_at(value, version.source_key())
        .unwrap_or("")
        .as_bytes()
}

// Whether the path is above that of the last row.
fn is_above(rows: &[Row], path: &RelPath) -> bool
    ensures { result ≡ is_above (paths_of (reverse rows.now)) path.now }
{
    match rows.last() {
        None => true,
        Some(last) => last.path < *path,
    }
}

fn push_row<'a>(
    rows: &mut Vec<Row>,
    stack: &mut Vec<&'a str>,
    row: Row,
    path: &'a str,
) -> Result<(), AllocError>
    ensures rows { OnOk result (rows.new.items ≡ rows.old.items ++ row ∷ []) }
    ensures stack { OnOk result (map (λ t. t.now) stack.new.items ≡ map (λ t. t.now) stack.old.items ++ path.now ∷ []) }
{
    stack.push(path)?;
    rows.push(row)?;
    Ok(())
}

// Adds a row, whose path has this text, behind the others.
fn add_row<'a>(
    rows: &mut Vec<Row>,
    stack: &mut Vec<&'a str>,
    row: Row,
    path: &'a str,
) -> Result<(), ManifestError>
    requires same { path.now ≡ row.path }
    requires stacked { IsStacked rows.old.items (map (λ t. t.now) stack.old.items) }
    ensures behind { OnOk result (row_behind (reverse rows.old.items) (length rows.old.items) row ≡ Ok row) }
    ensures added { OnOk result (rows.new.items ≡ rows.old.items ++ row ∷ []) }
    ensures stacked { OnOk result (IsStacked rows.new.items (map (λ t. t.now) stack.new.items)) }
    ensures err { IfErr result (λ e. (e ≡ ManifestError.Memory → ⊥) → row_behind (reverse rows.old.items) (length rows.old.items) row ≡ Err e) }
{
    let spot = Spot::File(rows.len() as u64);
    if !is_above(rows, &row.path) {
        return Err(ManifestError::Order(spot));
    }
    close(stack, path);
    if extends_last(stack, path) {
        return Err(ManifestError::Nested(spot));
    }
    push_row(rows, stack, row, path)?;
    Ok(())
}

// Adds a row's source beside those of other rows.
fn add_source<'a>(
    sources: &mut Sources<'a>,
    i: u64,
    id: &'a [u8],
    source: &'a [u8],
) -> Result<(), ManifestError>
    ensures apart { OnOk result (is_met sources.old id.now source.now ≡ false) }
    ensures added { OnOk result (HasAdded id.now source.now sources.old sources.new) }
    ensures err { IfErr result (λ e. (e ≡ ManifestError.Memory → ⊥)
        → (is_met sources.old id.now source.now ≡ true) × (e ≡ ManifestError.Source (Spot.File i))) }
{
    if sources.is_met(id, source) {
        return Err(ManifestError::Source(Spot::File(i)));
    }
    sources.add(id, source)?;
    Ok(())
}

// The rows that these values are.
pub(crate) fn read_rows(
    alloc: Global,
    version: FormatVersion,
    items: &[Value],
) -> Result<Vec<Row>, ManifestError>
    ensures reads { Reads (λ rows. rows.items) (rows_from version [] 0 (map view items.now)) result }
    ensures kept { IfOk result (λ rows. AreRows rows.items) }
{
    let mut rows = Vec::with_capacity(alloc, items.len())?;
    let mut stack = Vec::new(alloc);
    let mut sources = Sources::new(alloc);
    for item in items {
        let i = rows.len() as u64;
        let row = read_row(alloc, version, i, item)?;
        add_row(&mut rows, &mut stack, row, path_in(item))?;
        add_source(&mut sources, i, id_in(item), source_in(version, item))?;
    }
    Ok(rows)
}
