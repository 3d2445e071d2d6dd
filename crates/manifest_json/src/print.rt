// Manifests as JSON text.
ghost use Rattle.std.specs.Prelude.{◌≡◌, Ok, [], ◌∷◌, ◌++◌, IfOk, OnOk, codes, decimal, map};
ghost use Rattle.json.specs.Token.{Token};
ghost use Rattle.serde_json.specs.Data.{string, array};
ghost use Rattle.serde_json.specs.View.{items_of};
ghost use Rattle.manifest_json.specs.Versions.{number_of};
ghost use Rattle.manifest_json.specs.Manifests.{manifest_of};
ghost use Rattle.manifest_json.specs.Digests.{IsDigest};
ghost use Rattle.manifest_json.specs.Whole.{HaveDigests, IsManifest};
ghost use Rattle.manifest_json.specs.Texts.{row_data, member_tokens, source_tokens, manifest_data, tokens_of, text_of};

use crate::{FormatVersion, Manifest, Row};
use json::Writer;
use rel_paths::RelPath;
use std::alloc::{AllocError, Global};

// A key, and the text that stands at it.
fn write_text(writer: &mut Writer, key: &str, text: &str) -> Result<(), AllocError>
    ensures tokens { OnOk result (writer.new.tokens
        ≡ writer.old.tokens ++ Token.key key.now ∷ Token.string text.now ∷ []) }
    ensures before { writer.new.before ≡ writer.old.before }
{
    writer.key(key)?;
    writer.string(text)
}

// The source, where the version has one.
fn write_source(writer: &mut Writer, version: FormatVersion, row: &Row) -> Result<(), AllocError>
    ensures tokens { OnOk result (writer.new.tokens
        ≡ writer.old.tokens ++ source_tokens version row.now) }
    ensures before { writer.new.before ≡ writer.old.before }
{
    match version {
        FormatVersion::One => Ok(()),
        FormatVersion::Two => write_text(writer, "source", row.source.text()),
    }
}

// The members of a row that each version has.
fn write_members(alloc: Global, writer: &mut Writer, row: &Row) -> Result<(), AllocError>
    ensures tokens { OnOk result (writer.new.tokens
        ≡ writer.old.tokens ++ member_tokens row.now) }
    ensures before { writer.new.before ≡ writer.old.before }
    ensures kept { OnOk result (IsDigest row.now.digest.bytes) }
{
    write_text(writer, "digest", row.digest.text(alloc)?.as_str())?;
    write_text(writer, "mod", row.mod_id.text())?;
    write_text(writer, "path", row.path.text())?;
    writer.key("shadowed")?;
    writer.boolean(row.shadowed)
}

fn write_row(
    alloc: Global,
    writer: &mut Writer,
    version: FormatVersion,
    row: &Row,
) -> Result<(), AllocError>
    ensures tokens { OnOk result (writer.new.tokens
        ≡ writer.old.tokens ++ tokens_of (row_data version row.now)) }
    ensures before { writer.new.before ≡ writer.old.before }
    ensures kept { OnOk result (IsDigest row.now.digest.bytes) }
{
    writer.begin_object()?;
    write_members(alloc, writer, row)?;
    write_source(writer, version, row)?;
    writer.end_object()
}

fn write_rows(
    alloc: Global,
    writer: &mut Writer,
    version: FormatVersion,
    rows: &[Row],
) -> Result<(), AllocError>
    ensures tokens { OnOk result (writer.new.tokens
        ≡ writer.old.tokens ++ tokens_of (array (items_of (map (row_data version) rows.now)))) }
    ensures before { writer.new.before ≡ writer.old.before }
    ensures kept { OnOk result (HaveDigests rows.now) }
{
    writer.begin_array()?;
    for row in rows {
        write_row(alloc, writer, version, row)?;
    }
    writer.end_array()
}

fn write_folders(writer: &mut Writer, folders: &[RelPath]) -> Result<(), AllocError>
    ensures tokens { OnOk result (writer.new.tokens
        ≡ writer.old.tokens ++ tokens_of (array (items_of (map string folders.now)))) }
    ensures before { writer.new.before ≡ writer.old.before }
{
    writer.begin_array()?;
    for folder in folders {
        writer.string(folder.text())?;
    }
    writer.end_array()
}

// The key of the rows, and the rows.
fn write_files(
    alloc: Global,
    writer: &mut Writer,
    version: FormatVersion,
    rows: &[Row],
) -> Result<(), AllocError>
    ensures tokens { OnOk result (writer.new.tokens
        ≡ writer.old.tokens ++ Token.key (codes "files")
        ∷ tokens_of (array (items_of (map (row_data version) rows.now)))) }
    ensures before { writer.new.before ≡ writer.old.before }
    ensures kept { OnOk result (HaveDigests rows.now) }
{
    writer.key("files")?;
    write_rows(alloc, writer, version, rows)
}

// The key of the folders, and the folders.
fn write_own(writer: &mut Writer, folders: &[RelPath]) -> Result<(), AllocError>
    ensures tokens { OnOk result (writer.new.tokens
        ≡ writer.old.tokens ++ Token.key (codes "folders")
        ∷ tokens_of (array (items_of (map string folders.now)))) }
    ensures before { writer.new.before ≡ writer.old.before }
{
    writer.key("folders")?;
    write_folders(writer, folders)
}

// The key of the version, and its number.
fn write_version(writer: &mut Writer, version: FormatVersion) -> Result<(), AllocError>
    ensures tokens { OnOk result (writer.new.tokens
        ≡ writer.old.tokens ++ Token.key (codes "version")
        ∷ Token.number (decimal (number_of version)) ∷ []) }
    ensures before { writer.new.before ≡ writer.old.before }
{
    writer.key("version")?;
    writer.u64(version.number())
}

/// Writes the manifest as JSON, in this version of the format. After want of memory a part of it may
/// be written.
pub fn write_manifest(
    alloc: Global,
    writer: &mut Writer,
    version: FormatVersion,
    manifest: &Manifest,
) -> Result<(), AllocError>
    ensures tokens { OnOk result (writer.new.tokens
        ≡ writer.old.tokens ++ tokens_of (manifest_data version manifest.now)) }
    ensures before { writer.new.before ≡ writer.old.before }
    ensures kept { OnOk result (IsManifest manifest.now) }
{
    writer.begin_object()?;
    write_files(alloc, writer, version, manifest.rows.as_slice())?;
    write_own(writer, manifest.folders.as_slice())?;
    write_version(writer, version)?;
    writer.end_object()
}

/// The text of the manifest: compact JSON, with its keys in byte order. It reads as the manifest.
pub fn manifest_text(alloc: Global, manifest: &Manifest) -> Result<Vec<u8>, AllocError>
    ensures exact { IfOk result (λ bytes. bytes.items ≡ text_of manifest.now) }
    ensures reads_back { IfOk result (λ bytes. manifest_of bytes.items ≡ Ok manifest.now) }
{
    let mut writer = Writer::new(Vec::new(alloc));
    write_manifest(alloc, &mut writer, FormatVersion::Two, manifest)?;
    Ok(writer.into_inner())
}
