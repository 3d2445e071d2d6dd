// Manifests read from bytes.
ghost use Rattle.std.specs.Prelude.{◌≡◌, Ok, Err, IfOk, IfErr};
ghost use Rattle.serde_json.specs.View.{view};
ghost use Rattle.manifest_json.specs.Answers.{Reads, or_fault};
ghost use Rattle.manifest_json.specs.Manifests.{json_of, manifest_in, manifest_of};

use crate::pieces::{array_at, version_of};
use crate::read_folders::read_folders;
use crate::read_rows::read_rows;
use crate::{Manifest, ManifestError, Paths, Rows, Spot};
use serde_json::Value;
use std::alloc::Global;

// The JSON value that the bytes are.
fn read_json(alloc: Global, bytes: &[u8]) -> Result<Value, ManifestError>
    ensures { Reads view (or_fault (json_of bytes.now) ManifestError.NotJson) result }
{
    match Value::from_slice(alloc, bytes) {
        Ok(value) => Ok(value),
        Err(e) => {
            if e.is_memory() {
                Err(ManifestError::Memory)
            } else {
                Err(ManifestError::NotJson)
            }
        }
    }
}

/// The manifest that a JSON value is. A value that is none gives its first fault.
pub fn manifest_from_json(alloc: Global, value: &Value) -> Result<Manifest, ManifestError>
    ensures { Reads (λ m. m) (manifest_in (view value.now)) result }
{
    if !value.is_object() {
        return Err(ManifestError::Shape(Spot::Top));
    }
    let Some(version) = version_of(value) else {
        return Err(ManifestError::Version);
    };
    let Some(files) = array_at(value, "files") else {
        return Err(ManifestError::Shape(Spot::Top));
    };
    let Some(folders) = array_at(value, "folders") else {
        return Err(ManifestError::Shape(Spot::Top));
    };
    let rows = read_rows(alloc, version, files)?;
    let folders = read_folders(alloc, folders)?;
    Ok(Manifest {
        rows: Rows::new(rows),
        folders: Paths::new(folders),
    })
}

/// The manifest that the bytes are, as JSON. Bytes that are none give their first fault.
pub fn read_manifest(alloc: Global, bytes: &[u8]) -> Result<Manifest, ManifestError>
    ensures ok { IfOk result (λ m. manifest_of bytes.now ≡ Ok m) }
    ensures err { IfErr result (λ e. (e ≡ ManifestError.Memory → ⊥) → manifest_of bytes.now ≡ Err e) }
{
    let value = read_json(alloc, bytes)?;
    manifest_from_json(alloc, &value)
}
