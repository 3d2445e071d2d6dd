// Rows and manifests.
ghost use Rattle.std.specs.Prelude.{◌≡◌, ◌↔◌, [], IsTrue, IfOk};
ghost use Rattle.manifest_json.specs.Sound.{AreRows, AreFolders};

use crate::FileDigest;
use rel_paths::{ModId, RelPath};
use std::alloc::{AllocError, Global};
use std::marker::Model;

/// A file that was deployed: its path in the game folder, the mod whose file it is, the digest of
/// its bytes, whether the game had a file of its own there, and the path of the file below the
/// folder of its mod.
#[derive(Drop)]
pub struct Row {
    pub path: RelPath,
    pub mod_id: ModId,
    pub digest: FileDigest,
    pub shadowed: bool,
    pub source: RelPath,
}

impl Row {
    /// An equal row.
    pub fn copy(&self) -> Result<Row, AllocError>
        ensures { IfOk result (λ row. row ≡ self.now) }
    {
        self.with_digest(self.digest)
    }

    /// The row with this digest.
    pub fn with_digest(&self, digest: FileDigest) -> Result<Row, AllocError>
        ensures { IfOk result (λ row. row ≡ record self.now { digest = digest }) }
    {
        Ok(Row {
            path: self.path.copy()?,
            mod_id: self.mod_id.copy()?,
            digest,
            shadowed: self.shadowed,
            source: self.source.copy()?,
        })
    }

    /// The path of the file below the folder of its mod.
    pub fn source(&self) -> Result<RelPath, AllocError>
        ensures { IfOk result (λ path. path ≡ self.now.source) }
    {
        self.source.copy()
    }
}

/// The rows of a manifest, in the order of their paths. No path of a row extends that of another,
/// and of two rows of one mod neither source is the other or extends it. No path and no source is
/// reserved. A contract sees them as a list.
#[derive(Drop)]
pub struct Rows {
    items: Vec<Row>,
}

impl Model for Rows {
    ghost use Rattle.std.specs.Prelude.{List};
    ghost use Rattle.manifest_json.specs.Sound.{AreRows};
    ghost use Rattle.manifest_json.specs.declared.manifest.Row.{Row};

    ghost Value = { List Row };

    ghost view = { λ a. a.items.items };

    ghost invariant = { λ a. AreRows a.items.items };
}

impl Rows {
    /// These rows.
    pub fn new(items: Vec<Row>) -> Rows
        requires { AreRows items.items }
        ensures { result ≡ items.items }
    {
        Rows { items }
    }

    /// The rows, in the order of their paths.
    pub fn as_slice(&self) -> &[Row]
        ensures same { result.now ≡ self.now }
        ensures kept { AreRows self.now }
    {
        self.items.as_slice()
    }
}

/// Paths in their order, of which none is reserved. A contract sees them as a list of their texts.
#[derive(Drop)]
pub struct Paths {
    items: Vec<RelPath>,
}

impl Model for Paths {
    ghost use Rattle.std.specs.Prelude.{List, ℕ};
    ghost use Rattle.manifest_json.specs.Sound.{AreFolders};

    ghost Value = { List (List ℕ) };

    ghost view = { λ a. a.items.items };

    ghost invariant = { λ a. AreFolders a.items.items };
}

impl Paths {
    /// These paths.
    pub fn new(items: Vec<RelPath>) -> Paths
        requires { AreFolders items.items }
        ensures { result ≡ items.items }
    {
        Paths { items }
    }

    /// The paths, in their order.
    pub fn as_slice(&self) -> &[RelPath]
        ensures same { result.now ≡ self.now }
        ensures kept { AreFolders self.now }
    {
        self.items.as_slice()
    }
}

/// A manifest: what is deployed, and the folders that were made for it.
#[derive(Drop)]
pub struct Manifest {
    pub rows: Rows,
    pub folders: Paths,
}

impl Manifest {
    /// The manifest without rows and folders.
    pub fn empty(alloc: Global) -> Manifest
        ensures { result ≡ record { rows = []; folders = [] } }
    {
        Manifest {
            rows: Rows::new(Vec::new(alloc)),
            folders: Paths::new(Vec::new(alloc)),
        }
    }

    /// An equal manifest.
    pub fn copy(&self, alloc: Global) -> Result<Manifest, AllocError>
        ensures { IfOk result (λ manifest. manifest ≡ self.now) }
    {
        let rows = copy_rows(alloc, self.rows.as_slice())?;
        let folders = copy_paths(alloc, self.folders.as_slice())?;
        Ok(Manifest {
            rows: Rows::new(rows),
            folders: Paths::new(folders),
        })
    }

    /// Whether the other has the same rows and folders.
    pub fn is_same(&self, other: &Manifest) -> bool
        ensures { IsTrue result ↔ (self.now ≡ other.now) }
    {
        same_rows(self.rows.as_slice(), other.rows.as_slice())
            && same_paths(self.folders.as_slice(), other.folders.as_slice())
    }
}

fn same_row(row: &Row, other: &Row) -> bool
    ensures { IsTrue result ↔ (row.now ≡ other.now) }
{
    row.path.text() == other.path.text()
        && row.mod_id.text() == other.mod_id.text()
        && row.digest == other.digest
        && row.shadowed == other.shadowed
        && row.source.text() == other.source.text()
}

fn same_rows(rows: &[Row], others: &[Row]) -> bool
    ensures { IsTrue result ↔ (rows.now ≡ others.now) }
{
    if rows.len() != others.len() {
        return false;
    }
    for i in 0..rows.len() {
        if !same_row(&rows[i], &others[i]) {
            return false;
        }
    }
    true
}

fn same_paths(paths: &[RelPath], others: &[RelPath]) -> bool
    ensures { IsTrue result ↔ (paths.now ≡ others.now) }
{
    paths == others
}

fn copy_rows(alloc: Global, rows: &[Row]) -> Result<Vec<Row>, AllocError>
    ensures { IfOk result (λ copies. copies.items ≡ rows.now) }
{
    let mut copies = Vec::with_capacity(alloc, rows.len())?;
    for row in rows {
        copies.push(row.copy()?)?;
    }
    Ok(copies)
}

fn copy_paths(alloc: Global, paths: &[RelPath]) -> Result<Vec<RelPath>, AllocError>
    ensures { IfOk result (λ copies. copies.items ≡ paths.now) }
{
    let mut copies = Vec::with_capacity(alloc, paths.len())?;
    for path in paths {
        copies.push(path.copy()?)?;
    }
    Ok(copies)
}
