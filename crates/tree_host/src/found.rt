// What a look at a place tells.
ghost use Rattle.std.specs.Prelude.{◌≡◌, ◌≢◌, ◌↔◌, IsTrue, IfOk, IfErr, IsOkAnd};
ghost use Rattle.std.specs.Bool.{MatchBool};
ghost use Rattle.std.specs.Fs.{file_type, metadata_len, IsDir, IsFile};
ghost use Rattle.std.specs.IoError.{error_kind};
ghost use Rattle.tree_fs.specs.declared.name.Kind.TheVariants.{Absent, File, Folder};
ghost use Rattle.tree_host.specs.Looks.{is_absence};

use std::fs::Metadata;
use std::io;
use std::io::ErrorKind;
use std::os::unix::fs::MetadataExt;
use tree_fs::Kind;

/// What stands at a place.
#[derive(Clone, Copy)]
pub(crate) struct Found {
    pub(crate) kind: Kind,
    /// How many bytes a file has.
    pub(crate) len: u64,
    /// The numbers of device and file, which say which one it is. Both are 0 where the runtime
    /// shows none.
    pub(crate) device: u64,
    pub(crate) number: u64,
}

impl Found {
    fn of(found: &Metadata) -> Found
        ensures folder { (result.kind ≡ Folder) ↔ IsDir (file_type found.now) }
        ensures file { (result.kind ≡ File) ↔ IsFile (file_type found.now) }
        ensures there { result.kind ≢ Absent }
        ensures len { result.len ≡ metadata_len found.now }
    {
        Found {
            kind: kind_of(found),
            len: found.len(),
            device: found.dev(),
            number: found.ino(),
        }
    }

    pub(crate) fn nothing() -> Found
        ensures { result.kind ≡ Absent }
    {
        Found {
            kind: Kind::Absent,
            len: 0,
            device: 0,
            number: 0,
        }
    }

    /// Whether the runtime shows which one it is.
    pub(crate) fn has_numbers(&self) -> bool {
        self.device != 0 || self.number != 0
    }

    /// Whether the numbers are those of one file or folder.
    pub(crate) fn is_one(&self, other: &Found) -> bool
        ensures { IsTrue result ↔ ((self.now.device ≡ other.now.device)
            × (self.now.number ≡ other.now.number)) }
    {
        self.device == other.device && self.number == other.number
    }
}

/// The kind of what was found. A symbolic link is `Other`.
pub(crate) fn kind_of(found: &Metadata) -> Kind
    ensures folder { (result ≡ Folder) ↔ IsDir (file_type found.now) }
    ensures file { (result ≡ File) ↔ IsFile (file_type found.now) }
    ensures there { result ≢ Absent }
{
    let found = found.file_type();
    if found.is_dir() {
        Kind::Folder
    } else if found.is_file() {
        Kind::File
    } else {
        Kind::Other
    }
}

/// What was found. Nothing is there where the system says so, or that a path above is no folder;
/// any other error is one.
pub(crate) fn found_or_nothing(found: io::Result<Metadata>) -> io::Result<Found>
    ensures there { IfOk found (λ _. IsOkAnd result (λ found. found.kind ≢ Absent)) }
    ensures missing { IfErr found (λ e. MatchBool (is_absence (error_kind e))
        (IsOkAnd result (λ found. found.kind ≡ Absent)) (result ≡ Err e)) }
{
    match found {
        Ok(found) => Ok(Found::of(&found)),
        Err(e) if is_absence(e.kind()) => Ok(Found::nothing()),
        Err(e) => Err(e),
    }
}

fn is_absence(kind: ErrorKind) -> bool
    ensures { result ≡ is_absence kind }
{
    matches!(kind, ErrorKind::NotFound | ErrorKind::NotADirectory)
}
