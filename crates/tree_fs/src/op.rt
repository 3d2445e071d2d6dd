// What a tree was asked to do.
ghost use Rattle.std.specs.Prelude.{◌≡◌};

use crate::Place;
use std::marker::Model;

/// The bytes that a step gives a file. A contract sees them as a list.
#[derive(Drop)]
pub struct Bytes {
    items: Vec<u8>,
}

impl Model for Bytes {
    ghost use Rattle.std.specs.Prelude.{List, ℕ};

    ghost Value = { List ℕ };

    ghost view = { λ a. a.items.items };
}

impl Bytes {
    /// These bytes. It takes no memory.
    pub fn from_vec(items: Vec<u8>) -> Bytes
        ensures { result ≡ items.items }
    {
        Bytes { items }
    }

    /// The bytes, given back without taking memory.
    pub fn into_vec(self) -> Vec<u8>
        ensures { result.items ≡ self }
    {
        self.items
    }

    /// The bytes.
    pub fn as_slice(&self) -> &[u8]
        ensures { result.now ≡ self.now }
    {
        self.items.as_slice()
    }
}

/// One step of a tree. A step that is not `done` had no effect.
#[derive(Drop)]
pub enum Op {
    /// `to` gets the file of `from`.
    Link { from: Place, to: Place, done: bool },
    /// The place gets no file.
    Unlink { at: Place, done: bool },
    /// `to` gets the file of `from`, and `from` none; nothing where both have one file.
    Rename { from: Place, to: Place, done: bool },
    /// The place gets a new file without bytes, not firm.
    Create { at: Place, done: bool },
    /// The file at the place gets these bytes, still not firm.
    Fill { at: Place, bytes: Bytes, done: bool },
    /// A folder is there, settled.
    MakeFolder { at: Place, done: bool },
    /// The folder is gone, settled.
    RemoveFolder { at: Place, done: bool },
    /// Each entry of the folder keeps only its present value.
    SyncFolder { at: Place, done: bool },
    /// The file at the place is firm.
    SyncFile { at: Place, done: bool },
}
