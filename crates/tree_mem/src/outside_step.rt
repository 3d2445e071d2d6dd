// What others may do.
use tree_fs::{Bytes, Place};

/// A change by others. What it changes is settled and firm.
#[derive(Drop)]
pub enum OutsideStep {
    /// A new file is there with these bytes.
    PutFile { at: Place, bytes: Bytes },
    /// The file at the place gets these bytes, under all its names.
    EditFile { at: Place, bytes: Bytes },
    /// The place gets no file.
    Remove { at: Place },
    /// `to` gets the file of `from`.
    LinkFile { from: Place, to: Place },
    /// A folder is there.
    MakeFolder { at: Place },
    /// The folder is gone.
    RemoveFolder { at: Place },
}
