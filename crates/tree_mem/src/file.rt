// The files of a disk.
ghost use Rattle.std.specs.Prelude.{◌≡◌, [], true, false, IfOk};
ghost use Rattle.tree_mem.specs.FileData.{file_left};

use std::alloc::{AllocError, Global};
use std::marker::Model;

/// A file: its bytes, and whether they stay as they are in a stop.
#[derive(Drop)]
pub(crate) struct MemFile {
    bytes: Vec<u8>,
    firm: bool,
}

impl Model for MemFile {
    ghost use Rattle.tree_mem.specs.FileData.{FileData};

    ghost Value = { FileData };

    ghost view = { λ a. record { bytes = a.bytes.items; firm = a.firm } };
}

impl MemFile {
    /// A file with these bytes, which stay.
    pub(crate) fn firm(alloc: Global, bytes: &[u8]) -> Result<MemFile, AllocError>
        ensures { IfOk result (λ file. file ≡ record { bytes = bytes.now; firm = true }) }
    {
        let mut copy = Vec::new(alloc);
        copy.extend_from_slice(bytes)?;
        Ok(MemFile {
            bytes: copy,
            firm: true,
        })
    }
}

impl MemFile {
    /// A file without bytes.
    pub(crate) fn empty(alloc: Global) -> MemFile
        ensures { result ≡ record { bytes = []; firm = false } }
    {
        MemFile {
            bytes: Vec::new(alloc),
            firm: false,
        }
    }

    /// The bytes.
    pub(crate) fn bytes(&self) -> &[u8]
        ensures { result.now ≡ self.now.bytes }
    {
        &self.bytes
    }

    /// Gives the file these bytes, which a stop may change.
    pub(crate) fn fill(&mut self, bytes: Vec<u8>)
        ensures { self.new ≡ record { bytes = bytes.items; firm = false } }
    {
        self.bytes = bytes;
        self.firm = false;
    }

    /// Gives the file these bytes, which stay.
    pub(crate) fn edit(&mut self, bytes: Vec<u8>)
        ensures { self.new ≡ record { bytes = bytes.items; firm = true } }
    {
        self.bytes = bytes;
        self.firm = true;
    }

    /// The file after a stop, which keeps the bytes of one that isn't firm only where it is told
    /// to.
    pub(crate) fn left(&self, alloc: Global, keeps: bool) -> Result<MemFile, AllocError>
        ensures { IfOk result (λ file. file ≡ file_left keeps self.now) }
    {
        if self.firm || keeps {
            return MemFile::firm(alloc, &self.bytes);
        }
        MemFile::firm(alloc, &[])
    }

    /// From now on a stop leaves the bytes as they are.
    pub(crate) fn make_firm(&mut self)
        ensures { self.new ≡ record { bytes = self.old.bytes; firm = true } }
    {
        self.firm = true;
    }
}

impl Clone for MemFile {
    ghost is_clone = { λ a b. b ≡ a };

    fn clone(&self) -> Result<MemFile, AllocError> {
        Ok(MemFile {
            bytes: self.bytes.clone()?,
            firm: self.firm,
        })
    }
}
