// The folders above a place: none may be a link, and each is settled before what is in it is.
use super::{RealDisk, parent};
use crate::found::{Found, found_or_nothing};
use std::collections::BTreeSet;
use std::fs::{File, OpenFile};
use std::io::ErrorKind;
use std::rt::Files;
use std::{fs, io, mem};
use tree_fs::{Kind, Place};

impl<R: Files + Clone + Drop> RealDisk<R> {
    // The path of a place that is no root, and above which are folders alone.
    pub(super) fn path_below_folders(&mut self, at: &Place) -> io::Result<String> {
        if at.rel.is_none() {
            return Err(io::Error::from(ErrorKind::InvalidInput));
        }
        let path = self.path_of(at)?;
        if self.has_real_parents(at, path.as_str())? {
            Ok(path)
        } else {
            Err(io::Error::from(ErrorKind::NotADirectory))
        }
    }

    // The path of a folder, above which are folders alone.
    pub(super) fn folder_path(&mut self, at: &Place) -> io::Result<String> {
        let path = self.path_of(at)?;
        if self.is_real_folder(at, path.as_str())? {
            Ok(path)
        } else {
            Err(io::Error::from(ErrorKind::NotADirectory))
        }
    }

    fn is_real_folder(&mut self, at: &Place, path: &str) -> io::Result<bool> {
        Ok(self.has_real_parents(at, path)? && (at.rel.is_none() || self.is_real(path)?))
    }

    // Whether each path between the place and its root is a folder, and no link.
    pub(super) fn has_real_parents(&mut self, at: &Place, path: &str) -> io::Result<bool> {
        if self.real.has(parent(path)) {
            return Ok(true);
        }
        let root_len = self.base.len().saturating_add(1 + at.root.word().len());
        for (end, _) in path.match_indices('/') {
            let above = path.get(..end).unwrap_or(path);
            if end > root_len && !self.is_real(above)? {
                return Ok(false);
            }
        }
        Ok(true)
    }

    // Whether a folder stands at this path, where folders alone are above.
    fn is_real(&mut self, path: &str) -> io::Result<bool> {
        if self.real.has(path) {
            return Ok(true);
        }
        if self.missing.has(path) {
            return Ok(false);
        }
        let found = self.look(path)?;
        if found.kind != Kind::Folder {
            self.missing.add(path)?;
        }
        Ok(found.kind == Kind::Folder)
    }

    // Looks at a path, which follows no link at its end. A folder is known from then on.
    pub(super) fn look(&mut self, path: &str) -> io::Result<Found> {
        let found = found_or_nothing(fs::symlink_metadata(&self.rt, path))?;
        if found.kind == Kind::Folder {
            self.real.add(path)?;
        }
        Ok(found)
    }

    // Settles a folder and those above it up to the base: an earlier run may have made or removed
    // one, and not come to sync what it is in.
    pub(super) fn settle_from_base(&mut self, path: &str) -> io::Result<()> {
        self.settle_base()?;
        for (end, _) in path.match_indices('/') {
            let above = path.get(..end).unwrap_or(path);
            if end > self.base.len() {
                self.settle(above)?;
            }
        }
        self.settle(path)
    }

    pub(super) fn settle_base(&mut self) -> io::Result<()> {
        if !self.has_settled_base {
            self.sync_path(self.base.as_str())?;
            self.has_settled_base = true;
        }
        Ok(())
    }

    fn settle(&mut self, folder: &str) -> io::Result<()> {
        if !self.settled.has(folder) {
            self.sync_path(folder)?;
            self.settled.add(folder)?;
            self.late.remove(folder);
        }
        Ok(())
    }

    // Before a folder is made or removed in this one. Where one goes, those beside it stay as settled
    // as they are.
    pub(super) fn settle_later(&mut self, folder: &str) -> io::Result<()> {
        if !self.late.contains(folder) {
            self.late.insert(String::from_str(self.rt.1, folder)?)?;
        }
        Ok(())
    }

    // Settles the folders in which some were made or removed, from the base down.
    pub(super) fn settle_late(&mut self) -> io::Result<()> {
        let late = mem::replace(&mut self.late, BTreeSet::new(self.rt.1));
        let outcome = self.settle_each(&late);
        if outcome.is_err() {
            self.late = late;
        }
        outcome
    }

    fn settle_each(&mut self, folders: &BTreeSet<String>) -> io::Result<()> {
        for folder in folders {
            self.settled.remove(folder.as_str());
            self.settle_from_base(folder.as_str())?;
        }
        Ok(())
    }

    pub(super) fn sync_path(&self, path: &str) -> io::Result<()> {
        File::open(&self.rt, path)?.sync_all()
    }
}
