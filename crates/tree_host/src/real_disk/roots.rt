// The three roots, which the first call makes, and of which none lies in another.
use super::RealDisk;
use crate::found::{Found, found_or_nothing};
use std::io::ErrorKind;
use std::rt::Files;
use std::{fs, io};
use tree_fs::{Kind, Root};

// A root below more folders is refused.
const MOST_ABOVE: u32 = 1_024;

impl<R: Files + Clone + Drop> RealDisk<R> {
    // Makes the roots that are missing.
    pub(super) fn need_roots(&mut self) -> io::Result<()> {
        if self.has_roots {
            return Ok(());
        }
        let stage = self.need_root(Root::Stage)?;
        let game = self.need_root(Root::Game)?;
        let keep = self.need_root(Root::Keep)?;
        self.has_roots = self.lies_in_neither(Root::Stage, stage, game, keep)?
            && self.lies_in_neither(Root::Game, game, keep, stage)?
            && self.lies_in_neither(Root::Keep, keep, stage, game)?;
        if self.has_roots {
            Ok(())
        } else {
            Err(io::Error::from(ErrorKind::InvalidInput))
        }
    }

    fn need_root(&mut self, root: Root) -> io::Result<Found> {
        let path = self.root_path(root)?;
        let found = self.find_or_make(path.as_str())?;
        if found.kind == Kind::Folder {
            Ok(found)
        } else {
            Err(io::Error::from(ErrorKind::NotADirectory))
        }
    }

    fn find_or_make(&mut self, path: &str) -> io::Result<Found> {
        let found = found_or_nothing(fs::metadata(&self.rt, path))?;
        if found.kind != Kind::Absent {
            return Ok(found);
        }
        self.has_settled_base = false;
        fs::create_dir(&self.rt, path)?;
        found_or_nothing(fs::metadata(&self.rt, path))
    }

    // Whether a root is neither of the two others, nor lies below one. Where the runtime shows no
    // numbers nothing is compared.
    fn lies_in_neither(
        &self,
        root: Root,
        found: Found,
        one: Found,
        other: Found,
    ) -> io::Result<bool> {
        let mut path = self.root_path(root)?;
        let mut last = found;
        for _ in 0..MOST_ABOVE {
            if !last.has_numbers() {
                return Ok(true);
            }
            if last.is_one(&one) || last.is_one(&other) {
                return Ok(false);
            }
            path.push_str("/..")?;
            let above = self.find_above(path.as_str())?;
            // The top is its own folder above.
            if above.is_one(&last) {
                return Ok(true);
            }
            last = above;
        }
        Err(io::Error::from(ErrorKind::FilesystemLoop))
    }

    // Nothing where the system lets nobody look.
    fn find_above(&self, path: &str) -> io::Result<Found> {
        match fs::metadata(&self.rt, path) {
            Err(e) if e.kind() == ErrorKind::PermissionDenied => Ok(Found::nothing()),
            found => found_or_nothing(found),
        }
    }
}
