// The calls that change nothing.
use super::{RealDisk, joined, parent};
use crate::found::{Found, found_or_nothing};
use crate::listing::list_folder;
use crate::reading::Reading;
use std::fs::File;
use std::io::ErrorKind;
use std::rt::Files;
use std::{fs, io};
use tree_fs::{Entry, Kind, Place};

impl<R: Files + Clone + Drop> RealDisk<R> {
    pub(crate) fn kind(&mut self, at: &Place) -> io::Result<Kind> {
        self.begin()?;
        let path = self.path_of(at)?;
        if self.real.has(path.as_str()) {
            Ok(Kind::Folder)
        } else if self.made.is_free(parent(path.as_str()), path.as_str()) {
            Ok(Kind::Absent)
        } else if self.has_real_parents(at, path.as_str())? {
            Ok(self.find(at, path)?.kind)
        } else {
            Ok(Kind::Absent)
        }
    }

    pub(crate) fn list(&mut self, folder: &Place) -> io::Result<Vec<Entry>> {
        self.begin()?;
        let path = self.folder_path(folder)?;
        let entries = list_folder(&self.rt, path.as_str())?;
        self.know_folders(path.as_str(), &entries)?;
        Ok(entries)
    }

    // Each folder that is listed is known from then on.
    fn know_folders(&mut self, folder: &str, entries: &[Entry]) -> io::Result<()> {
        for entry in entries {
            if entry.kind == Kind::Folder {
                let path = String::from_str(self.rt.1, folder)?;
                self.real.add_path(joined(path, entry.name.text())?)?;
            }
        }
        Ok(())
    }

    pub(crate) fn size(&mut self, at: &Place) -> io::Result<u64> {
        self.begin()?;
        Ok(self.find_file(at)?.len)
    }

    /// A file that is read part by part is opened once, as long as no other call comes between.
    pub(crate) fn read_part(&mut self, at: &Place, from: u64, most: u32) -> io::Result<Vec<u8>> {
        self.need_roots()?;
        let path = self.path_of(at)?;
        let mut reading = match self.reading.take() {
            Some(reading) if reading.is_of(path.as_str()) => reading,
            _ => self.open_file(at, path)?,
        };
        let part = reading.part(self.rt.1, from, most)?;
        if !part.is_empty() {
            self.reading = Some(reading);
        }
        Ok(part)
    }

    fn open_file(&mut self, at: &Place, path: String) -> io::Result<Reading<R::File>> {
        let found = self.find_file(at)?;
        let file = File::open(&self.rt, path.as_str())?;
        Ok(Reading::new(path, file, found.len))
    }

    /// By the numbers of device and file. Where a runtime shows none, by the bytes.
    pub(crate) fn same(&mut self, a: &Place, b: &Place) -> io::Result<bool> {
        self.begin()?;
        let first = self.find_file(a)?;
        let second = self.find_file(b)?;
        if first.has_numbers() || second.has_numbers() {
            Ok(first.is_one(&second))
        } else {
            self.has_same_bytes(a, b)
        }
    }

    fn has_same_bytes(&self, a: &Place, b: &Place) -> io::Result<bool> {
        let (first, second) = (self.path_of(a)?, self.path_of(b)?);
        Ok(fs::read(&self.rt, first.as_str())? == fs::read(&self.rt, second.as_str())?)
    }

    // To open what is no file could follow a link, or wait.
    pub(super) fn find_file(&mut self, at: &Place) -> io::Result<Found> {
        let path = self.path_below_folders(at)?;
        let found = self.find(at, path)?;
        if found.kind == Kind::File {
            Ok(found)
        } else {
            Err(io::Error::from(ErrorKind::InvalidInput))
        }
    }

    // What stands at the place, above which are folders alone. A root may be a link to the real
    // folder.
    fn find(&mut self, at: &Place, path: String) -> io::Result<Found> {
        if let Some(found) = self.looks.get(path.as_str()) {
            return Ok(found);
        }
        let found = match &at.rel {
            None => found_or_nothing(fs::metadata(&self.rt, path.as_str()))?,
            Some(_) => self.look(path.as_str())?,
        };
        self.looks.keep(path, found);
        Ok(found)
    }
}
