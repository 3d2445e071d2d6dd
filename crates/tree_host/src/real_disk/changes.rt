// The calls that change the disk, or settle what was changed.
use super::{RealDisk, parent};
use std::fs::{File, OpenFile};
use std::io::Write;
use std::rt::Files;
use std::{fs, io};
use tree_fs::Place;

impl<R: Files + Clone + Drop> RealDisk<R> {
    // What comes before a file gets or loses a name.
    fn begin_naming(&mut self) -> io::Result<()> {
        self.begin_change()?;
        self.settle_late()
    }

    // The path of a place that is about to get or to lose a file.
    fn path_to_change(&mut self, at: &Place) -> io::Result<String> {
        let path = self.path_below_folders(at)?;
        self.settled.remove(parent(path.as_str()));
        Ok(path)
    }

    // The path of a place that is about to get a file.
    fn path_to_fill(&mut self, at: &Place) -> io::Result<String> {
        let path = self.path_to_change(at)?;
        self.made.fill(parent(path.as_str()), path.as_str())?;
        Ok(path)
    }

    pub(crate) fn link(&mut self, from: &Place, to: &Place) -> io::Result<()> {
        self.begin_naming()?;
        let original = self.path_below_folders(from)?;
        let link = self.path_to_fill(to)?;
        fs::hard_link(&self.rt, original.as_str(), link.as_str())
    }

    pub(crate) fn unlink(&mut self, at: &Place) -> io::Result<()> {
        self.begin_naming()?;
        let path = self.path_to_change(at)?;
        fs::remove_file(&self.rt, path.as_str())
    }

    /// Of a file alone, so no folder comes or goes.
    pub(crate) fn rename(&mut self, from: &Place, to: &Place) -> io::Result<()> {
        self.begin()?;
        self.find_file(from)?;
        self.begin_naming()?;
        let old = self.path_to_change(from)?;
        let new = self.path_to_fill(to)?;
        fs::rename(&self.rt, old.as_str(), new.as_str())
    }

    /// Never overwrites, and follows no link at the end of the path either. The bytes are synced
    /// where they were written, as an error of closing the file is not seen.
    pub(crate) fn put_new(&mut self, at: &Place, bytes: &[u8]) -> io::Result<()> {
        self.begin_naming()?;
        let path = self.path_to_fill(at)?;
        self.put(path.as_str(), bytes)
    }

    fn put(&self, path: &str, bytes: &[u8]) -> io::Result<()> {
        let mut file = File::create_new(&self.rt, path)?;
        file.write_all(bytes)?;
        file.sync_all()
    }

    pub(crate) fn make_folder(&mut self, at: &Place) -> io::Result<()> {
        self.begin_change()?;
        let path = self.path_below_folders(at)?;
        self.make(path.as_str())
    }

    fn make(&mut self, path: &str) -> io::Result<()> {
        self.settle_later(parent(path))?;
        self.settled.remove(parent(path));
        fs::create_dir(&self.rt, path)?;
        self.real.add(path)?;
        self.made.add(path)?;
        Ok(())
    }

    pub(crate) fn remove_folder(&mut self, at: &Place) -> io::Result<()> {
        self.begin_change()?;
        let path = self.path_below_folders(at)?;
        self.remove(path.as_str())
    }

    fn remove(&mut self, path: &str) -> io::Result<()> {
        self.real.remove(path);
        self.made.remove(path);
        self.settle_later(parent(path))?;
        fs::remove_dir(&self.rt, path)?;
        self.settled.remove(path);
        self.late.remove(path);
        Ok(())
    }

    /// Asks nothing of the system where nothing in the folder was changed since it was synced.
    pub(crate) fn sync_folder(&mut self, at: &Place) -> io::Result<()> {
        self.begin()?;
        let path = self.folder_path(at)?;
        if self.late.contains(path.as_str()) {
            self.settled.remove(path.as_str());
        }
        self.settle_from_base(path.as_str())
    }

    pub(crate) fn sync_file(&mut self, at: &Place) -> io::Result<()> {
        self.begin()?;
        self.find_file(at)?;
        let path = self.path_of(at)?;
        self.sync_path(path.as_str())
    }
}
