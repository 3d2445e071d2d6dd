// The real file system, which records each call, and fails where it is told to. The looks at the
// folders above a root, whose number depends on where the tests run, are made and not recorded.
use std::alloc::Allocator;
use std::cell::{Cell, RefCell};
use std::fs::{File, Metadata, OpenFile, OpenOptions};
use std::io;
use std::io::{ErrorKind, Read, Seek, SeekFrom, Write};
use std::rt::Files;

/// The calls so far, and which one fails.
#[derive(Drop)]
pub(super) struct Record {
    rt: HostRuntime,
    log: RefCell<String>,
    calls: Cell<u32>,
    fails: Option<(u32, ErrorKind)>,
    hides_numbers: bool,
}

impl Record {
    /// The call of the number fails, counted from 0. With `hides_numbers` no metadata show numbers
    /// of device and file.
    pub(super) fn new(
        rt: HostRuntime,
        fails: Option<(u32, ErrorKind)>,
        hides_numbers: bool,
    ) -> Record {
        Record {
            rt,
            log: RefCell::new(String::new(rt.alloc())),
            calls: Cell::new(0),
            fails,
            hides_numbers,
        }
    }

    pub(super) fn calls(&self) -> u32 {
        self.calls.get()
    }

    /// The calls since the log was taken last.
    pub(super) fn take_log(&self) -> String {
        match self.log.try_replace(String::new(self.rt.alloc())) {
            Ok(log) => log,
            Err(_) => String::new(self.rt.alloc()),
        }
    }

    fn note(&self, call: &str, path: &str) -> io::Result<()> {
        if path.ends_with("..") {
            return Ok(());
        }
        if let Ok(mut guard) = self.log.try_borrow_mut() {
            let log = &mut *guard;
            let comma = if log.is_empty() { "" } else { ", " };
            write!(log, "{comma}{call} {path}")?;
        }
        let number = self.calls.get();
        self.calls.set(number.saturating_add(1));
        match self.fails {
            Some((call, kind)) if call == number => Err(io::Error::from(kind)),
            _ => Ok(()),
        }
    }

    fn shown(&self, found: Metadata) -> Metadata {
        if !self.hides_numbers {
            found
        } else if found.is_dir() {
            Metadata::of_dir()
        } else if found.is_file() {
            Metadata::of_file(found.len())
        } else {
            Metadata::of_symlink(found.len())
        }
    }
}

#[derive(Clone, Copy)]
pub(super) struct Recorded<'a>(pub(super) &'a Record);

#[derive(Drop)]
pub(super) struct RecordedFile<'a> {
    record: &'a Record,
    path: String,
    file: File,
}

impl<'a> Files for Recorded<'a> {
    type File = RecordedFile<'a>;

    type Dir = <HostRuntime as Files>::Dir;

    fn open_file(&self, how: &OpenOptions, path: &str) -> io::Result<RecordedFile<'a>> {
        self.0.note("open", path)?;
        Ok(RecordedFile {
            record: self.0,
            path: String::from_str(self.0.rt.alloc(), path)?,
            file: self.0.rt.open_file(how, path)?,
        })
    }

    fn open_dir(&self, path: &str) -> io::Result<<HostRuntime as Files>::Dir> {
        self.0.note("list", path)?;
        self.0.rt.open_dir(path)
    }

    fn metadata(&self, path: &str) -> io::Result<Metadata> {
        self.0.note("stat", path)?;
        Ok(self.0.shown(self.0.rt.metadata(path)?))
    }

    fn symlink_metadata(&self, path: &str) -> io::Result<Metadata> {
        self.0.note("lstat", path)?;
        Ok(self.0.shown(self.0.rt.symlink_metadata(path)?))
    }

    fn copy(&self, from: &str, to: &str) -> io::Result<u64> {
        self.0.rt.copy(from, to)
    }

    fn rename(&self, from: &str, to: &str) -> io::Result<()> {
        self.0.note("rename", from)?;
        self.0.rt.rename(from, to)
    }

    fn remove_file(&self, path: &str) -> io::Result<()> {
        self.0.note("unlink", path)?;
        self.0.rt.remove_file(path)
    }

    fn create_dir(&self, path: &str) -> io::Result<()> {
        self.0.note("mkdir", path)?;
        self.0.rt.create_dir(path)
    }

    fn remove_dir(&self, path: &str) -> io::Result<()> {
        self.0.note("rmdir", path)?;
        self.0.rt.remove_dir(path)
    }

    fn remove_dir_all<B: Allocator>(&self, alloc: B, path: &str) -> io::Result<()> {
        self.0.rt.remove_dir_all(alloc, path)
    }

    fn hard_link(&self, original: &str, link: &str) -> io::Result<()> {
        self.0.note("link", link)?;
        self.0.rt.hard_link(original, link)
    }
}

impl Read for RecordedFile<'_> {
    fn read(&mut self, buf: &mut [u8]) -> io::Result<usize> {
        self.record.note("read", self.path.as_str())?;
        self.file.read(buf)
    }
}

impl Write for RecordedFile<'_> {
    fn write(&mut self, buf: &[u8]) -> io::Result<usize> {
        self.record.note("write", self.path.as_str())?;
        self.file.write(buf)
    }

    fn flush(&mut self) -> io::Result<()> {
        Ok(())
    }
}

impl Seek for RecordedFile<'_> {
    fn seek(&mut self, to: SeekFrom) -> io::Result<u64> {
        self.record.note("seek", self.path.as_str())?;
        self.file.seek(to)
    }
}

impl OpenFile for RecordedFile<'_> {
    fn metadata(&self) -> io::Result<Metadata> {
        self.file.metadata()
    }

    fn set_len(&self, size: u64) -> io::Result<()> {
        self.file.set_len(size)
    }

    fn sync_all(&self) -> io::Result<()> {
        self.record.note("fsync", self.path.as_str())?;
        self.file.sync_all()
    }

    fn sync_data(&self) -> io::Result<()> {
        Err(io::Error::from(ErrorKind::Unsupported))
    }
}
