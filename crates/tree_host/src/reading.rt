// A file that is read part by part.
ghost use Rattle.std.specs.Prelude.{◌≡◌, ◌≤◌, length, vec_len, IfOk};

use std::alloc::Global;
use std::io;
use std::io::{ErrorKind, Read, Seek, SeekFrom};

// The most bytes of one read.
const PIECE: u64 = 1_048_576;

/// A file that was opened to be read.
#[derive(Drop)]
pub(crate) struct Reading<F: Read + Seek + Drop> {
    path: String,
    file: F,
    len: u64,
    // Where the next read begins.
    position: u64,
}

impl<F: Read + Seek + Drop> Reading<F> {
    pub(crate) fn new(path: String, file: F, len: u64) -> Reading<F> {
        Reading {
            path,
            file,
            len,
            position: 0,
        }
    }

    pub(crate) fn is_of(&self, path: &str) -> bool {
        self.path.as_str() == path
    }

    /// At most `most` bytes from a position, none where the file has none there.
    pub(crate) fn part(&mut self, alloc: Global, from: u64, most: u32) -> io::Result<Vec<u8>>
        ensures { IfOk result (λ part. vec_len part ≤ most) }
    {
        let left = self.len.saturating_sub(from);
        if left > 0 && from != self.position {
            self.position = self.file.seek(SeekFrom::Start(from))?;
        }
        let mut part = vec![in alloc; 0; left.min(PIECE).min(u64::from(most)) as usize]?;
        if !part.is_empty() {
            let n = read_again(&mut self.file, &mut part)?;
            part.truncate(n);
            self.position = self.position.saturating_add(n as u64);
        }
        Ok(part)
    }
}

// One read, made again where a signal interrupted it, at most `u64::MAX` times.
fn read_again<F: Read>(file: &mut F, part: &mut [u8]) -> io::Result<usize>
    ensures { IfOk result (λ n. n ≤ length part.new) }
{
    for _ in 0..u64::MAX {
        match file.read(part) {
            Err(e) if e.kind() == ErrorKind::Interrupted => {}
            answer => return answer,
        }
    }
    Err(io::Error::from(ErrorKind::TimedOut))
}
