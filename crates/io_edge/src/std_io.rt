// The program's own input and output.
ghost use Rattle.std.specs.Prelude.{◌≡◌, ◌≤◌, [], length, IfOk};

use crate::error::count_fault;
use crate::{IoError, Sink, Source};
use fault_count::FaultCount;
use std::io;
use std::io::{ErrorKind, Read};

// The most bytes of one read.
const PIECE: u32 = 65_536;

// One read, made again where a signal interrupted it, at most `u64::MAX` times.
fn read_again<F: Read>(reader: &mut F, piece: &mut [u8]) -> io::Result<usize>
    ensures { IfOk result (λ n. n ≤ length piece.new) }
{
    for _ in 0..u64::MAX {
        match reader.read(piece) {
            Err(e) if e.kind() == ErrorKind::Interrupted => {}
            answer => return answer,
        }
    }
    Err(io::Error::from(ErrorKind::TimedOut))
}

// One write, made again where a signal interrupted it, at most `u64::MAX` times.
fn write_again<R: Print>(rt: &R, piece: &[u8]) -> io::Result<usize>
    ensures { IfOk result (λ n. n ≤ length piece.now) }
{
    for _ in 0..u64::MAX {
        match rt.write_some(piece) {
            Err(e) if e.kind() == ErrorKind::Interrupted => {}
            answer => return answer,
        }
    }
    Err(io::Error::from(ErrorKind::TimedOut))
}

/// Standard input, or what a runtime has in its place. It tells nothing of its bytes.
///
/// A pull is one read. A read that a signal interrupted is made again, at most `u64::MAX` times.
#[derive(Drop)]
pub struct StdSource<R> {
    rt: R,
    faults: FaultCount,
}

impl<R: Input + AllocGlobal> StdSource<R> {
    /// A source over the runtime's input.
    pub fn new(rt: R) -> StdSource<R>
        ensures { result.faults ≡ 0 }
    {
        StdSource {
            rt,
            faults: FaultCount::new(),
        }
    }
}

impl<R: Input + AllocGlobal> Source for StdSource<R> {
    ghost tells = { ⊥ };

    ghost left = { λ _. [] };

    ghost faults = { λ s. s.faults };

    ghost gives = { λ _ _ _. Unit {0} };

    ghost gives_left = { λ told. absurd told };

    fn pull(&mut self, most: u32) -> Result<Vec<u8>, IoError> {
        let mut piece = vec![in self.rt.alloc(); 0; most.min(PIECE) as usize]?;
        match read_again(&mut self.rt.reader(), &mut piece) {
            Ok(n) => {
                piece.truncate(n);
                Ok(piece)
            }
            Err(_) => Err(count_fault(&mut self.faults)),
        }
    }
}

/// Standard output, or what a runtime has in its place. It tells nothing of its bytes.
///
/// A push is one write, and nothing is kept back. A write that a signal interrupted is made again,
/// at most `u64::MAX` times; one that takes nothing is a fault.
#[derive(Drop)]
pub struct StdSink<R> {
    rt: R,
    faults: FaultCount,
}

impl<R: Print> StdSink<R> {
    /// A sink over the runtime's output.
    pub fn new(rt: R) -> StdSink<R>
        ensures { result.faults ≡ 0 }
    {
        StdSink {
            rt,
            faults: FaultCount::new(),
        }
    }
}

impl<R: Print> Sink for StdSink<R> {
    ghost tells = { ⊥ };

    ghost written = { λ _. [] };

    ghost faults = { λ s. s.faults };

    fn push(&mut self, piece: &[u8]) -> Result<usize, IoError> {
        if piece.is_empty() {
            return Ok(0);
        }
        match write_again(&self.rt, piece) {
            Ok(n) if n > 0 => Ok(n),
            _ => Err(count_fault(&mut self.faults)),
        }
    }
}
