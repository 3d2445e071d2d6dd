// A source and a sink in memory, which fail where they are told to.
ghost use Rattle.std.specs.Prelude.{◌≡◌, ◌<◌, ◌≤◌, ◌↔◌, ◌++◌, [], length, vec_len, take, drop, min, Contains, IfOk, OnOk, OnErr, IsErrOf};
ghost use Rattle.fault_count.specs.Causes.{HasCause};
ghost use Rattle.io_edge.specs.Mem.{SourceState, SinkState, OnePull, next_count};

use crate::error::count_fault;
use crate::{IoError, Sink, Source};
use fault_count::FaultCount;
use std::marker::Model;

/// A source over bytes in memory, which fails at the calls that its list names.
///
/// A contract sees the bytes left, the most bytes of a piece, the calls so far, the numbers of the
/// calls that fail, and the count of faults.
#[derive(Drop)]
pub struct MemSource {
    bytes: Vec<u8>,
    given: usize,
    piece: u32,
    fails: Vec<u64>,
    calls: u64,
    faults: FaultCount,
}

impl Model for MemSource {
    ghost use Rattle.std.specs.Prelude.{◌<◌, ◌≤◌, drop, vec_len};
    ghost use Rattle.io_edge.specs.Mem.{SourceState};

    ghost Value = { SourceState };

    ghost view = { λ a. record {
      left = drop a.given a.bytes.items;
      piece = a.piece;
      calls = a.calls;
      fails = a.fails.items;
      faults = a.faults;
    } };

    ghost invariant = { λ a. (a.given ≤ vec_len a.bytes) × (0 < a.piece) };
}

impl MemSource {
    /// A source of these bytes, at most `piece` of them a call. Exactly the calls whose numbers,
    /// counted from 0, stand in `fails` answer `Failed`.
    pub fn new(bytes: Vec<u8>, piece: u32, fails: Vec<u64>) -> MemSource
        requires { 0 < piece }
        ensures { result ≡ record {
          left = bytes.items;
          piece = piece;
          calls = 0;
          fails = fails.items;
          faults = 0;
        } }
    {
        MemSource {
            bytes,
            given: 0,
            piece,
            fails,
            calls: 0,
            faults: FaultCount::new(),
        }
    }
}

impl Source for MemSource {
    ghost tells = { Unit {0} };

    ghost left = { λ s. s.left };

    ghost faults = { λ s. s.faults };

    ghost gives = { OnePull };

    ghost gives_left = { λ _ _ _ _ pull. pull.taken };

    fn pull(&mut self, most: u32) -> Result<Vec<u8>, IoError>
        requires { 0 < most }
        ensures fails_exactly { IsErrOf result IoError.Failed ↔ Contains self.old.fails self.old.calls }
        ensures given { IfOk result
            (λ piece. piece.items ≡ take (min self.old.piece most) self.old.left) }
        ensures ok { IfOk result
            (λ piece. self.new ≡ record self.old {
              left = drop (vec_len piece) self.old.left;
              calls = next_count self.old.calls;
            }) }
        ensures failed { OnErr result
            (self.new ≡ record self.old {
              calls = next_count self.old.calls;
              faults = self.new.faults;
            }) }
        ensures memory { IsErrOf result IoError.Memory → self.new.faults ≡ self.old.faults }
        ensures at_most { IfOk result (λ piece. vec_len piece ≤ most) }
        ensures taken { IfOk result (λ piece. self.old.left ≡ piece.items ++ self.new.left) }
        ensures end { IfOk result (λ piece. (piece.items ≡ []) ↔ (self.old.left ≡ [])) }
        ensures err { OnErr result (self.new.left ≡ self.old.left) }
        ensures gave { IfOk result (λ piece. OnePull self.old piece.items self.new) }
        ensures gave_none { OnErr result (OnePull self.old [] self.new) }
        ensures cause { HasCause IoError.Failed self.old.faults self.new.faults result }
    {
        let call = self.calls;
        self.calls = call.saturating_add(1);
        if self.fails.contains(&call) {
            return Err(count_fault(&mut self.faults));
        }
        let left = &self.bytes[self.given..];
        let len = left.len().min(self.piece.min(most) as usize);
        let piece = Vec::from_slice(*self.bytes.allocator(), &left[..len])?;
        self.given += len;
        Ok(piece)
    }
}

/// A sink in memory, which fails at the calls that its list names.
///
/// A contract sees the bytes written, the calls so far, the numbers of the calls that fail, and
/// the count of faults.
#[derive(Drop)]
pub struct MemSink {
    bytes: Vec<u8>,
    fails: Vec<u64>,
    calls: u64,
    faults: FaultCount,
}

impl Model for MemSink {
    ghost use Rattle.io_edge.specs.Mem.{SinkState};

    ghost Value = { SinkState };

    ghost view = { λ a. record {
      bytes = a.bytes.items;
      calls = a.calls;
      fails = a.fails.items;
      faults = a.faults;
    } };
}

impl MemSink {
    /// A sink to which nothing was written. Exactly the calls whose numbers, counted from 0, stand
    /// in `fails` answer `Failed`.
    pub fn new(fails: Vec<u64>) -> MemSink
        ensures { result ≡ record { bytes = []; calls = 0; fails = fails.items; faults = 0 } }
    {
        MemSink {
            bytes: Vec::new(*fails.allocator()),
            fails,
            calls: 0,
            faults: FaultCount::new(),
        }
    }

    /// All that was written, in order.
    pub fn written(&self) -> &[u8]
        ensures { result.now ≡ self.now.bytes }
    {
        &self.bytes
    }
}

impl Sink for MemSink {
    ghost tells = { Unit {0} };

    ghost written = { λ s. s.bytes };

    ghost faults = { λ s. s.faults };

    fn push(&mut self, piece: &[u8]) -> Result<usize, IoError>
        ensures fails_exactly { IsErrOf result IoError.Failed ↔ Contains self.old.fails self.old.calls }
        ensures whole { IfOk result (λ n. n ≡ length piece.now) }
        ensures ok { OnOk result
            (self.new ≡ record self.old {
              bytes = self.old.bytes ++ piece.now;
              calls = next_count self.old.calls;
            }) }
        ensures failed { OnErr result
            (self.new ≡ record self.old {
              calls = next_count self.old.calls;
              faults = self.new.faults;
            }) }
        ensures memory { IsErrOf result IoError.Memory → self.new.faults ≡ self.old.faults }
        ensures at_most { IfOk result (λ n. n ≤ length piece.now) }
        ensures at_least { 0 < length piece.now → IfOk result (λ n. 0 < n) }
        ensures appends { IfOk result (λ n. self.new.bytes ≡ self.old.bytes ++ take n piece.now) }
        ensures err { OnErr result (self.new.bytes ≡ self.old.bytes) }
        ensures cause { HasCause IoError.Failed self.old.faults self.new.faults result }
    {
        let call = self.calls;
        self.calls = call.saturating_add(1);
        if self.fails.contains(&call) {
            return Err(count_fault(&mut self.faults));
        }
        self.bytes.extend_from_slice(piece)?;
        Ok(piece.len())
    }
}
