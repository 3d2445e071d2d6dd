// Where bytes go.
ghost use Rattle.std.specs.Prelude.{◌≡◌, ◌<◌, ◌≤◌, ◌++◌, ℕ, List, length, take, IfOk, OnOk, OnErr};
ghost use Rattle.fault_count.specs.Causes.{HasCause};
ghost use Rattle.io_edge.specs.Appends.{AppendsPrefix};

use crate::IoError;

/// Where bytes go, piece by piece.
///
/// A sink may tell which bytes were written to it; what is said of them is said where it tells.
pub trait Sink {
    /// Whether the sink tells its bytes.
    ghost tells: { Type 0 };

    /// The bytes that were written so far, where the sink tells them.
    ghost written: { Self → List ℕ };

    /// How often the sink has failed, which stands still at `u64::MAX`.
    ghost faults: { Self → ℕ };

    /// Writes the first bytes of the piece, and answers how many: at least one where the piece
    /// isn't empty.
    ///
    /// After an error nothing more is written. `Failed` comes only where the count of faults rose.
    fn push(&mut self, piece: &[u8]) -> Result<usize, IoError>
        ensures at_most { IfOk result (λ n. n ≤ length piece.now) }
        ensures at_least { 0 < length piece.now → IfOk result (λ n. 0 < n) }
        ensures appends { tells
            → IfOk result (λ n. written self.new ≡ written self.old ++ take n piece.now) }
        ensures err { tells → OnErr result (written self.new ≡ written self.old) }
        ensures cause { HasCause IoError.Failed (faults self.old) (faults self.new) result };
}

/// Writes all the bytes.
///
/// After an error some first bytes are written, and the rest aren't. `Failed` comes only where the
/// sink's count of faults rose.
pub fn push_all<K: Sink>(sink: &mut K, bytes: &[u8]) -> Result<(), IoError>
    ensures ok { K.tells → OnOk result (K.written sink.new ≡ K.written sink.old ++ bytes.now) }
    ensures err { K.tells
        → OnErr result (AppendsPrefix (K.written sink.old) (K.written sink.new) bytes.now) }
    ensures cause { HasCause IoError.Failed (K.faults sink.old) (K.faults sink.new) result }
{
    let mut done = 0;
    while done < bytes.len() {
        let count = sink.push(&bytes[done..])?;
        done += count;
    }
    Ok(())
}
