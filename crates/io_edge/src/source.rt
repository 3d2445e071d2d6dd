// Where bytes come from.
ghost use Rattle.std.specs.Prelude.{◌≡◌, ◌<◌, ◌≤◌, ◌↔◌, ◌++◌, ℕ, List, [], vec_len, IfOk, OnErr};
ghost use Rattle.fault_count.specs.Causes.{HasCause};
ghost use Rattle.io_edge.specs.Pulls.{GivesOff};

use crate::IoError;

/// Where bytes come from, piece by piece.
///
/// A source may tell which bytes it has left; what is said of them is said where it tells.
pub trait Source {
    /// Whether the source tells its bytes.
    ghost tells: { Type 0 };

    /// The bytes that are left, where the source tells them.
    ghost left: { Self → List ℕ };

    /// How often the source has failed, which stands still at `u64::MAX`.
    ghost faults: { Self → ℕ };

    /// One pull in the first state may give these bytes and leave the second state. A pull that
    /// fails, or finds none left, gives none.
    ghost gives: { Self → List ℕ → Self → Type 0 };

    /// What a pull gives comes off the bytes left.
    ghost gives_left: { tells → GivesOff gives left };

    /// The next bytes, at least one and at most `most`, or none exactly where none are left.
    ///
    /// After an error the bytes left are as before. `Failed` comes only where the count of faults
    /// rose.
    fn pull(&mut self, most: u32) -> Result<Vec<u8>, IoError>
        requires { 0 < most }
        ensures at_most { IfOk result (λ piece. vec_len piece ≤ most) }
        ensures taken { tells
            → IfOk result (λ piece. left self.old ≡ piece.items ++ left self.new) }
        ensures end { tells → IfOk result (λ piece. (piece.items ≡ []) ↔ (left self.old ≡ [])) }
        ensures err { tells → OnErr result (left self.new ≡ left self.old) }
        ensures gave { IfOk result (λ piece. gives self.old piece.items self.new) }
        ensures gave_none { OnErr result (gives self.old [] self.new) }
        ensures cause { HasCause IoError.Failed (faults self.old) (faults self.new) result };
}
