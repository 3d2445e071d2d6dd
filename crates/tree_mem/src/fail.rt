// Planned failures.
ghost use Rattle.std.specs.Prelude.{◌≡◌};
ghost use Rattle.tree_mem.specs.Plan.{planned};

/// A failure that is planned for a call.
#[derive(Clone, Copy, Debug, PartialEq, Eq)]
pub struct FailAt {
    /// The number of the call, from 0 since the failures were planned, every call of the trait
    /// counted.
    pub call: u64,
    /// Whether a call that changes the disk does its step before it fails.
    pub done: bool,
}

/// Whether a failure is planned for the call, and whether it is to be done: of several for one
/// call the first counts.
pub(crate) fn planned(fails: &[FailAt], call: u64) -> Option<bool>
    ensures { result ≡ planned fails.now call }
{
    fails
        .iter()
        .find(|fail| fail.call == call)
        .map(|fail| fail.done)
}
