// An intent: what a command is about to do, as it stands in the journal.
use move_plan::Plan;

/// How far a command has come with its plan.
#[derive(Clone, Copy, Debug, PartialEq, Eq)]
pub enum Phase {
    /// Folders, saves and sets may be due.
    Set,
    /// Only the manifest, the clears and the folders to take off may be due.
    Clear,
}

/// A plan that a command has begun, and how far it has come.
#[derive(Drop)]
pub struct Intent {
    pub phase: Phase,
    pub plan: Plan,
}
