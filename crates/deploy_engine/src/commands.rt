// The commands, each in a module of its own.

pub(crate) mod check;
pub(crate) mod conflicts;
pub(crate) mod deploy;
pub(crate) mod edit;
pub(crate) mod order;
pub(crate) mod plan;
pub(crate) mod purge;
pub(crate) mod recover;
pub(crate) mod sample;
pub(crate) mod settle;
pub(crate) mod status;
pub(crate) mod winners;

/// What a command has to say.
#[derive(Drop)]
pub(crate) struct Report {
    /// Its lines.
    pub lines: Vec<u8>,
    /// Whether it found changes.
    pub changes: bool,
}
