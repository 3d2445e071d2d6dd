// How a command ended.
ghost use Rattle.std.specs.Prelude.{◌≡◌};
ghost use Rattle.deploy_engine.specs.Statuses.{status_of};

use answer_lines::Refusal;

/// How a command ended.
#[derive(Drop)]
pub enum Answer {
    /// The command did its work, and its lines are written.
    Ok,
    /// The check ran whole and found a change.
    Changes,
    /// The words are no command.
    Usage,
    /// The command was refused, and changed nothing.
    Refused(Refusal),
    /// A command was stopped before: it must be recovered first.
    RecoverFirst,
    /// The tree failed. Nothing is printed.
    TreeFault,
    /// The source failed. Nothing is printed.
    SourceFault,
    /// The sink failed. The command has done its work, and a prefix of its lines is written.
    SinkFault,
    /// Memory ran out.
    Memory,
}

impl Answer {
    /// The exit status of the program.
    pub fn status(&self) -> u8
        ensures { result ≡ status_of self.now }
    {
        match self {
            Answer::Ok => 0,
            Answer::Changes => 1,
            Answer::Usage => 2,
            Answer::Refused(_) => 3,
            Answer::RecoverFirst => 4,
            Answer::TreeFault => 5,
            Answer::SourceFault => 6,
            Answer::SinkFault => 7,
            Answer::Memory => 8,
        }
    }
}
