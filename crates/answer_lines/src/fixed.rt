// Lines without a value.
ghost use Rattle.std.specs.Prelude.{◌≡◌};
ghost use Rattle.answer_lines.specs.Told.{fixed_line};

/// A line that has no value in it.
#[derive(Clone, Copy, Debug, PartialEq, Eq)]
pub enum FixedLine {
    /// The words are no command.
    Usage,
    /// A command was stopped before: it must be recovered first.
    RecoverFirst,
    /// No command was stopped before.
    NothingToRecover,
    /// The edited profile is written.
    ProfileWritten,
    /// The edit changed nothing, and nothing is written.
    ProfileUnchanged,
}

impl FixedLine {
    /// The line, with its line feed. It takes no memory.
    pub fn text(self) -> &'static str
        ensures { result.now ≡ fixed_line self }
    {
        match self {
            FixedLine::Usage => "usage\n",
            FixedLine::RecoverFirst => "recover first\n",
            FixedLine::NothingToRecover => "nothing to recover\n",
            FixedLine::ProfileWritten => "profile written\n",
            FixedLine::ProfileUnchanged => "profile unchanged\n",
        }
    }
}
