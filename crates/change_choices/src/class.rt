// How a row's files differ from what was deployed.
ghost use Rattle.std.specs.Prelude.{◌≡◌};
ghost use Rattle.change_choices.specs.Words.{class_name};

/// How the files of a row differ from what was deployed.
#[derive(Clone, Copy, Debug, PartialEq, Eq)]
pub enum Class {
    /// The game file and the staged file are there and aren't one file.
    Replaced,
    /// They are one file, whose digest isn't the row's.
    Changed,
    /// Only the game file is absent.
    Deleted,
    /// Only the staged file is absent.
    SourceDeleted,
    /// Both are absent.
    Gone,
}

impl Class {
    /// The name, as it is printed.
    pub fn name(self) -> &'static str
        ensures { result.now ≡ class_name self }
    {
        match self {
            Class::Replaced => "Replaced",
            Class::Changed => "Changed",
            Class::Deleted => "Deleted",
            Class::SourceDeleted => "SourceDeleted",
            Class::Gone => "Gone",
        }
    }
}
