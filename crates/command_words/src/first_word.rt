// First words.
ghost use Rattle.std.specs.Prelude.{◌≡◌};

/// A command's first word.
#[derive(Clone, Copy, Debug)]
pub(crate) enum FirstWord {
    Order,
    Winners,
    Conflicts,
    Plan,
    Deploy,
    Check,
    Status,
    Settle,
    Purge,
    Recover,
    Batch,
    Enable,
    Disable,
    Rule,
    DropRule,
    Override,
    DropOverride,
    Upgrade,
    Release,
    Sample,
}

impl FirstWord {
    ghost use Rattle.command_words.specs.Form.{first_named};

    // The first word with this text.
    pub(crate) fn named(word: &str) -> Option<FirstWord>
        ensures { result ≡ first_named word.now }
    {
        match word {
            "order" => Some(FirstWord::Order),
            "winners" => Some(FirstWord::Winners),
            "conflicts" => Some(FirstWord::Conflicts),
            "plan" => Some(FirstWord::Plan),
            "deploy" => Some(FirstWord::Deploy),
            "check" => Some(FirstWord::Check),
            "status" => Some(FirstWord::Status),
            "settle" => Some(FirstWord::Settle),
            "purge" => Some(FirstWord::Purge),
            "recover" => Some(FirstWord::Recover),
            "batch" => Some(FirstWord::Batch),
            "enable" => Some(FirstWord::Enable),
            "disable" => Some(FirstWord::Disable),
            "rule" => Some(FirstWord::Rule),
            "drop-rule" => Some(FirstWord::DropRule),
            "override" => Some(FirstWord::Override),
            "drop-override" => Some(FirstWord::DropOverride),
            "upgrade" => Some(FirstWord::Upgrade),
            "release" => Some(FirstWord::Release),
            "sample" => Some(FirstWord::Sample),
            _ => None,
        }
    }
}
