// The command that words say.
ghost use Rattle.std.specs.Prelude.{◌≡◌, None, Some, IfOk, IfErr};
ghost use Rattle.command_words.specs.Form.{form, plain_form, nothing};
ghost use Rattle.command_words.specs.Paths.{SetsUserPath};
ghost use Rattle.command_words.specs.Words.{texts};

use crate::command::Command;
use crate::error::WordError;
use crate::first_word::FirstWord;
use crate::given::{id_and_version, id_kind_id, only_id, only_number, only_path, path_and_id};
use crate::positional::positional_words;
use crate::settling::settle;
use profile_edit::Edit;
use std::alloc::Global;

// The command, where no words are given.
fn nothing(command: Command, given: &[&str]) -> Result<Command, WordError>
    ensures ok { IfOk result (λ c. nothing command (texts given.now) ≡ Some c) }
    ensures usage { IfErr result (λ e. e ≡ WordError.Usage
        → nothing command (texts given.now) ≡ None) }
    ensures same { IfOk result (λ c. c ≡ command) }
{
    match *given {
        [] => Ok(command),
        _ => Err(WordError::Usage),
    }
}

// The command of a first word that takes no options, by its positional words.
fn plain(alloc: Global, first: FirstWord, given: &[&str]) -> Result<Command, WordError>
    ensures ok { IfOk result (λ c. plain_form first (texts given.now) ≡ Some c) }
    ensures usage { IfErr result (λ e. e ≡ WordError.Usage
        → plain_form first (texts given.now) ≡ None) }
    ensures user_path { IfOk result SetsUserPath }
{
    match first {
        FirstWord::Order => nothing(Command::Order, given),
        FirstWord::Winners => nothing(Command::Winners, given),
        FirstWord::Conflicts => nothing(Command::Conflicts, given),
        FirstWord::Plan => nothing(Command::Plan, given),
        FirstWord::Deploy => nothing(Command::Deploy, given),
        FirstWord::Check => nothing(Command::Check, given),
        FirstWord::Status => nothing(Command::Status, given),
        FirstWord::Purge => nothing(Command::Purge, given),
        FirstWord::Recover => nothing(Command::Recover, given),
        FirstWord::Batch => nothing(Command::Batch, given),
        FirstWord::Enable => Ok(Command::Edit(Edit::Enable(only_id(alloc, given)?))),
        FirstWord::Disable => Ok(Command::Edit(Edit::Disable(only_id(alloc, given)?))),
        FirstWord::Rule => {
            let (mod_id, kind, refers) = id_kind_id(alloc, given)?;
            Ok(Command::Edit(Edit::AddRule {
                mod_id,
                kind,
                refers,
            }))
        }
        FirstWord::DropRule => {
            let (mod_id, kind, refers) = id_kind_id(alloc, given)?;
            Ok(Command::Edit(Edit::DropRule {
                mod_id,
                kind,
                refers,
            }))
        }
        FirstWord::Override => {
            let (path, mod_id) = path_and_id(alloc, given)?;
            Ok(Command::Edit(Edit::SetOverride { path, mod_id }))
        }
        FirstWord::DropOverride => {
            Ok(Command::Edit(Edit::DropOverride(only_path(alloc, given)?)))
        }
        FirstWord::Upgrade => nothing(Command::Edit(Edit::Upgrade), given),
        FirstWord::Release => {
            let (mod_id, release) = id_and_version(alloc, given)?;
            Ok(Command::Edit(Edit::Release { mod_id, release }))
        }
        FirstWord::Sample => Ok(Command::Sample(only_number(given).ok_or(WordError::Usage)?)),
        FirstWord::Settle => Err(WordError::Usage),
    }
}

/// The command that the words say, which are those after the program's name. `Usage` is for words
/// that say none. The path of an override to be set is a user path.
pub fn read_words(alloc: Global, words: &[&str]) -> Result<Command, WordError>
    ensures ok { IfOk result (λ c. form (texts words.now) ≡ Some c) }
    ensures usage { IfErr result (λ e. e ≡ WordError.Usage → form (texts words.now) ≡ None) }
    ensures user_path { IfOk result SetsUserPath }
{
    match *words {
        [] => Err(WordError::Usage),
        [word, ..] => match FirstWord::named(word) {
            None => Err(WordError::Usage),
            Some(FirstWord::Settle) => settle(alloc, word, words),
            Some(first) => {
                let given = positional_words(alloc, word, words)?;
                plain(alloc, first, given.as_slice())
            }
        },
    }
}
