// The command that words say.
ghost use Rattle.std.specs.Prelude.{◌≡◌, IfOk, IfSome};
ghost use Rattle.command_words.specs.Paths.{SetsUserPath};
ghost use Rattle.command_words.specs.Words.{texts};
ghost use Rattle.deploy_engine.specs.Words.{command_said, in_batch, line_words, line_said, TakesInput};

use command_words::{Command, WordError, read_words};
use std::alloc::{AllocError, Global};

/// The command that the words say.
pub(crate) fn command_of(alloc: Global, words: &[&str]) -> Result<Option<Command>, AllocError>
    ensures said { IfOk result (λ command. command ≡ command_said (texts words.now)) }
    ensures user_path { IfOk result (λ command. IfSome command SetsUserPath) }
{
    match read_words(alloc, words) {
        Ok(command) => Ok(Some(command)),
        Err(WordError::Usage) => Ok(None),
        Err(WordError::Memory) => Err(AllocError),
    }
}

fn words_of(alloc: Global, line: &str) -> Result<Vec<&str>, AllocError>
    ensures { IfOk result (λ words. texts words.items ≡ line_words line.now) }
{
    line.split('\t').collect(alloc)
}

// The command, where a line of a batch may say it.
fn in_batch(command: Option<Command>) -> Option<Command>
    ensures is { result ≡ in_batch command }
    ensures no_input { ¬ TakesInput result }
{
    match command {
        Some(Command::Batch) => None,
        Some(
            Command::Settle {
                from_input: true,
                ..
            },
        ) => None,
        command => command,
    }
}

/// The command that a line of a batch says. Its words are parted by single tabs.
pub(crate) fn command_of_line(alloc: Global, line: &str) -> Result<Option<Command>, AllocError>
    ensures said { IfOk result (λ command. command ≡ line_said line.now) }
    ensures user_path { IfOk result (λ command. IfSome command SetsUserPath) }
    ensures no_input { IfOk result (λ command. ¬ TakesInput command) }
{
    let words = words_of(alloc, line)?;
    let command = command_of(alloc, words.as_slice())?;
    Ok(in_batch(command))
}
