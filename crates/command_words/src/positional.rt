// The words after a first word that takes no options, by `clap`.
ghost use Rattle.std.specs.Prelude.{◌≡◌, IfOk, IfErr, Some, None, drop, IsUtf8};
ghost use Rattle.std.specs.List.{All};
ghost use Rattle.clap.specs.Words.{app_of};
ghost use Rattle.command_words.specs.Apps.{bare_app, rest_app, given_words};
ghost use Rattle.command_words.specs.Positionals.{positionals};
ghost use Rattle.command_words.specs.Words.{texts};

use crate::WordError;
use crate::error::word_error;
use clap::{Arg, ArgAction, ArgMatches, Command};
use std::alloc::{AllocError, Global};
use std::convert::AsStr;

// Each word is text, as every `&str` is: a proof needs to be told.
pub(crate) fn see_texts(words: &[&str])
    ensures { All (λ w. IsUtf8 w.now) words.now }
{
    for word in words {
        let _text = word.as_str();
    }
}

// A command with no flag of `clap`'s own.
pub(crate) fn bare_command<'a>(alloc: Global, name: &'a str) -> Command<'a>
    ensures { app_of result ≡ bare_app name.now }
{
    Command::new(alloc, name)
        .disable_help_flag(true)
        .disable_version_flag(true)
}

fn rest_command<'a>(alloc: Global, name: &'a str) -> Result<Command<'a>, AllocError>
    ensures { IfOk result (λ c. app_of c ≡ rest_app name.now) }
{
    let rest = Arg::new(alloc, "words").action(ArgAction::Append);
    bare_command(alloc, name).arg(rest)
}

fn rest_matches<'a>(
    alloc: Global,
    name: &'a str,
    words: &'a [&'a str],
) -> Result<ArgMatches<'a>, WordError>
    ensures ok { IfOk result (λ m. positionals (drop 1 (texts words.now))
        ≡ Some (given_words m)) }
    ensures usage { IfErr result (λ e. e ≡ WordError.Usage
        → positionals (drop 1 (texts words.now)) ≡ None) }
{
    see_texts(words);
    let command = rest_command(alloc, name)?;
    match command.try_get_matches_from(words) {
        Ok(matches) => Ok(matches),
        Err(e) => Err(word_error(e.kind())),
    }
}

// The positional words after the first of `words`, where no others are there.
pub(crate) fn positional_words<'a>(
    alloc: Global,
    name: &'a str,
    words: &'a [&'a str],
) -> Result<Vec<&'a str>, WordError>
    ensures ok { IfOk result (λ given. positionals (drop 1 (texts words.now))
        ≡ Some (texts given.items)) }
    ensures usage { IfErr result (λ e. e ≡ WordError.Usage
        → positionals (drop 1 (texts words.now)) ≡ None) }
{
    let matches = rest_matches(alloc, name, words)?;
    match matches.get_raw("words") {
        Some(given) => Ok(given.to_vec(alloc)?),
        None => Ok(Vec::new(alloc)),
    }
}
