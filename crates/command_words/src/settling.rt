// The words after `settle`, by `clap`.
ghost use Rattle.std.specs.Prelude.{◌≡◌, true, false, IfOk, IfErr, IfSome, None, Some, drop, option_map};
ghost use Rattle.change_choices.specs.Allowed.{is_allowed};
ghost use Rattle.clap.specs.Words.{app_of, rule_of, first_value, found_of};
ghost use Rattle.command_words.specs.Apps.{GivesUses, option_rule, settle_app};
ghost use Rattle.command_words.specs.Options.{options};
ghost use Rattle.command_words.specs.Settling.{action_for, choices_by, settled, settled_by};
ghost use Rattle.command_words.specs.Paths.{SetsUserPath};
ghost use Rattle.command_words.specs.Words.{texts};

use crate::command::Command;
use crate::error::{WordError, word_error};
use crate::positional::{bare_command, see_texts};
use change_choices::{Action, Choices, Class, PathActions, allowed};
use clap::{Arg, ArgAction, ArgMatches};
use std::alloc::{AllocError, Global};

fn option<'a>(alloc: Global, name: &'a str) -> Arg<'a>
    ensures rule { rule_of result ≡ option_rule name.now }
    ensures global { result.global ≡ false }
{
    Arg::new(alloc, name).long(name).action(ArgAction::Set)
}

fn settle_command<'a>(alloc: Global, name: &'a str) -> Result<clap::Command<'a>, AllocError>
    ensures { IfOk result (λ c. app_of c ≡ settle_app name.now) }
{
    let from_input = Arg::new(alloc, "from-input")
        .long("from-input")
        .action(ArgAction::SetTrue);
    bare_command(alloc, name)
        .arg(option(alloc, "replaced"))?
        .arg(option(alloc, "changed"))?
        .arg(option(alloc, "deleted"))?
        .arg(option(alloc, "source-deleted"))?
        .arg(option(alloc, "gone"))?
        .arg(from_input)
}

fn settle_matches<'a>(
    alloc: Global,
    name: &'a str,
    words: &'a [&'a str],
) -> Result<ArgMatches<'a>, WordError>
    ensures ok { IfOk result (λ m. GivesUses (drop 1 (texts words.now)) m) }
    ensures usage { IfErr result (λ e. e ≡ WordError.Usage
        → options (drop 1 (texts words.now)) ≡ None) }
{
    see_texts(words);
    let command = settle_command(alloc, name)?;
    match command.try_get_matches_from(words) {
        Ok(matches) => Ok(matches),
        Err(e) => Err(word_error(e.kind())),
    }
}

// The action of a class: that of its option's value, or else the default.
fn action_for(class: Class, default: &str, value: Option<&str>) -> Option<Action>
    ensures action { result
        ≡ option_map (λ a. a.0) (action_for class default.now (option_map (λ v. v.now) value.entry)) }
    ensures allowed { IfSome result (λ a. is_allowed class a ≡ true) }
{
    let action = Action::named(value.unwrap_or(default))?;
    if allowed(class, action) {
        Some(action)
    } else {
        None
    }
}

// The choices by what `clap` found.
fn choices_by(alloc: Global, matches: &ArgMatches<'_>) -> Option<Choices>
    ensures { result ≡ choices_by (first_value (found_of matches.now)) }
{
    let replaced = action_for(Class::Replaced, "aside", matches.get_str("replaced"))?;
    let changed = action_for(Class::Changed, "keep", matches.get_str("changed"))?;
    let deleted = action_for(Class::Deleted, "restore", matches.get_str("deleted"))?;
    let source_deleted = action_for(
        Class::SourceDeleted,
        "restore",
        matches.get_str("source-deleted"),
    )?;
    let gone = action_for(Class::Gone, "drop", matches.get_str("gone"))?;
    Some(Choices {
        replaced,
        changed,
        deleted,
        source_deleted,
        gone,
        paths: PathActions::new(alloc),
    })
}

// The settlement by what `clap` found.
fn settled_by(alloc: Global, matches: &ArgMatches<'_>) -> Option<Command>
    ensures { result ≡ settled_by (first_value (found_of matches.now)) }
{
    let choices = choices_by(alloc, matches)?;
    let from_input = matches.get_str("from-input").unwrap_or("false") == "true";
    Some(Command::Settle {
        choices,
        from_input,
    })
}

// The settlement that the words after `settle`, the first of `words`, say.
pub(crate) fn settle<'a>(
    alloc: Global,
    name: &'a str,
    words: &'a [&'a str],
) -> Result<Command, WordError>
    ensures ok { IfOk result (λ c. settled (drop 1 (texts words.now)) ≡ Some c) }
    ensures usage { IfErr result (λ e. e ≡ WordError.Usage
        → settled (drop 1 (texts words.now)) ≡ None) }
    ensures user_path { IfOk result SetsUserPath }
{
    let matches = settle_matches(alloc, name, words)?;
    settled_by(alloc, &matches).ok_or(WordError::Usage)
}
