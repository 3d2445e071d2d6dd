// The choices that lines say.
ghost use Rattle.std.specs.Prelude.{◌≡◌, ◌≢◌, [], None, IfErr, IfSome, IfOk, OnOk};
ghost use Rattle.std.specs.List.{AllByRecursion};
ghost use Rattle.std.specs.Map.{lookup};
ghost use Rattle.std.specs.Str.{bytes_eq};
ghost use Rattle.std.specs.Str.Lines.{lines};
ghost use Rattle.fault_count.specs.Causes.{HasCause};
ghost use Rattle.io_edge.specs.declared.lines.LineError.TheVariants.{Failed, Memory};
ghost use Rattle.manifest_json.specs.Paths.{AreRising};
ghost use Rattle.change_detect.specs.Changes.{change_paths};
ghost use Rattle.choice_lines.specs.Answers.{answer_line, Fits, AddsAnswer, AreAnswers, AreRead};
ghost use Rattle.choice_lines.specs.Refusals.{IsNoAnswer, IsFirstRefused};
ghost use Rattle.choice_lines.specs.declared.error.InputError.TheVariants.{Unread, BadAnswer};

use crate::InputError;
use crate::answer::answer_of;
use change_choices::{Action, PathActions};
use change_detect::Change;
use io_edge::{Line, LineReader, Source};
use rel_paths::RelPath;
use std::alloc::Global;

// What the line says of a path that has no action yet.
fn new_answer<'a>(
    changes: &'a [Change],
    line: &str,
    earlier: &PathActions,
) -> Option<(&'a RelPath, Action)>
    requires { AreRising (change_paths changes.now) }
    ensures text { IfSome result (λ a. line.now ≡ answer_line (a.0.now, a.1)) }
    ensures fits { IfSome result (λ a. Fits changes.now (a.0.now, a.1)) }
    ensures fresh { IfSome result (λ a. lookup (bytes_eq a.0.now) earlier.now ≡ None) }
    ensures none { result ≡ None → IsNoAnswer changes.now earlier.now line.now }
{
    let (path, action) = answer_of(changes, line)?;
    match earlier.get(path) {
        Some(_) => None,
        None => Some((path, action)),
    }
}

// Adds what the line says. An empty line says nothing.
fn add_line(changes: &[Change], line: &Line, actions: &mut PathActions) -> Result<(), InputError>
    requires { AreRising (change_paths changes.now) }
    ensures added { OnOk result (AddsAnswer changes.now line.now.text actions.old actions.new) }
    ensures bad { IfErr result (λ e. e ≢ Unread Memory → e ≡ BadAnswer line.now.number) }
    ensures some { IfErr result (λ e. e ≢ Unread Memory → line.now.text ≢ []) }
    ensures none { IfErr result (λ e. e ≢ Unread Memory
        → IsNoAnswer changes.now actions.old line.now.text) }
{
    if line.text.is_empty() {
        return Ok(());
    }
    let Some((path, action)) = new_answer(changes, line.text.as_str(), actions) else {
        return Err(InputError::BadAnswer(line.number));
    };
    actions.add(path.copy()?, action)?;
    Ok(())
}

/// The actions for single paths that the lines of a source say, in the order of the lines. Each
/// line has the path of one of the changes, which are in path order, a tab, and the word of an
/// action that is allowed for the change's class; empty lines say nothing.
///
/// The first line that can't be read, that isn't of this form, or whose path had an action before,
/// is told with its number. `Failed` comes only where the source's count of faults rose.
pub fn read_choices<S: Source>(
    alloc: Global,
    changes: &[Change],
    source: &mut S,
) -> Result<PathActions, InputError>
    requires { AreRising (change_paths changes.now) }
    ensures read { S.tells → OnOk result
        (AreRead 0 (S.left source.old) (lines (S.left source.old)) []) }
    ensures answers { S.tells → IfOk result
        (AreAnswers changes.now (lines (S.left source.old))) }
    ensures fit { IfOk result (AllByRecursion (Fits changes.now)) }
    ensures end { S.tells → OnOk result (S.left source.new ≡ []) }
    ensures refused { S.tells → IfErr result (λ e. e ≢ Unread Failed → e ≢ Unread Memory
        → IsFirstRefused changes.now (S.left source.old) e) }
    ensures cause { HasCause (Unread Failed) (S.faults source.old) (S.faults source.new) result }
{
    let mut reader = LineReader::new(alloc)?;
    let mut actions = PathActions::new(alloc);
    while let Some(line) = reader.next_line(source)? {
        add_line(changes, &line, &mut actions)?;
    }
    Ok(actions)
}
