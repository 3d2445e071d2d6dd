// What one line says.
ghost use Rattle.std.specs.Prelude.{◌≡◌, ℕ, List, IfSome, None};
ghost use Rattle.manifest_json.specs.Paths.{AreRising};
ghost use Rattle.change_choices.specs.declared.action.Action.{Action};
ghost use Rattle.change_detect.specs.Changes.{change_paths};
ghost use Rattle.choice_lines.specs.Answers.{answer_line, Fits};

use crate::changes::change_at;
use change_choices::{Action, allowed};
use change_detect::Change;
use rel_paths::RelPath;

/// The path and the action of a line, where the action may be taken for the change at the path.
///
/// No word of an action has a tab, so the line is parted at its last one.
pub(crate) fn answer_of<'a>(changes: &'a [Change], line: &str) -> Option<(&'a RelPath, Action)>
    requires { AreRising (change_paths changes.now) }
    ensures text { IfSome result (λ a. line.now ≡ answer_line (a.0.now, a.1)) }
    ensures fits { IfSome result (λ a. Fits changes.now (a.0.now, a.1)) }
    ensures none { result ≡ None → (answer : List ℕ × Action) → line.now ≡ answer_line answer
        → Fits changes.now answer → ⊥ }
{
    let (path, word) = line.rsplit_once('\t')?;
    let action = Action::named(word)?;
    let change = change_at(changes, path)?;
    if allowed(change.class, action) {
        Some((&change.path, action))
    } else {
        None
    }
}
