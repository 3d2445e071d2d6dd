// The actions of an input, by the texts of their paths.
ghost use Rattle.std.specs.Prelude.{◌≡◌, ℕ, List, IfOk, OnOk, if◌then◌else◌};
ghost use Rattle.std.specs.HashMap.{get_by_text};
ghost use Rattle.std.specs.List.{AllByRecursion};
ghost use Rattle.std.specs.Map.{lookup};
ghost use Rattle.std.specs.Option.{option_or};
ghost use Rattle.std.specs.Str.{bytes_eq};
ghost use Rattle.choice_lines.specs.Answers.{Fits};

use change_choices::{Action, PathActions};
use change_detect::Change;
use rel_paths::RelPath;
use std::alloc::{AllocError, Global};
use std::collections::HashMap;

// Puts in the action of a path, where it has one.
fn put_text(
    alloc: Global,
    texts: &mut HashMap<String, Action>,
    path: &RelPath,
    action: Option<Action>,
) -> Result<(), AllocError>
    ensures { OnOk result ((text : List ℕ) → get_by_text texts.new text
        ≡ (if bytes_eq path.now text then option_or action (get_by_text texts.old text)
        else get_by_text texts.old text)) }
{
    if let Some(action) = action {
        texts.insert(String::from_str(alloc, path.text())?, action)?;
    }
    Ok(())
}

/// The same actions by the texts of their paths, where each is for the path of one of the changes.
pub fn actions_by_text(
    alloc: Global,
    changes: &[Change],
    actions: &PathActions,
) -> Result<HashMap<String, Action>, AllocError>
    requires { AllByRecursion (Fits changes.now) actions.now }
    ensures { IfOk result (λ texts. (text : List ℕ) →
        get_by_text texts text ≡ lookup (bytes_eq text) actions.now) }
{
    let mut texts = HashMap::new(alloc);
    for change in changes {
        put_text(alloc, &mut texts, &change.path, actions.get(&change.path))?;
    }
    Ok(texts)
}
