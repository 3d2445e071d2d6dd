// What is done with each row.
ghost use Rattle.std.specs.Prelude.{◌≡◌, ◌<◌, IfOk, Option, map, drop};
ghost use Rattle.manifest_json.specs.declared.manifest.Row.{Row};
ghost use Rattle.manifest_json.specs.Paths.{AreRising};
ghost use Rattle.manifest_json.specs.Records.{paths_of};
ghost use Rattle.change_choices.specs.declared.choices.Choices.{Choices};
ghost use Rattle.change_choices.specs.declared.class.Class.{Class};
ghost use Rattle.change_choices.specs.Choice.{choice};
ghost use Rattle.change_detect.specs.Changes.{changes_by};
ghost use Rattle.desk_model.specs.Settled.{deed_for};
ghost use Rattle.change_settle.specs.Decides.{GivesChoice};
ghost use Rattle.change_settle.specs.Tasks.{deed_seen, first_class, index_with, task_row, task_seen, tasks_by};

use crate::Decider;
use crate::acts::{Act, act_for};
use change_choices::{Action, Class};
use change_detect::Change;
use manifest_json::Row;
use rel_paths::RelPath;
use std::alloc::{AllocError, Global};

/// A row of the old manifest, and what is done with it.
#[derive(Clone, Copy)]
pub(crate) struct Task<'a> {
    pub row: &'a Row,
    pub act: Act,
}

// The class of a path, where the change of this index is that path's.
fn class_at(changes: &[Change], index: usize, path: &RelPath) -> Option<Class>
    ensures { result ≡ first_class (drop index changes.now) path.now }
{
    match changes.get(index) {
        Some(change) => {
            if change.path == *path {
                Some(change.class)
            } else {
                None
            }
        }
        None => None,
    }
}

// The index of the next change, where this one was that of a row or not.
fn index_after(index: usize, class: Option<Class>) -> usize
    requires { index < usize.MAX }
    ensures { result ≡ index_with class index }
{
    match class {
        Some(_) => index + 1,
        None => index,
    }
}

// What is done with a row whose change is of this class.
fn act_of<F: Fn(&str, Class) -> Action>(
    decider: &Decider<F>,
    path: &RelPath,
    class: Option<Class>,
) -> Act
    requires { F.IsAlwaysCallable decider.now.choose }
    ensures { (choices : Choices) → GivesChoice (F.post decider.now.choose) choices
        → deed_seen result ≡ deed_for (choice choices path.now) class }
{
    match class {
        Some(class) => act_for(class, decider.decide(path, class)),
        None => Act::Leave,
    }
}

/// What is done with each row: `changes` are those of the rows, in their order. Each action is the
/// decider's.
pub(crate) fn tasks<'a, F: Fn(&str, Class) -> Action>(
    alloc: Global,
    rows: &'a [Row],
    changes: &[Change],
    decider: &Decider<F>,
) -> Result<Vec<Task<'a>>, AllocError>
    requires order { AreRising (paths_of rows.now) }
    requires callable { F.IsAlwaysCallable decider.now.choose }
    ensures rows { IfOk result (λ tasks. map task_row tasks.items ≡ rows.now) }
    ensures deeds { (choices : Choices) (class : Row → Option Class)
        → GivesChoice (F.post decider.now.choose) choices → changes.now ≡ changes_by class rows.now
        → IfOk result (λ tasks.
        map task_seen tasks.items ≡ tasks_by (choice choices) class rows.now) }
{
    let mut tasks = Vec::with_capacity(alloc, rows.len())?;
    let mut next = 0;
    for row in rows {
        let class = class_at(changes, next, &row.path);
        next = index_after(next, class);
        let act = act_of(decider, &row.path, class);
        tasks.push(Task { row, act })?;
    }
    Ok(tasks)
}
