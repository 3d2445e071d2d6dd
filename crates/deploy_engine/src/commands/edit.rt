// The edits: the profile is changed and written.
ghost use Rattle.std.specs.Prelude.{◌≡◌, IfOk};
ghost use Rattle.fault_count.specs.Causes.{HasCause};
ghost use Rattle.profile_edit.specs.Edits.{HasUserPath};
ghost use Rattle.answer_lines.specs.Told.{fixed_line};
ghost use Rattle.deploy_engine.specs.EditWork.{edit_work, line_of};
ghost use Rattle.deploy_engine.specs.Carried.{Carried};

use crate::Limits;
use crate::commands::Report;
use answer_lines::FixedLine;
use command_steps::{Stop, edit_profile, profile_of, start_change};
use profile_edit::Edit;
use profile_write::put_profile;
use std::alloc::{AllocError, Global};
use tree_fs::Tree;

pub(crate) fn change_profile<T: Tree>(
    alloc: Global,
    edit: &Edit,
    limits: &Limits,
    tree: &mut T,
) -> Result<Report, Stop>
    requires { HasUserPath edit.now }
    ensures carried { T.tells →
        Carried (edit_work edit.now) limits.now (T.story tree.old) (T.story tree.new) result }
    ensures cause { HasCause Stop.TreeFault (T.faults tree.old) (T.faults tree.new) result }
{
    start_change(tree)?;
    let mut profile = profile_of(alloc, tree, limits)?;
    let changed = edit_profile(alloc, &mut profile, edit, limits)?;
    let lines = fixed_text(alloc, line_of(changed))?;
    if !changed {
        return Ok(Report {
            lines,
            changes: false,
        });
    }
    put_profile(alloc, tree, profile)?;
    Ok(Report {
        lines,
        changes: false,
    })
}

// Tells whether the profile is written.
fn line_of(changed: bool) -> FixedLine
    ensures { result ≡ line_of changed }
{
    if changed {
        FixedLine::ProfileWritten
    } else {
        FixedLine::ProfileUnchanged
    }
}

fn fixed_text(alloc: Global, line: FixedLine) -> Result<Vec<u8>, AllocError>
    ensures { IfOk result (λ text. text.items ≡ fixed_line line) }
{
    Vec::from_clones(alloc, line.text().as_bytes())
}
