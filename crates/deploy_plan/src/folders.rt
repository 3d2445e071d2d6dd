// The paths at which there is no file any more in the end.
ghost use Rattle.std.specs.Prelude.{◌≡◌, IfOk, map, filter_map, option_map};
ghost use Rattle.std.specs.List.{AllByRecursion};
ghost use Rattle.tree_fs.specs.Places.{game_spot};
ghost use Rattle.deploy_plan.specs.Told.{IsGoodCase, case_seen, told_emptied};

use crate::cases::PathCase;
use plan_lists::push_some;
use rel_paths::RelPath;
use std::alloc::{AllocError, Global};

// The path at which there is no file any more in the end: that of the backup that goes back, or
// that of the row.
fn emptied_by(alloc: Global, case: PathCase) -> Result<Option<RelPath>, AllocError>
    requires { IsGoodCase (case_seen case) }
    ensures { IfOk result (λ path. option_map game_spot path ≡ told_emptied (case_seen case.entry)) }
{
    match case {
        PathCase::Leaves(row, true) => Ok(Some(row.path.backup_name(alloc)?)),
        PathCase::Leaves(row, false) => Ok(Some(row.path.copy()?)),
        PathCase::Stays(_) => Ok(None),
        PathCase::Turns(_, _) => Ok(None),
        PathCase::Comes(_) => Ok(None),
        PathCase::Covers(_) => Ok(None),
    }
}

// The paths at which there is no file any more in the end, in the order of the cases.
pub(crate) fn emptied_paths(alloc: Global, cases: &[PathCase]) -> Result<Vec<RelPath>, AllocError>
    requires { AllByRecursion (λ c. IsGoodCase (case_seen c)) cases.now }
    ensures { IfOk result (λ paths.
        map game_spot paths.items ≡ filter_map told_emptied (map case_seen cases.now)) }
{
    let mut paths = Vec::new(alloc);
    for case in cases {
        let path = emptied_by(alloc, *case)?;
        push_some(&mut paths, path)?;
    }
    Ok(paths)
}
