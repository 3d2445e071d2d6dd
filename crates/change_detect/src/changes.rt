// The changes of a manifest's rows.
ghost use Rattle.std.specs.Prelude.{◌≡◌, ◌++◌, ◌∷◌, [], None, IfOk, IfErr, IfSome, OnOk, option_to_list};
ghost use Rattle.std.specs.List.{AllByRecursion};
ghost use Rattle.fault_count.specs.Causes.{HasCause};
ghost use Rattle.manifest_json.specs.Paths.{AreRising};
ghost use Rattle.manifest_json.specs.Records.{paths_of};
ghost use Rattle.manifest_json.specs.Sound.{IsRow};
ghost use Rattle.tree_fs.specs.Story.{disk_of};
ghost use Rattle.change_detect.specs.Classes.{class_of, quick_class_of};
ghost use Rattle.change_detect.specs.Changes.{change_of, changes_by, change_paths};
ghost use Rattle.change_detect.specs.Refusals.{first_blocked, IsChangeRefusal};
ghost use Rattle.change_detect.specs.Tests.{told_by};
ghost use Rattle.change_detect.specs.declared.error.ChangeError.TheVariants.{Failed};

use crate::classes::{Test, row_class};
use crate::places::row_places;
use crate::{ChangeError, Class};
use manifest_json::{Manifest, Row};
use rel_paths::RelPath;
use std::alloc::{AllocError, Global};
use tree_fs::Tree;

/// A row whose files aren't what was deployed.
#[derive(Drop)]
pub struct Change {
    /// The row's path.
    pub path: RelPath,
    pub class: Class,
}

// The change of a row, none where it is clean.
fn row_change<T: Tree>(
    alloc: Global,
    tree: &mut T,
    row: &Row,
    test: Test,
) -> Result<Option<Change>, ChangeError>
    requires { IsRow row.now }
    ensures answer { T.tells →
        IfOk result (λ change.
        change ≡ change_of row.now (told_by test (class_of (disk_of (T.story tree.old)) row.now))) }
    ensures path { IfOk result (λ change. IfSome change (λ c. c.path ≡ row.now.path)) }
    ensures open { T.tells →
        OnOk result (first_blocked (disk_of (T.story tree.old)) (row.now ∷ []) ≡ None) }
    ensures refused { T.tells →
        IfErr result (IsChangeRefusal (disk_of (T.story tree.old)) (row.now ∷ [])) }
    ensures same { T.tells → T.story tree.new ≡ T.story tree.old }
    ensures cause { HasCause Failed (T.faults tree.old) (T.faults tree.new) result }
{
    let places = row_places(alloc, row)?;
    let Some(class) = row_class(tree, row, &places, test)? else {
        return Ok(None);
    };
    Ok(Some(Change {
        path: row.path.copy()?,
        class,
    }))
}

// Adds a change, where there is one.
fn add(changes: &mut Vec<Change>, change: Option<Change>) -> Result<(), AllocError>
    ensures { OnOk result (changes.new.items ≡ changes.old.items ++ option_to_list change) }
{
    match change {
        Some(change) => changes.push(change)?,
        None => {}
    }
    Ok(())
}

// The changes of rows, as the test tells them.
fn row_changes<T: Tree>(
    alloc: Global,
    tree: &mut T,
    rows: &[Row],
    test: Test,
) -> Result<Vec<Change>, ChangeError>
    requires rows { AllByRecursion IsRow rows.now }
    requires order { AreRising (paths_of rows.now) }
    ensures answer { T.tells →
        let d = disk_of (T.story tree.old) in
        IfOk result (λ changes.
        changes.items ≡ changes_by (λ r. told_by test (class_of d r)) rows.now) }
    ensures order { IfOk result (λ changes. AreRising (change_paths changes.items)) }
    ensures open { T.tells →
        OnOk result (first_blocked (disk_of (T.story tree.old)) rows.now ≡ None) }
    ensures refused { T.tells →
        IfErr result (IsChangeRefusal (disk_of (T.story tree.old)) rows.now) }
    ensures same { T.tells → T.story tree.new ≡ T.story tree.old }
    ensures cause { HasCause Failed (T.faults tree.old) (T.faults tree.new) result }
{
    let mut changes = Vec::new(alloc);
    for row in rows {
        let change = row_change(alloc, tree, row, test)?;
        add(&mut changes, change)?;
    }
    Ok(changes)
}

/// The rows of a manifest that aren't what was deployed, in path order, by what stands at their
/// places. It reads no file: a file that was edited in place, under both its names, isn't found.
///
/// `Blocked` is told at the first row whose place in `game`, or then in `stage`, has a folder or
/// something odd. For each row it looks once at each of the two places, and once whether they have
/// one file.
pub fn quick_changes<T: Tree>(
    alloc: Global,
    tree: &mut T,
    old: &Manifest,
) -> Result<Vec<Change>, ChangeError>
    ensures answer { T.tells →
        let d = disk_of (T.story tree.old) in
        IfOk result (λ changes. changes.items ≡ changes_by (quick_class_of d) old.now.rows) }
    ensures order { IfOk result (λ changes. AreRising (change_paths changes.items)) }
    ensures open { T.tells →
        OnOk result (first_blocked (disk_of (T.story tree.old)) old.now.rows ≡ None) }
    ensures refused { T.tells →
        IfErr result (IsChangeRefusal (disk_of (T.story tree.old)) old.now.rows) }
    ensures same { T.tells → T.story tree.new ≡ T.story tree.old }
    ensures cause { HasCause Failed (T.faults tree.old) (T.faults tree.new) result }
{
    row_changes(alloc, tree, old.rows.as_slice(), Test::Quick)
}

/// The rows of a manifest that aren't what was deployed, in path order.
///
/// It does what `quick_changes` does, and reads besides each file that both places of a row have,
/// once, 65,536 bytes at a time.
pub fn all_changes<T: Tree>(
    alloc: Global,
    tree: &mut T,
    old: &Manifest,
) -> Result<Vec<Change>, ChangeError>
    ensures answer { T.tells →
        let d = disk_of (T.story tree.old) in
        IfOk result (λ changes. changes.items ≡ changes_by (class_of d) old.now.rows) }
    ensures order { IfOk result (λ changes. AreRising (change_paths changes.items)) }
    ensures open { T.tells →
        OnOk result (first_blocked (disk_of (T.story tree.old)) old.now.rows ≡ None) }
    ensures refused { T.tells →
        IfErr result (IsChangeRefusal (disk_of (T.story tree.old)) old.now.rows) }
    ensures same { T.tells → T.story tree.new ≡ T.story tree.old }
    ensures cause { HasCause Failed (T.faults tree.old) (T.faults tree.new) result }
{
    row_changes(alloc, tree, old.rows.as_slice(), Test::Whole)
}
