// One entry of a plan: all looks come before anything is changed for it.
ghost use Rattle.std.specs.Prelude.{◌≡◌, ◌≢◌, IfOk, IfErr, OnOk, IfSome, MatchBool};
ghost use Rattle.std.specs.declared.option.Option.TheVariants.{None};
ghost use Rattle.fault_count.specs.Causes.{HasCause};
ghost use Rattle.tree_fs.specs.declared.name.Kind.TheVariants.{File, Absent, Folder};
ghost use Rattle.tree_fs.specs.declared.tree.TreeError.TheVariants as tree_error;
ghost use Rattle.tree_fs.specs.Spot.{spot_of, parent};
ghost use Rattle.tree_fs.specs.Disk.{kind_of, IsFile, none};
ghost use Rattle.tree_fs.specs.Story.{disk_of};
ghost use Rattle.tree_fs.specs.Calls.{IsFolder};
ghost use Rattle.tree_fs.specs.Frames.{Touches};
ghost use Rattle.desk_model.specs.Desk.{file_or_none};
ghost use Rattle.desk_model.specs.Outcome.{file_at};
ghost use Rattle.plan_exec.specs.declared.error.ExecError.TheVariants.{Failed};
ghost use Rattle.plan_exec.specs.Counts.{Runs};
ghost use Rattle.plan_exec.specs.Frames.{Brings};
ghost use Rattle.plan_exec.specs.Causes.{Tells, StillBut, source_by, place_by, parent_by, link_obstacle};
ghost use Rattle.plan_exec.specs.Causes.{clear_obstacle, set_obstacle, save_obstacle};

use crate::ExecError;
use move_plan::SetRow;
use tree_fs::{Kind, Place, Tree, TreeError};

// A source must be a file.
fn expect_file<T: Tree>(tree: &mut T, from: &Place) -> Result<(), ExecError>
    ensures same { T.tells → T.story tree.new ≡ T.story tree.old }
    ensures ok { T.tells →
        OnOk result (kind_of (disk_of (T.story tree.old)) (spot_of from.now) ≡ File) }
    ensures told { T.tells →
        IfErr result (Tells (source_by (kind_of (disk_of (T.story tree.old)) (spot_of from.now))
        (spot_of from.now))) }
    ensures cause { HasCause Failed (T.faults tree.old) (T.faults tree.new) result }
{
    if tree.kind(from)? != Kind::File {
        return Err(ExecError::SourceGone(from.copy()?));
    }
    Ok(())
}

// A destination or clear must be a file or absent. Tells whether it is a file.
fn expect_open<T: Tree>(tree: &mut T, at: &Place) -> Result<bool, ExecError>
    ensures same { T.tells → T.story tree.new ≡ T.story tree.old }
    ensures ok { T.tells →
        IfOk result (λ there. MatchBool there
        (kind_of (disk_of (T.story tree.old)) (spot_of at.now) ≡ File)
        (kind_of (disk_of (T.story tree.old)) (spot_of at.now) ≡ Absent)) }
    ensures told { T.tells →
        IfErr result (Tells (clear_obstacle (disk_of (T.story tree.old)) at.now)) }
    ensures cause { HasCause Failed (T.faults tree.old) (T.faults tree.new) result }
{
    match tree.kind(at)? {
        Kind::File => Ok(true),
        Kind::Absent => Ok(false),
        _ => Err(ExecError::Blocked(at.copy()?)),
    }
}

// A parent must be a folder.
pub(crate) fn expect_folder<T: Tree>(tree: &mut T, above: &Place) -> Result<(), ExecError>
    ensures same { T.tells → T.story tree.new ≡ T.story tree.old }
    ensures ok { T.tells →
        OnOk result (kind_of (disk_of (T.story tree.old)) (spot_of above.now) ≡ Folder) }
    ensures told { T.tells →
        IfErr result (Tells (parent_by (kind_of (disk_of (T.story tree.old)) (spot_of above.now))
        (spot_of above.now))) }
    ensures cause { HasCause Failed (T.faults tree.old) (T.faults tree.new) result }
{
    if tree.kind(above)? != Kind::Folder {
        return Err(ExecError::Blocked(above.copy()?));
    }
    Ok(())
}

// The looks for a set with a source: the source, the place and its parent. Tells whether the place
// is a file.
fn look_for_set<T: Tree>(
    tree: &mut T,
    from: &Place,
    to: &Place,
    above: &Place,
) -> Result<bool, ExecError>
    requires above { spot_of above.now ≡ parent (spot_of to.now) }
    ensures same { T.tells → T.story tree.new ≡ T.story tree.old }
    ensures source { T.tells →
        OnOk result (kind_of (disk_of (T.story tree.old)) (spot_of from.now) ≡ File) }
    ensures place { T.tells →
        IfOk result (λ there. MatchBool there
        (kind_of (disk_of (T.story tree.old)) (spot_of to.now) ≡ File)
        (kind_of (disk_of (T.story tree.old)) (spot_of to.now) ≡ Absent)) }
    ensures folder { T.tells →
        OnOk result (kind_of (disk_of (T.story tree.old)) (parent (spot_of to.now)) ≡ Folder) }
    ensures told { T.tells →
        IfErr result (Tells
        (link_obstacle (disk_of (T.story tree.old)) (spot_of from.now) (spot_of to.now))) }
    ensures cause { HasCause Failed (T.faults tree.old) (T.faults tree.new) result }
{
    expect_file(tree, from)?;
    let there = expect_open(tree, to)?;
    expect_folder(tree, above)?;
    Ok(there)
}

// A place that is no file must be absent.
fn expect_absent(there: Kind, at: &Place) -> Result<(), ExecError>
    requires { there ≢ File }
    ensures ok { OnOk result (there ≡ Absent) }
    ensures told { IfErr result (Tells (place_by there (spot_of at.now))) }
    ensures no_fault { IfErr result (λ e. e ≢ Failed) }
{
    if there != Kind::Absent {
        return Err(ExecError::Blocked(at.copy()?));
    }
    Ok(())
}

// The looks for a save whose place was looked at and is no file: the source, the place and its
// parent.
fn look_for_save<T: Tree>(
    tree: &mut T,
    there: Kind,
    save: &(Place, Place),
    above: &Place,
) -> Result<(), ExecError>
    requires above { spot_of above.now ≡ parent (spot_of save.now.1) }
    requires there { T.tells → there ≡ kind_of (disk_of (T.story tree.old)) (spot_of save.now.1) }
    requires no_file { there ≢ File }
    ensures same { T.tells → T.story tree.new ≡ T.story tree.old }
    ensures source { T.tells →
        OnOk result (kind_of (disk_of (T.story tree.old)) (spot_of save.now.0) ≡ File) }
    ensures place { T.tells →
        OnOk result (kind_of (disk_of (T.story tree.old)) (spot_of save.now.1) ≡ Absent) }
    ensures folder { T.tells →
        OnOk result (kind_of (disk_of (T.story tree.old)) (parent (spot_of save.now.1)) ≡ Folder) }
    ensures told { T.tells →
        IfErr result (Tells (link_obstacle (disk_of (T.story tree.old)) (spot_of save.now.0)
        (spot_of save.now.1))) }
    ensures cause { HasCause Failed (T.faults tree.old) (T.faults tree.new) result }
{
    expect_file(tree, &save.0)?;
    expect_absent(there, &save.1)?;
    expect_folder(tree, above)?;
    Ok(())
}

// Takes its name from a file where one is there.
fn make_room<T: Tree>(tree: &mut T, there: bool, at: &Place) -> Result<(), TreeError>
    requires { T.tells →
        MatchBool there (kind_of (disk_of (T.story tree.old)) (spot_of at.now) ≡ File)
        (kind_of (disk_of (T.story tree.old)) (spot_of at.now) ≡ Absent) }
    ensures stops { T.tells →
        Runs 0 (Touches (spot_of at.now) none (disk_of (T.story tree.old))) (T.story tree.old)
        (T.story tree.new) }
    ensures done { T.tells →
        OnOk result ((disk_of (T.story tree.new)).now (spot_of at.now) ≡ none) }
    ensures cause { HasCause tree_error.Failed (T.faults tree.old) (T.faults tree.new) result }
{
    if there {
        return tree.unlink(at);
    }
    Ok(())
}

// Gives a place the file of another, in place of what it has.
fn relink<T: Tree>(tree: &mut T, there: bool, from: &Place, to: &Place) -> Result<(), TreeError>
    requires source { T.tells → IsFile (disk_of (T.story tree.old)) (spot_of from.now) }
    requires place { T.tells →
        MatchBool there (kind_of (disk_of (T.story tree.old)) (spot_of to.now) ≡ File)
        (kind_of (disk_of (T.story tree.old)) (spot_of to.now) ≡ Absent) }
    requires folder { T.tells → IsFolder (disk_of (T.story tree.old)) (parent (spot_of to.now)) }
    requires apart { T.tells → spot_of from.now ≢ spot_of to.now }
    ensures stops { T.tells →
        Runs 0 (Touches (spot_of to.now)
        (file_or_none ((disk_of (T.story tree.old)).now (spot_of from.now)))
        (disk_of (T.story tree.old))) (T.story tree.old) (T.story tree.new) }
    ensures done { T.tells →
        OnOk result ((disk_of (T.story tree.new)).now (spot_of to.now) ≡ file_or_none
        ((disk_of (T.story tree.old)).now (spot_of from.now))) }
    ensures cause { HasCause tree_error.Failed (T.faults tree.old) (T.faults tree.new) result }
{
    make_room(tree, there, to)?;
    tree.link(from, to)
}

// A place gets the file of its source.
fn bring<T: Tree>(tree: &mut T, from: &Place, to: &Place, above: &Place) -> Result<(), ExecError>
    requires apart { spot_of from.now ≢ spot_of to.now }
    requires above { spot_of above.now ≡ parent (spot_of to.now) }
    ensures stops { T.tells →
        Runs 0 (Touches (spot_of to.now)
        (file_or_none ((disk_of (T.story tree.old)).now (spot_of from.now)))
        (disk_of (T.story tree.old))) (T.story tree.old) (T.story tree.new) }
    ensures done { T.tells →
        OnOk result ((disk_of (T.story tree.new)).now (spot_of to.now) ≡ file_or_none
        ((disk_of (T.story tree.old)).now (spot_of from.now))) }
    ensures free { T.tells →
        OnOk result (link_obstacle (disk_of (T.story tree.old)) (spot_of from.now)
        (spot_of to.now) ≡ None) }
    ensures told { T.tells →
        IfErr result (Tells
        (link_obstacle (disk_of (T.story tree.old)) (spot_of from.now) (spot_of to.now))) }
    ensures still { T.tells → IfErr result (StillBut (T.story tree.old) (T.story tree.new)) }
    ensures cause { HasCause Failed (T.faults tree.old) (T.faults tree.new) result }
{
    let there = look_for_set(tree, from, to, above)?;
    Ok(relink(tree, there, from, to)?)
}

// A place gets no file.
pub(crate) fn take<T: Tree>(tree: &mut T, at: &Place) -> Result<(), ExecError>
    ensures stops { T.tells →
        Runs 0 (Touches (spot_of at.now) none (disk_of (T.story tree.old))) (T.story tree.old)
        (T.story tree.new) }
    ensures done { T.tells →
        OnOk result ((disk_of (T.story tree.new)).now (spot_of at.now) ≡ none) }
    ensures free { T.tells →
        OnOk result (clear_obstacle (disk_of (T.story tree.old)) at.now ≡ None) }
    ensures told { T.tells →
        IfErr result (Tells (clear_obstacle (disk_of (T.story tree.old)) at.now)) }
    ensures still { T.tells → IfErr result (StillBut (T.story tree.old) (T.story tree.new)) }
    ensures cause { HasCause Failed (T.faults tree.old) (T.faults tree.new) result }
{
    let there = expect_open(tree, at)?;
    Ok(make_room(tree, there, at)?)
}

// One set.
pub(crate) fn put_one<T: Tree>(tree: &mut T, row: &SetRow, above: &Place) -> Result<(), ExecError>
    requires apart { IfSome row.now.from (λ p. spot_of p ≢ spot_of row.now.to) }
    requires above { spot_of above.now ≡ parent (spot_of row.now.to) }
    ensures stops { T.tells →
        Runs 0 (Touches (spot_of row.now.to)
        (file_at (disk_of (T.story tree.old)).now row.now.from) (disk_of (T.story tree.old)))
        (T.story tree.old) (T.story tree.new) }
    ensures done { T.tells →
        OnOk result ((disk_of (T.story tree.new)).now (spot_of row.now.to) ≡ file_at
        (disk_of (T.story tree.old)).now row.now.from) }
    ensures free { T.tells →
        OnOk result (set_obstacle (disk_of (T.story tree.old)) row.now ≡ None) }
    ensures told { T.tells →
        IfErr result (Tells (set_obstacle (disk_of (T.story tree.old)) row.now)) }
    ensures still { T.tells → IfErr result (StillBut (T.story tree.old) (T.story tree.new)) }
    ensures cause { HasCause Failed (T.faults tree.old) (T.faults tree.new) result }
{
    match &row.from {
        Some(from) => bring(tree, from, &row.to, above),
        None => take(tree, &row.to),
    }
}

// A save whose place was looked at and is no file.
fn save_to<T: Tree>(
    tree: &mut T,
    there: Kind,
    save: &(Place, Place),
    above: &Place,
) -> Result<(), ExecError>
    requires above { spot_of above.now ≡ parent (spot_of save.now.1) }
    requires there { T.tells → there ≡ kind_of (disk_of (T.story tree.old)) (spot_of save.now.1) }
    requires no_file { there ≢ File }
    ensures stops { T.tells →
        Runs 0 (Touches (spot_of save.now.1)
        (file_or_none ((disk_of (T.story tree.old)).now (spot_of save.now.0)))
        (disk_of (T.story tree.old))) (T.story tree.old) (T.story tree.new) }
    ensures done { T.tells →
        OnOk result (IsFile (disk_of (T.story tree.new)) (spot_of save.now.1)) }
    ensures free { T.tells →
        OnOk result (link_obstacle (disk_of (T.story tree.old)) (spot_of save.now.0)
        (spot_of save.now.1) ≡ None) }
    ensures told { T.tells →
        IfErr result (Tells (link_obstacle (disk_of (T.story tree.old)) (spot_of save.now.0)
        (spot_of save.now.1))) }
    ensures still { T.tells → IfErr result (StillBut (T.story tree.old) (T.story tree.new)) }
    ensures cause { HasCause Failed (T.faults tree.old) (T.faults tree.new) result }
{
    look_for_save(tree, there, save, above)?;
    Ok(tree.link(&save.0, &save.1)?)
}

// One save. A destination that is a file needs no source.
pub(crate) fn save_one<T: Tree>(
    tree: &mut T,
    save: &(Place, Place),
    above: &Place,
) -> Result<(), ExecError>
    requires above { spot_of above.now ≡ parent (spot_of save.now.1) }
    ensures stops { T.tells →
        Runs 0 (Brings (spot_of save.now.1)
        (file_or_none ((disk_of (T.story tree.old)).now (spot_of save.now.0)))
        (disk_of (T.story tree.old))) (T.story tree.old) (T.story tree.new) }
    ensures done { T.tells →
        OnOk result (IsFile (disk_of (T.story tree.new)) (spot_of save.now.1)) }
    ensures free { T.tells →
        OnOk result (save_obstacle (disk_of (T.story tree.old)) save.now ≡ None) }
    ensures told { T.tells →
        IfErr result (Tells (save_obstacle (disk_of (T.story tree.old)) save.now)) }
    ensures still { T.tells → IfErr result (StillBut (T.story tree.old) (T.story tree.new)) }
    ensures cause { HasCause Failed (T.faults tree.old) (T.faults tree.new) result }
{
    let there = tree.kind(&save.1)?;
    if there == Kind::File {
        return Ok(());
    }
    save_to(tree, there, save, above)
}
