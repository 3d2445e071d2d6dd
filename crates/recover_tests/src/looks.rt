// What has to stand at control places, so that a call may be made.
ghost use Rattle.std.specs.Prelude.{◌≡◌, OnOk};
ghost use Rattle.tree_fs.specs.Texts.{control_spot};
ghost use Rattle.tree_fs.specs.Story.{disk_of};
ghost use Rattle.tree_mem.specs.MemStory.{mem_story};
ghost use Rattle.intent_journal.specs.declared.temp.Temp.{Temp};
ghost use Rattle.intent_journal.specs.Temps.{temp_spot, IsFileOrAbsent};

use rel_paths::Control;
use test_worlds::{WorldError, kind_at};
use tree_fs::{Kind, Place};
use tree_mem::MemTree;

// Fails where something else than a file stands there.
pub fn need_open(tree: &mut MemTree, which: Control) -> Result<(), WorldError>
    ensures way { OnOk result
        (IsFileOrAbsent (disk_of (mem_story tree.new)) (control_spot which)) }
    ensures same { mem_story tree.new ≡ mem_story tree.old }
{
    match kind_at(tree, &Place::control(which))? {
        Kind::File => Ok(()),
        Kind::Absent => Ok(()),
        _ => Err(WorldError::Taken),
    }
}

// Fails where something else than a file is a temp.
pub fn need_temps(tree: &mut MemTree) -> Result<(), WorldError>
    ensures way { OnOk result ((which : Temp) →
        IsFileOrAbsent (disk_of (mem_story tree.new)) (temp_spot which)) }
    ensures same { mem_story tree.new ≡ mem_story tree.old }
{
    need_open(tree, Control::IntentTemp)?;
    need_open(tree, Control::ManifestTemp)?;
    need_open(tree, Control::ProfileTemp)
}
