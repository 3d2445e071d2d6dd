// The profile's new text comes to its place.
ghost use Rattle.std.specs.Prelude.{◌≡◌, ◌≤◌, OnOk, None, Some};
ghost use Rattle.fault_count.specs.Causes.{HasCause};
ghost use Rattle.tree_fs.specs.declared.tree.TreeError.TheVariants.{Failed};
ghost use Rattle.tree_fs.specs.Story.{Along, disk_of};
ghost use Rattle.desk_model.specs.Edited.{Edited};
ghost use Rattle.desk_model.specs.History.{KeepsPlain};
ghost use Rattle.desk_model.specs.Outcome.{outcome_now};
ghost use Rattle.desk_model.specs.Places.{profile_spot};
ghost use Rattle.intent_journal.specs.declared.temp.Temp.TheVariants.{Profile};
ghost use Rattle.intent_journal.specs.Counts.{SyncsAtMost};
ghost use Rattle.intent_journal.specs.Temps.{temp_spot, IsFileOrAbsent, Temped};
ghost use Rattle.plan_exec.specs.Ending.{IsOldOr, StopsOldOrNew};
ghost use Rattle.plan_run.specs.Quiet.{IsQuiet};
ghost use Rattle.profile_write.specs.Written.{Written};

use intent_journal::{Held, OpenIntent, Temp, TempFile, discard, install, leave, write_temp};
use tree_fs::{Tree, TreeError};

fn leave_some(intent: Option<OpenIntent>) {
    match intent {
        Some(intent) => leave(intent),
        None => {}
    }
}

// The temp is taken away; where that fails it stays until the next command takes it away.
fn discard_some<T: Tree>(temp: Option<TempFile>, tree: &mut T)
    requires { temp ≡ Some Profile }
    ensures stops { T.tells →
        Along (Temped Profile (disk_of (T.story tree.old))) (T.story tree.old) (T.story tree.new) }
    ensures syncs { T.tells → SyncsAtMost 0 (T.story tree.old) (T.story tree.new) }
    ensures later { T.faults tree.old ≤ T.faults tree.new }
{
    match temp {
        Some(temp) => match discard(temp, tree) {
            Ok(()) => {}
            Err(_) => {}
        },
        None => {}
    }
}

// Why the temp didn't come to its place, and nothing is held any more.
fn give_up<T: Tree>(held: Held, tree: &mut T) -> TreeError
    requires { held.temp ≡ Some Profile }
    ensures error { result ≡ held.error }
    ensures stops { T.tells →
        Along (Temped Profile (disk_of (T.story tree.old))) (T.story tree.old) (T.story tree.new) }
    ensures syncs { T.tells → SyncsAtMost 0 (T.story tree.old) (T.story tree.new) }
    ensures later { T.faults tree.old ≤ T.faults tree.new }
{
    let Held {
        error,
        intent,
        temp,
    } = held;
    leave_some(intent);
    discard_some(temp, tree);
    error
}

/// Writes the profile: its file has these bytes then.
///
/// The clauses speak of a disk that stands with nothing pending, without an intent and without
/// temps. After Ok the desk is the one with this profile, and the disk is again such a disk. Each
/// disk that a stop leaves has the old desk or that one, and so has the disk after an error.
pub fn write_profile<T: Tree>(tree: &mut T, text: &[u8]) -> Result<(), TreeError>
    requires temp { T.tells →
        IsFileOrAbsent (disk_of (T.story tree.old)) (temp_spot Profile) }
    requires place { T.tells → IsFileOrAbsent (disk_of (T.story tree.old)) profile_spot }
    ensures done { T.tells → IsQuiet (disk_of (T.story tree.old)) →
        OnOk result
        (Written text.now (disk_of (T.story tree.old)) (disk_of (T.story tree.new))) }
    ensures stops { T.tells → IsQuiet (disk_of (T.story tree.old)) →
        StopsOldOrNew (Edited (disk_of (T.story tree.old)) (Some text.now))
        (T.story tree.old) (T.story tree.new) }
    ensures leaves { T.tells → IsQuiet (disk_of (T.story tree.old)) →
        IsOldOr (disk_of (T.story tree.old)) (Edited (disk_of (T.story tree.old)) (Some text.now))
        (outcome_now (disk_of (T.story tree.new))) }
    ensures keeps { T.tells → IsQuiet (disk_of (T.story tree.old)) →
        Along (KeepsPlain (disk_of (T.story tree.old))) (T.story tree.old) (T.story tree.new) }
    ensures syncs { T.tells → SyncsAtMost 1 (T.story tree.old) (T.story tree.new) }
    ensures cause { HasCause Failed (T.faults tree.old) (T.faults tree.new) result }
{
    let temp = write_temp(tree, Temp::Profile, text)?;
    match install(temp, tree) {
        Ok(()) => Ok(()),
        Err(held) => Err(give_up(held, tree)),
    }
}
