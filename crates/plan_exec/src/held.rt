// What an error of the journal holds is spent.
ghost use Rattle.std.specs.Prelude.{◌≡◌, ◌≤◌, IfSome};
ghost use Rattle.tree_fs.specs.Story.{Along, disk_of};
ghost use Rattle.intent_journal.specs.declared.temp.Temp.{Temp};
ghost use Rattle.intent_journal.specs.Temps.{Temped};
ghost use Rattle.intent_journal.specs.Counts.{SyncsAtMost};
ghost use Rattle.plan_exec.specs.Causes.{of_tree};

use crate::ExecError;
use intent_journal::{Held, OpenIntent, TempFile, discard, leave};
use tree_fs::Tree;

// An intent stays on the disk, for recovery.
fn leave_some(intent: Option<OpenIntent>) {
    match intent {
        Some(intent) => leave(intent),
        None => {}
    }
}

// A temp is taken away; where that fails it stays until the next command takes it away.
fn discard_some<T: Tree>(temp: Option<TempFile>, tree: &mut T)
    ensures stops { T.tells → (which : Temp) → IfSome temp (λ t. t ≡ which) →
        Along (Temped which (disk_of (T.story tree.old))) (T.story tree.old) (T.story tree.new) }
    ensures syncs { T.tells → SyncsAtMost 0 (T.story tree.old) (T.story tree.new) }
    ensures later { T.faults tree.old ≤ T.faults tree.new }
{
    match temp {
        Some(temp) => match discard(temp, tree) {
            Ok(()) => {}
            Err(_) => {}
        },
        None => {}
    }
}

// Why the journal failed.
pub(crate) fn give_up<T: Tree>(held: Held, tree: &mut T) -> ExecError
    ensures error { result ≡ of_tree held.error }
    ensures stops { T.tells → (which : Temp) → IfSome held.temp (λ t. t ≡ which) →
        Along (Temped which (disk_of (T.story tree.old))) (T.story tree.old) (T.story tree.new) }
    ensures syncs { T.tells → SyncsAtMost 0 (T.story tree.old) (T.story tree.new) }
    ensures later { T.faults tree.old ≤ T.faults tree.new }
{
    let Held {
        error,
        intent,
        temp,
    } = held;
    leave_some(intent);
    discard_some(temp, tree);
    ExecError::from(error)
}
