// `settle --from-input`: actions for single paths, a line of input each.
ghost use Rattle.std.specs.Prelude.{◌≡◌};
ghost use Rattle.fault_count.specs.Rose.{Rose};
ghost use Rattle.choice_lines.specs.declared.error.InputError.TheVariants.{Unread};
ghost use Rattle.io_edge.specs.declared.lines.LineError.{LineError};
ghost use Rattle.deploy_engine.specs.SettleWork.{answered_work};
ghost use Rattle.deploy_engine.specs.Works.{Moves};
ghost use Rattle.deploy_engine.specs.Answers.{Says, Ends, Caused, ReadsInput};
ghost use Rattle.deploy_engine.specs.Batches.{IsBadInput};

use crate::batch::{refuse_input, tell_unread};
use crate::commands::settle::{choices_with, find_changes, settle_found};
use crate::engine::tell;
use crate::{Answer, Limits};
use answer_lines::InputRefusal;
use change_choices::Choices;
use choice_lines::{InputError, read_choices};
use io_edge::{Sink, Source};
use std::alloc::Global;
use tree_fs::Tree;

// Tells of an input whose lines aren't all answers.
fn tell_bad_input<K: Sink>(alloc: Global, error: InputError, sink: &mut K) -> Answer
    ensures ends { Ends (IsBadInput error)
        K.tells (K.written sink.old) (K.written sink.new) result }
    ensures causes { Caused ⊥ (error ≡ Unread LineError.Failed)
        (Rose (K.faults sink.old) (K.faults sink.new)) result }
{
    match error {
        InputError::Unread(error) => tell_unread(alloc, error, sink),
        InputError::BadAnswer(line) => refuse_input(alloc, InputRefusal::BadAnswer(line), sink),
    }
}

/// Settles each change by the action that a line of the source says for its path, otherwise by the
/// action of its class. The source is read to its end before anything but the barrier is done.
pub(crate) fn settle_by_input<T: Tree, S: Source, K: Sink>(
    alloc: Global,
    choices: Choices,
    limits: &Limits,
    tree: &mut T,
    source: &mut S,
    sink: &mut K,
) -> Answer
    ensures ends { Ends (Says (T.tells × S.tells) (answered_work (S.left source.old) choices)
        limits.now (T.story tree.old) (T.story tree.new))
        K.tells (K.written sink.old) (K.written sink.new) result }
    ensures stops { T.tells → S.tells → Moves (answered_work (S.left source.old) choices)
        (T.story tree.old) (T.story tree.new) }
    ensures input { ReadsInput T.tells S.tells (S.left source.new)
        (T.story tree.old) (T.story tree.new) result }
    ensures causes { Caused (Rose (T.faults tree.old) (T.faults tree.new))
        (Rose (S.faults source.old) (S.faults source.new))
        (Rose (K.faults sink.old) (K.faults sink.new)) result }
{
    match find_changes(alloc, limits, tree) {
        Ok(found) => match read_choices(alloc, found.changes.as_slice(), source) {
            Ok(paths) => {
                let choices = choices_with(choices, paths);
                let came = settle_found(alloc, &choices, &found, limits, tree);
                tell(alloc, came, sink)
            }
            Err(error) => tell_bad_input(alloc, error, sink),
        },
        Err(stop) => tell(alloc, Err(stop), sink),
    }
}
