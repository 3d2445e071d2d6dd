// `batch`: a list of commands, a line each.
ghost use Rattle.std.specs.Prelude.{◌≡◌, ◌≤◌, ◌↔◌, [], IsTrue};
ghost use Rattle.std.specs.Str.Lines.{lines};
ghost use Rattle.fault_count.specs.Rose.{Rose};
ghost use Rattle.deploy_engine.specs.Words.{line_said};
ghost use Rattle.deploy_engine.specs.Answers.{Ends, Caused, IsAlong, OnlyLooks};
ghost use Rattle.deploy_engine.specs.Batches.{SaysLine, Batched, IsUnread, IsInputRefused};

use crate::engine::{run_one, write_refusal};
use crate::words::command_of_line;
use crate::{Answer, Limits};
use answer_lines::{InputRefusal, Refusal};
use io_edge::{LineError, LineReader, Sink, Source};
use std::alloc::{AllocError, Global};
use tree_fs::Tree;

/// Refuses an input.
pub(crate) fn refuse_input<K: Sink>(alloc: Global, refusal: InputRefusal, sink: &mut K) -> Answer
    ensures ends { Ends (IsInputRefused refusal)
        K.tells (K.written sink.old) (K.written sink.new) result }
    ensures causes { Caused ⊥ ⊥ (Rose (K.faults sink.old) (K.faults sink.new)) result }
{
    write_refusal(alloc, Refusal::Input(refusal), sink)
}

/// Tells of a line that can't be read.
pub(crate) fn tell_unread<K: Sink>(alloc: Global, error: LineError, sink: &mut K) -> Answer
    ensures ends { Ends (IsUnread error)
        K.tells (K.written sink.old) (K.written sink.new) result }
    ensures causes { Caused ⊥ (error ≡ LineError.Failed)
        (Rose (K.faults sink.old) (K.faults sink.new)) result }
{
    match error {
        LineError::TooMany => refuse_input(alloc, InputRefusal::TooManyLines, sink),
        LineError::TooLong(line) => refuse_input(alloc, InputRefusal::LineTooLong(line), sink),
        LineError::NotText(line) => refuse_input(alloc, InputRefusal::BadLine(line), sink),
        LineError::Failed => Answer::SourceFault,
        LineError::Memory => Answer::Memory,
    }
}

fn is_ok(answer: &Answer) -> bool
    ensures { IsTrue result ↔ (answer.now ≡ Answer.Ok) }
{
    match answer {
        Answer::Ok => true,
        _ => false,
    }
}

// Does one line.
fn run_line<T: Tree, K: Sink>(
    alloc: Global,
    line: &str,
    limits: &Limits,
    tree: &mut T,
    sink: &mut K,
) -> Answer
    ensures ends { Ends
        (SaysLine T.tells line.now limits.now (T.story tree.old) (T.story tree.new))
        K.tells (K.written sink.old) (K.written sink.new) result }
    ensures stops { T.tells → IsAlong [] (line_said line.now)
        (T.story tree.old) (T.story tree.new) }
    ensures looks { T.tells → OnlyLooks (line_said line.now)
        → T.story tree.new ≡ T.story tree.old }
    ensures causes { Caused (Rose (T.faults tree.old) (T.faults tree.new)) ⊥
        (Rose (K.faults sink.old) (K.faults sink.new)) result }
    ensures tree_later { T.faults tree.old ≤ T.faults tree.new }
    ensures sink_later { K.faults sink.old ≤ K.faults sink.new }
{
    if line.is_empty() {
        return Answer::Ok;
    }
    tree.forget();
    match command_of_line(alloc, line) {
        Ok(command) => run_one(alloc, command, limits, tree, sink),
        Err(AllocError) => Answer::Memory,
    }
}

/// Does the commands of the source's lines one after the other, to the end of input or to the first
/// that doesn't answer Ok, whose answer is the batch's.
pub(crate) fn run_batch<T: Tree, S: Source, K: Sink>(
    alloc: Global,
    limits: &Limits,
    tree: &mut T,
    source: &mut S,
    sink: &mut K,
) -> Answer
    ensures batched { Batched T.tells K.tells S.tells limits.now (lines (S.left source.old)) (S.left source.new)
        (T.story tree.old) (T.story tree.new) (K.written sink.old) (K.written sink.new) result }
    ensures causes { Caused (Rose (T.faults tree.old) (T.faults tree.new))
        (Rose (S.faults source.old) (S.faults source.new))
        (Rose (K.faults sink.old) (K.faults sink.new)) result }
{
    let Ok(mut reader) = LineReader::new(alloc) else {
        return Answer::Memory;
    };
    for _ in 0..u64::MAX {
        match reader.next_line(source) {
            Ok(Some(line)) => {
                let answer = run_line(alloc, line.text.as_str(), limits, tree, sink);
                if !is_ok(&answer) {
                    return answer;
                }
            }
            Ok(None) => return Answer::Ok,
            Err(error) => return tell_unread(alloc, error, sink),
        }
    }
    Answer::Memory
}
