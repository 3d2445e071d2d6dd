// One call of the engine.
ghost use Rattle.std.specs.Prelude.{◌≡◌, ◌≢◌, ◌⊎◌, ◌↔◌, ◌≤◌, ℕ, List, true, IfSome, IsTrue};
ghost use Rattle.std.specs.Prelude.{Some, Err, IfOk, IfErr, if◌then◌else◌};
ghost use Rattle.std.specs.Str.Lines.{lines};
ghost use Rattle.fault_count.specs.Rose.{Rose};
ghost use Rattle.fault_count.specs.Causes.{HasCause};
ghost use Rattle.tree_fs.specs.Disk.{Disk};
ghost use Rattle.tree_fs.specs.Story.{Story, disk_of};
ghost use Rattle.change_choices.specs.declared.choices.Choices.{Choices};
ghost use Rattle.command_words.specs.declared.command.Command.{Command};
ghost use Rattle.command_words.specs.Paths.{SetsUserPath};
ghost use Rattle.command_words.specs.Words.{texts};
ghost use Rattle.answer_lines.specs.Told.{fixed_line};
ghost use Rattle.command_steps.specs.declared.stop.Stop.{Stop};
ghost use Rattle.command_steps.specs.Orders.{AllPass, IsFirst};
ghost use Rattle.deploy_engine.specs.Words.{command_said, TakesInput};
ghost use Rattle.deploy_engine.specs.Works.{NeverGivesUp};
ghost use Rattle.deploy_engine.specs.Table.{work_of};
ghost use Rattle.deploy_engine.specs.Carried.{Carried};
ghost use Rattle.deploy_engine.specs.Batches.{Batched};
ghost use Rattle.deploy_engine.specs.Answers.{sink_answer, SaysOf, Ends, Caused, IsSpoken, IsThis, IsSaid, IsAlong};
ghost use Rattle.deploy_engine.specs.Answers.{OnlyLooks, IsDoneOrMemory, answer_of};
ghost use Rattle.deploy_engine.specs.Answers.{AreTold, ReadsInput};

use crate::batch::run_batch;
use crate::by_input::settle_by_input;
use crate::commands::Report;
use crate::commands::check::tell_changes;
use crate::commands::conflicts::tell_conflicts;
use crate::commands::deploy::deploy;
use crate::commands::edit::change_profile;
use crate::commands::order::tell_order;
use crate::commands::plan::tell_plan;
use crate::commands::purge::purge;
use crate::commands::recover::recover_left;
use crate::commands::sample::tell_sample;
use crate::commands::settle::settle;
use crate::commands::status::tell_status;
use crate::commands::winners::tell_winners;
use crate::words::command_of;
use crate::{Answer, Limits};
use answer_lines::{FixedLine, Refusal, refusal_line};
use change_choices::Choices;
use command_steps::Stop;
use command_words::Command;
use io_edge::{IoError, Sink, Source, push_all};
use std::alloc::Global;
use tree_fs::Tree;

fn sink_answer(error: IoError) -> Answer
    ensures { result ≡ sink_answer error }
{
    match error {
        IoError::Failed => Answer::SinkFault,
        IoError::Memory => Answer::Memory,
    }
}

// Writes a text, and answers so.
fn write_text<K: Sink>(text: &[u8], answer: Answer, sink: &mut K) -> Answer
    requires { IsSpoken answer }
    ensures ends { Ends (IsThis answer text.now)
        K.tells (K.written sink.old) (K.written sink.new) result }
    ensures causes { Caused ⊥ ⊥ (Rose (K.faults sink.old) (K.faults sink.new)) result }
    ensures later { K.faults sink.old ≤ K.faults sink.new }
{
    match push_all(sink, text) {
        Ok(()) => answer,
        Err(error) => sink_answer(error),
    }
}

fn write_fixed<K: Sink>(line: FixedLine, answer: Answer, sink: &mut K) -> Answer
    requires { IsSpoken answer }
    ensures ends { Ends (IsThis answer (fixed_line line))
        K.tells (K.written sink.old) (K.written sink.new) result }
    ensures causes { Caused ⊥ ⊥ (Rose (K.faults sink.old) (K.faults sink.new)) result }
    ensures later { K.faults sink.old ≤ K.faults sink.new }
{
    write_text(line.text().as_bytes(), answer, sink)
}

pub(crate) fn write_refusal<K: Sink>(alloc: Global, refusal: Refusal, sink: &mut K) -> Answer
    ensures ends { Ends (IsSaid (Err (Stop.Refused refusal)))
        K.tells (K.written sink.old) (K.written sink.new) result }
    ensures causes { Caused ⊥ ⊥ (Rose (K.faults sink.old) (K.faults sink.new)) result }
    ensures later { K.faults sink.old ≤ K.faults sink.new }
{
    let Ok(line) = refusal_line(alloc, &refusal) else {
        return Answer::Memory;
    };
    write_text(line.as_slice(), Answer::Refused(refusal), sink)
}

// How a command answers that did its work.
fn done_answer(changes: bool) -> Answer
    ensures is { result ≡ (if changes then Answer.Changes else Answer.Ok) }
    ensures spoken { IsSpoken result }
{
    if changes { Answer::Changes } else { Answer::Ok }
}

/// Tells what came of a command.
pub(crate) fn tell<K: Sink>(alloc: Global, came: Result<Report, Stop>, sink: &mut K) -> Answer
    ensures ends { Ends (IsSaid came) K.tells (K.written sink.old) (K.written sink.new) result }
    ensures causes { Caused (came ≡ Err Stop.TreeFault) ⊥
        (Rose (K.faults sink.old) (K.faults sink.new)) result }
    ensures later { K.faults sink.old ≤ K.faults sink.new }
{
    match came {
        Ok(report) => {
            let answer = done_answer(report.changes);
            write_text(report.lines.as_slice(), answer, sink)
        }
        Err(Stop::Refused(refusal)) => write_refusal(alloc, refusal, sink),
        Err(Stop::RecoverFirst) => write_fixed(FixedLine::RecoverFirst, Answer::RecoverFirst, sink),
        Err(Stop::TreeFault) => Answer::TreeFault,
        Err(Stop::Memory) => Answer::Memory,
    }
}

// Does what a command is.
fn carry_out<T: Tree>(
    alloc: Global,
    command: Command,
    limits: &Limits,
    tree: &mut T,
) -> Result<Report, Stop>
    requires no_input { ¬ TakesInput (Some command) }
    requires user_path { SetsUserPath command }
    ensures carried { T.tells → (input : List ℕ) →
        Carried (work_of input command) limits.now (T.story tree.old) (T.story tree.new) result }
    ensures cause { HasCause Stop.TreeFault (T.faults tree.old) (T.faults tree.new) result }
{
    match command {
        Command::Order => tell_order(alloc, limits, tree),
        Command::Winners => tell_winners(alloc, limits, tree),
        Command::Conflicts => tell_conflicts(alloc, limits, tree),
        Command::Plan => tell_plan(alloc, limits, tree),
        Command::Deploy => deploy(alloc, limits, tree),
        Command::Check => tell_changes(alloc, limits, tree),
        Command::Status => tell_status(alloc, limits, tree),
        Command::Settle {
            choices,
            from_input: false,
        } => settle(alloc, choices, limits, tree),
        Command::Purge => purge(alloc, limits, tree),
        Command::Recover => recover_left(alloc, tree),
        Command::Edit(edit) => change_profile(alloc, &edit, limits, tree),
        Command::Sample(number) => tell_sample(alloc, number),
        _ => unreachable!(),
    }
}

/// Does one command that takes no input, and tells of it, or tells that it is none.
pub(crate) fn run_one<T: Tree, K: Sink>(
    alloc: Global,
    command: Option<Command>,
    limits: &Limits,
    tree: &mut T,
    sink: &mut K,
) -> Answer
    requires no_input { ¬ TakesInput command }
    requires user_path { IfSome command SetsUserPath }
    ensures ends { (input : List ℕ) → Ends
        (SaysOf T.tells input command limits.now (T.story tree.old) (T.story tree.new))
        K.tells (K.written sink.old) (K.written sink.new) result }
    ensures stops { T.tells → (input : List ℕ)
        → IsAlong input command (T.story tree.old) (T.story tree.new) }
    ensures looks { T.tells → OnlyLooks command → T.story tree.new ≡ T.story tree.old }
    ensures causes { Caused (Rose (T.faults tree.old) (T.faults tree.new)) ⊥
        (Rose (K.faults sink.old) (K.faults sink.new)) result }
    ensures tree_later { T.faults tree.old ≤ T.faults tree.new }
    ensures sink_later { K.faults sink.old ≤ K.faults sink.new }
{
    match command {
        Some(command) => {
            let came = carry_out(alloc, command, limits, tree);
            tell(alloc, came, sink)
        }
        None => write_fixed(FixedLine::Usage, Answer::Usage, sink),
    }
}

fn is_batch(command: &Option<Command>) -> bool
    ensures { IsTrue result ↔ (command.now ≡ Some Command.Batch) }
{
    match command {
        Some(Command::Batch) => true,
        _ => false,
    }
}

// The choices of a settlement by input, or the command where it is another.
fn choices_by_input(command: Option<Command>) -> Result<Choices, Option<Command>>
    ensures settles { IfOk result (λ choices. command ≡ Some (Command.Settle choices true)) }
    ensures other { IfErr result (λ same. same ≡ command) }
    ensures no_input { IfErr result (λ same. same ≢ Some Command.Batch → ¬ TakesInput same) }
{
    match command {
        Some(
            Command::Settle {
                choices,
                from_input: true,
            },
        ) => Ok(choices),
        other => Err(other),
    }
}

// Does one command that isn't a list of commands, and tells of it, or tells that it is none.
fn run_alone<T: Tree, S: Source, K: Sink>(
    alloc: Global,
    command: Option<Command>,
    limits: &Limits,
    tree: &mut T,
    source: &mut S,
    sink: &mut K,
) -> Answer
    requires no_batch { command ≢ Some Command.Batch }
    requires user_path { IfSome command SetsUserPath }
    ensures ends { Ends
        (SaysOf (AreTold T.tells S.tells command) (S.left source.old) command limits.now
        (T.story tree.old) (T.story tree.new))
        K.tells (K.written sink.old) (K.written sink.new) result }
    ensures stops { AreTold T.tells S.tells command
        → IsAlong (S.left source.old) command (T.story tree.old) (T.story tree.new) }
    ensures looks { T.tells → OnlyLooks command → T.story tree.new ≡ T.story tree.old }
    ensures causes { Caused (Rose (T.faults tree.old) (T.faults tree.new))
        (TakesInput command × Rose (S.faults source.old) (S.faults source.new))
        (Rose (K.faults sink.old) (K.faults sink.new)) result }
    ensures input { (choices : Choices) → command ≡ Some (Command.Settle choices true)
        → ReadsInput T.tells S.tells (S.left source.new)
        (T.story tree.old) (T.story tree.new) result }
    ensures alone { ¬ TakesInput command → source.new ≡ source.old }
{
    match choices_by_input(command) {
        Ok(choices) => settle_by_input(alloc, choices, limits, tree, source, sink),
        Err(command) => run_one(alloc, command, limits, tree, sink),
    }
}

/// Carries out the command that the words say, and prints its lines.
///
/// Each command is a row of the table `work_of`: the steps at which it may be refused, in their
/// order, what it leaves and prints, and what a stop in it may find. `batch` does the commands of the
/// source's lines, whose words single tabs part, up to the first that doesn't answer Ok, whose answer
/// is the batch's. `settle --from-input` reads the source to its end before it changes anything: each
/// line has the path of a change, a tab and an action. `sample` makes no call on the tree.
///
/// Lines are written last. After `SinkFault` the work is done, and a prefix of its lines is written.
/// After `TreeFault` and `SourceFault` nothing is written. After `Memory` nothing is written, or it
/// is as after `SinkFault`. Of a batch this is said of its last line.
pub fn run<T: Tree, S: Source, K: Sink>(
    alloc: Global,
    words: &[&str],
    limits: &Limits,
    tree: &mut T,
    source: &mut S,
    sink: &mut K,
) -> Answer
    // What a command did, why, and what was written.
    ensures ends { let said = command_said (texts words.now) in said ≢ Some Command.Batch → Ends
        (SaysOf (AreTold T.tells S.tells said) (S.left source.old) said limits.now
        (T.story tree.old) (T.story tree.new))
        K.tells (K.written sink.old) (K.written sink.new) result }

    // The same of a batch, line by line.
    ensures batch { command_said (texts words.now) ≡ Some Command.Batch → Batched
        T.tells K.tells S.tells limits.now (lines (S.left source.old)) (S.left source.new)
        (T.story tree.old) (T.story tree.new) (K.written sink.old) (K.written sink.new) result }

    // What a stop finds.
    ensures stops { let said = command_said (texts words.now) in AreTold T.tells S.tells said
        → said ≢ Some Command.Batch
        → IsAlong (S.left source.old) said (T.story tree.old) (T.story tree.new) }

    // Which commands add no op, whatever they answer.
    ensures looks { T.tells → OnlyLooks (command_said (texts words.now))
        → T.story tree.new ≡ T.story tree.old }

    // Whom a fault blames.
    ensures causes { Caused (Rose (T.faults tree.old) (T.faults tree.new))
        (TakesInput (command_said (texts words.now))
        × Rose (S.faults source.old) (S.faults source.new))
        (Rose (K.faults sink.old) (K.faults sink.new)) result }

    // Where no step refuses and nothing fails.
    ensures complete { (command : Command) → command_said (texts words.now) ≡ Some command
        → command ≢ Command.Batch → AreTold T.tells S.tells (Some command)
        → NeverGivesUp (work_of (S.left source.old) command) (T.story tree.old)
        → AllPass (work_of (S.left source.old) command).steps limits.now (T.story tree.old)
        → ¬ Rose (T.faults tree.old) (T.faults tree.new)
        → (TakesInput (Some command) → ¬ Rose (S.faults source.old) (S.faults source.new))
        → ¬ Rose (K.faults sink.old) (K.faults sink.new) → IsDoneOrMemory result }

    // Where a step refuses and nothing fails.
    ensures turned_away { (command : Command) → command_said (texts words.now) ≡ Some command
        → command ≢ Command.Batch → AreTold T.tells S.tells (Some command)
        → (stop : Stop) (left : Story)
        → IsFirst (work_of (S.left source.old) command).steps limits.now
        (T.story tree.old) stop left
        → ¬ Rose (T.faults tree.old) (T.faults tree.new)
        → (TakesInput (Some command) → ¬ Rose (S.faults source.old) (S.faults source.new))
        → ¬ Rose (K.faults sink.old) (K.faults sink.new)
        → (result ≡ answer_of stop) ⊎ (result ≡ Answer.Memory) }

    // How far a settlement reads its input, and what it did where that isn't the end.
    ensures input { (choices : Choices)
        → command_said (texts words.now) ≡ Some (Command.Settle choices true)
        → ReadsInput T.tells S.tells (S.left source.new)
        (T.story tree.old) (T.story tree.new) result }

    // Only a batch and a settlement by input take input.
    ensures alone { ¬ TakesInput (command_said (texts words.now)) → source.new ≡ source.old }
{
    tree.forget();
    let Ok(command) = command_of(alloc, words) else {
        return Answer::Memory;
    };
    if is_batch(&command) {
        return run_batch(alloc, limits, tree, source, sink);
    }
    run_alone(alloc, command, limits, tree, source, sink)
}
