// The intent's place: an intent is begun, marked clear, and taken away.
ghost use Rattle.std.specs.Prelude.{◌≡◌, ◌≢◌, IfOk, IfErr, OnOk, IfSome};
ghost use Rattle.std.specs.declared.option.Option.{Option};
ghost use Rattle.std.specs.declared.option.Option.TheVariants.{None, Some};
ghost use Rattle.fault_count.specs.Causes.{HasCause};
ghost use Rattle.tree_fs.specs.declared.tree.TreeError.TheVariants.{Failed};
ghost use Rattle.tree_fs.specs.Disk.{none, put, kind_of};
ghost use Rattle.tree_fs.specs.declared.place.Root.TheVariants.{Keep};
ghost use Rattle.tree_fs.specs.Spot.{Spot, root_spot};
ghost use Rattle.tree_fs.specs.Story.{Along, disk_of};
ghost use Rattle.tree_fs.specs.Frames.{Touches, EntriesSettled};
ghost use Rattle.intent_json.specs.declared.intent.Intent.{Intent};
ghost use Rattle.intent_json.specs.Forms.{set_form, clear_form};
ghost use Rattle.intent_json.specs.Texts.{text_of};
ghost use Rattle.intent_json.specs.Reads.{intent_value};
ghost use Rattle.desk_model.specs.Places.{intent_spot};
ghost use Rattle.desk_model.specs.Standing.{Standing};
ghost use Rattle.desk_model.specs.Stops.{Leads};
ghost use Rattle.intent_journal.specs.declared.temp.Temp.TheVariants as temp;
ghost use Rattle.intent_journal.specs.Temps.{IsFileOrAbsent, IsFirmBut, Beside, Temped, IsInstalled};
ghost use Rattle.intent_journal.specs.Causes.{HeldHasCause};
ghost use Rattle.intent_journal.specs.Forms.{CanChange, StandsWith, HoldsForm, BetweenForms, BothStand, ToEither};
ghost use Rattle.intent_journal.specs.Counts.{SyncsAtMost};

use crate::guards::open_intent;
use crate::temps::sync_root;
use crate::{Held, OpenIntent, Ready, Temp, install, leave, write_temp};
use intent_json::Phase;
use rel_paths::Control;
use tree_fs::{Kind, Place, Root, Tree, TreeError};

// Puts an intent in place of none or of another.
fn change<T: Tree>(tree: &mut T, text: &[u8]) -> Result<(), Held>
    requires start { T.tells → CanChange (disk_of (T.story tree.old)) }
    ensures stops { T.tells → (was : Option Intent) (next : Intent)
        → intent_value text.now ≡ Some next
        → IsFirmBut (disk_of (T.story tree.old)) → HoldsForm was (disk_of (T.story tree.old))
        → Along (BetweenForms was (Some next) (disk_of (T.story tree.old)))
        (T.story tree.old) (T.story tree.new) }
    ensures only { T.tells →
        Along (Beside temp.Intent (disk_of (T.story tree.old)))
        (T.story tree.old) (T.story tree.new) }
    ensures stands { T.tells → Standing (disk_of (T.story tree.old))
        → StandsWith text.now (disk_of (T.story tree.old))
        → Along Standing (T.story tree.old) (T.story tree.new) }
    ensures done { T.tells →
        OnOk result (IsInstalled temp.Intent text.now (disk_of (T.story tree.new))) }
    ensures temp { IfErr result (λ held. IfSome held.temp (λ which. which ≡ temp.Intent)) }
    ensures intent { IfErr result (λ held. held.intent ≡ None) }
    ensures early { T.tells → IfErr result (λ held. held.temp ≡ None
        → Along (Temped temp.Intent (disk_of (T.story tree.old)))
        (T.story tree.old) (T.story tree.new)) }
    ensures syncs { T.tells → SyncsAtMost 1 (T.story tree.old) (T.story tree.new) }
    ensures cause { HeldHasCause (T.faults tree.old) (T.faults tree.new) result }
{
    match write_temp(tree, Temp::Intent, text) {
        Ok(temp) => install(temp, tree),
        Err(error) => Err(Held {
            error,
            intent: None,
            temp: None,
        }),
    }
}

/// Writes the set form of a plan's intent. Every stop leads where the intent place led, or where
/// the set form leads. The error holds the temp, once it is written.
pub fn begin<T: Tree>(tree: &mut T, ready: &Ready) -> Result<OpenIntent, Held>
    requires start { T.tells → CanChange (disk_of (T.story tree.old)) }
    ensures guard { IfOk result (λ intent. intent ≡ set_form ready.now) }
    ensures stops { T.tells → (was : Option Intent)
        → IsFirmBut (disk_of (T.story tree.old)) → HoldsForm was (disk_of (T.story tree.old))
        → Along (BetweenForms was (Some (set_form ready.now)) (disk_of (T.story tree.old)))
        (T.story tree.old) (T.story tree.new) }
    ensures leads { T.tells → (was : Option Intent) → HoldsForm was (disk_of (T.story tree.old))
        → BothStand was (Some (set_form ready.now)) (disk_of (T.story tree.old))
        → Along (Leads (ToEither (disk_of (T.story tree.old)) was (Some (set_form ready.now))))
        (T.story tree.old) (T.story tree.new) }
    ensures only { T.tells →
        Along (Beside temp.Intent (disk_of (T.story tree.old)))
        (T.story tree.old) (T.story tree.new) }
    ensures stands { T.tells → Standing (disk_of (T.story tree.old))
        → StandsWith (text_of (set_form ready.now)) (disk_of (T.story tree.old))
        → Along Standing (T.story tree.old) (T.story tree.new) }
    ensures done { T.tells → OnOk result
        (IsInstalled temp.Intent (text_of (set_form ready.now)) (disk_of (T.story tree.new))) }
    ensures holds { T.tells →
        OnOk result (HoldsForm (Some (set_form ready.now)) (disk_of (T.story tree.new))) }
    ensures temp { IfErr result (λ held. IfSome held.temp (λ which. which ≡ temp.Intent)) }
    ensures intent { IfErr result (λ held. held.intent ≡ None) }
    ensures early { T.tells → IfErr result (λ held. held.temp ≡ None
        → Along (Temped temp.Intent (disk_of (T.story tree.old)))
        (T.story tree.old) (T.story tree.new)) }
    ensures syncs { T.tells → SyncsAtMost 1 (T.story tree.old) (T.story tree.new) }
    ensures cause { HeldHasCause (T.faults tree.old) (T.faults tree.new) result }
{
    change(tree, ready.set_text())?;
    Ok(open_intent(Phase::Set, ready.plan()))
}

/// Writes the clear form of a plan's intent in place of its set form. Every stop leads where the
/// one or the other leads. The error holds the intent, and the temp, once it is written.
pub fn mark_clear<T: Tree>(
    intent: OpenIntent,
    tree: &mut T,
    ready: &Ready,
) -> Result<OpenIntent, Held>
    requires guard { intent ≡ set_form ready.now }
    requires start { T.tells → CanChange (disk_of (T.story tree.old)) }
    ensures guard { IfOk result (λ cleared. cleared ≡ clear_form ready.now) }
    ensures stops { T.tells → (was : Option Intent)
        → IsFirmBut (disk_of (T.story tree.old)) → HoldsForm was (disk_of (T.story tree.old))
        → Along (BetweenForms was (Some (clear_form ready.now)) (disk_of (T.story tree.old)))
        (T.story tree.old) (T.story tree.new) }
    ensures leads { T.tells → (was : Option Intent) → HoldsForm was (disk_of (T.story tree.old))
        → BothStand was (Some (clear_form ready.now)) (disk_of (T.story tree.old))
        → Along (Leads (ToEither (disk_of (T.story tree.old)) was (Some (clear_form ready.now))))
        (T.story tree.old) (T.story tree.new) }
    ensures only { T.tells →
        Along (Beside temp.Intent (disk_of (T.story tree.old)))
        (T.story tree.old) (T.story tree.new) }
    ensures stands { T.tells → Standing (disk_of (T.story tree.old))
        → StandsWith (text_of (clear_form ready.now)) (disk_of (T.story tree.old))
        → Along Standing (T.story tree.old) (T.story tree.new) }
    ensures done { T.tells → OnOk result
        (IsInstalled temp.Intent (text_of (clear_form ready.now)) (disk_of (T.story tree.new))) }
    ensures holds { T.tells →
        OnOk result (HoldsForm (Some (clear_form ready.now)) (disk_of (T.story tree.new))) }
    ensures temp { IfErr result (λ held. IfSome held.temp (λ which. which ≡ temp.Intent)) }
    ensures intent { IfErr result (λ held. held.intent ≡ Some intent) }
    ensures early { T.tells → IfErr result (λ held. held.temp ≡ None
        → Along (Temped temp.Intent (disk_of (T.story tree.old)))
        (T.story tree.old) (T.story tree.new)) }
    ensures syncs { T.tells → SyncsAtMost 1 (T.story tree.old) (T.story tree.new) }
    ensures cause { HeldHasCause (T.faults tree.old) (T.faults tree.new) result }
{
    match change(tree, ready.clear_text()) {
        Ok(()) => {
            leave(intent);
            Ok(open_intent(Phase::Clear, ready.plan()))
        }
        Err(held) => Err(with_intent(held, intent)),
    }
}

// An error that holds this intent too.
fn with_intent(held: Held, intent: OpenIntent) -> Held
    requires { held.intent ≡ None }
    ensures error { result.error ≡ held.error }
    ensures intent { result.intent ≡ Some intent }
    ensures temp { result.temp ≡ held.temp }
{
    let Held {
        error,
        intent: before,
        temp,
    } = held;
    if let Some(other) = before {
        leave(other);
    }
    Held {
        error,
        intent: Some(intent),
        temp,
    }
}

// Takes the intent away where it is a file.
fn remove<T: Tree>(tree: &mut T) -> Result<(), TreeError>
    requires { T.tells → IsFileOrAbsent (disk_of (T.story tree.old)) intent_spot }
    ensures stops { T.tells → (was : Option Intent)
        → IsFirmBut (disk_of (T.story tree.old)) → HoldsForm was (disk_of (T.story tree.old))
        → Along (BetweenForms was None (disk_of (T.story tree.old)))
        (T.story tree.old) (T.story tree.new) }
    ensures only { T.tells →
        Along (Touches intent_spot none (disk_of (T.story tree.old)))
        (T.story tree.old) (T.story tree.new) }
    ensures stands { T.tells → Standing (put (disk_of (T.story tree.old)) intent_spot none)
        → Along Standing (T.story tree.old) (T.story tree.new) }
    ensures done { T.tells → OnOk result ((disk_of (T.story tree.new)).now intent_spot ≡ none) }
    ensures syncs { T.tells → SyncsAtMost 0 (T.story tree.old) (T.story tree.new) }
    ensures cause { HasCause Failed (T.faults tree.old) (T.faults tree.new) result }
{
    let at = Place::control(Control::Intent);
    if tree.kind(&at)? == Kind::File {
        return tree.unlink(&at);
    }
    Ok(())
}

// Takes the intent away, and settles that.
fn close<T: Tree>(tree: &mut T) -> Result<(), TreeError>
    requires { T.tells → IsFileOrAbsent (disk_of (T.story tree.old)) intent_spot }
    ensures stops { T.tells → (was : Option Intent)
        → IsFirmBut (disk_of (T.story tree.old)) → HoldsForm was (disk_of (T.story tree.old))
        → Along (BetweenForms was None (disk_of (T.story tree.old)))
        (T.story tree.old) (T.story tree.new) }
    ensures only { T.tells →
        Along (Touches intent_spot none (disk_of (T.story tree.old)))
        (T.story tree.old) (T.story tree.new) }
    ensures stands { T.tells → Standing (put (disk_of (T.story tree.old)) intent_spot none)
        → Along Standing (T.story tree.old) (T.story tree.new) }
    ensures done { T.tells → OnOk result (HoldsForm None (disk_of (T.story tree.new))) }
    ensures syncs { T.tells → SyncsAtMost 1 (T.story tree.old) (T.story tree.new) }
    ensures settled { T.tells →
        OnOk result (EntriesSettled (disk_of (T.story tree.new)) (root_spot Keep)) }
    ensures cause { HasCause Failed (T.faults tree.old) (T.faults tree.new) result }
{
    remove(tree)?;
    sync_root(tree, Root::Keep)
}

/// Takes the intent away, and settles that. Every stop leads where the intent leads, or where none
/// leads. The error holds the intent.
pub fn finish<T: Tree>(intent: OpenIntent, tree: &mut T) -> Result<(), Held>
    requires { T.tells → IsFileOrAbsent (disk_of (T.story tree.old)) intent_spot }
    ensures stops { T.tells → (was : Option Intent)
        → IsFirmBut (disk_of (T.story tree.old)) → HoldsForm was (disk_of (T.story tree.old))
        → Along (BetweenForms was None (disk_of (T.story tree.old)))
        (T.story tree.old) (T.story tree.new) }
    ensures leads { T.tells → (was : Option Intent) → HoldsForm was (disk_of (T.story tree.old))
        → BothStand was None (disk_of (T.story tree.old))
        → Along (Leads (ToEither (disk_of (T.story tree.old)) was None))
        (T.story tree.old) (T.story tree.new) }
    ensures only { T.tells →
        Along (Touches intent_spot none (disk_of (T.story tree.old)))
        (T.story tree.old) (T.story tree.new) }
    ensures still { T.tells → (x : Spot) → x ≢ intent_spot
        → kind_of (disk_of (T.story tree.new)) x ≡ kind_of (disk_of (T.story tree.old)) x }
    ensures stands { T.tells → Standing (put (disk_of (T.story tree.old)) intent_spot none)
        → Along Standing (T.story tree.old) (T.story tree.new) }
    ensures done { T.tells → OnOk result (HoldsForm None (disk_of (T.story tree.new))) }
    ensures settled { T.tells →
        OnOk result (EntriesSettled (disk_of (T.story tree.new)) (root_spot Keep)) }
    ensures held { IfErr result (λ held. (held.intent ≡ Some intent) × (held.temp ≡ None)) }
    ensures syncs { T.tells → SyncsAtMost 1 (T.story tree.old) (T.story tree.new) }
    ensures cause { HeldHasCause (T.faults tree.old) (T.faults tree.new) result }
{
    match close(tree) {
        Ok(()) => {
            leave(intent);
            Ok(())
        }
        Err(error) => Err(Held {
            error,
            intent: Some(intent),
            temp: None,
        }),
    }
}
