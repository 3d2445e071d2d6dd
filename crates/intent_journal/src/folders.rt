// The folders that the passes of a plan sync, each once.
ghost use Rattle.std.specs.Prelude.{◌≡◌, ◌⊎◌, IfOk};
ghost use Rattle.std.specs.List.{Contains};
ghost use Rattle.std.specs.List.Sorted.{IsStrictlySortedBy};
ghost use Rattle.std.specs.Ordering.{on, nat_cmp};
ghost use Rattle.std.specs.Cmp.Lexicographic.{slice_cmp};
ghost use Rattle.tree_fs.specs.declared.place.Place.{Place};
ghost use Rattle.tree_fs.specs.Texts.{place_text};
ghost use Rattle.intent_journal.specs.Ready.{HasParents, HasFolders};

use crate::parents::{Parents, parents_of};
use move_plan::{Places, Plan};
use std::alloc::{AllocError, Global};
use tree_fs::Place;

// The folders of the saves' destinations, of the sets' and of the clears.
#[derive(Drop)]
pub struct SyncFolders {
    pub(crate) saves: Places,
    pub(crate) sets: Places,
    pub(crate) clears: Places,
}

// Adds a place at the end of a list, where it doesn't stand there.
fn push_other(list: &mut Vec<Place>, place: &Place) -> Result<(), AllocError>
    ensures before { IfOk result (λ _.
        (p : Place) → Contains list.old.items p → Contains list.new.items p) }
    ensures here { IfOk result (λ _. Contains list.new.items place.now) }
    ensures only { IfOk result (λ _. (p : Place) → Contains list.new.items p
        → Contains list.old.items p ⊎ (p ≡ place.now)) }
{
    if let Some(last) = list.last() {
        if last == place {
            return Ok(());
        }
    }
    list.push(place.copy()?)?;
    Ok(())
}

// The places of a list, without those that stand behind an equal one.
fn copies(alloc: Global, places: &[Place]) -> Result<Vec<Place>, AllocError>
    ensures all { IfOk result (λ list.
        (p : Place) → Contains places.now p → Contains list.items p) }
    ensures only { IfOk result (λ list.
        (p : Place) → Contains list.items p → Contains places.now p) }
{
    let mut list = Vec::new(alloc);
    for place in places {
        push_other(&mut list, place)?;
    }
    Ok(list)
}

// The places of a list in the order of their texts, each once.
fn in_order(mut list: Vec<Place>) -> Places
    ensures all { (p : Place) → Contains list.items p → Contains result p }
    ensures only { (p : Place) → Contains result p → Contains list.items p }
    ensures rise { IsStrictlySortedBy (on place_text (slice_cmp nat_cmp)) result }
{
    list.sort_unstable();
    list.dedup();
    Places::new(list)
}

// The folders that these are, each once.
fn folders_of(alloc: Global, above: &[Place]) -> Result<Places, AllocError>
    ensures all { IfOk result (λ folders.
        (p : Place) → Contains above.now p → Contains folders p) }
    ensures only { IfOk result (λ folders.
        (p : Place) → Contains folders p → Contains above.now p) }
    ensures rise { IfOk result (λ folders.
        IsStrictlySortedBy (on place_text (slice_cmp nat_cmp)) folders) }
{
    Ok(in_order(copies(alloc, above)?))
}

pub(crate) fn sync_folders(
    alloc: Global,
    plan: &Plan,
    parents: &Parents,
) -> Result<SyncFolders, AllocError>
    requires { HasParents plan.now parents.now }
    ensures { IfOk result (λ folders. HasFolders plan.now folders) }
{
    let cleared = parents_of(alloc, plan.clears.as_slice())?;
    Ok(SyncFolders {
        saves: folders_of(alloc, parents.saves.as_slice())?,
        sets: folders_of(alloc, parents.sets.as_slice())?,
        clears: folders_of(alloc, &cleared)?,
    })
}
