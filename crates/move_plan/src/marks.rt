// The entries whose places are sources of sets. Sources stand in no order, so they are looked up
// among the entries.
ghost use Rattle.std.specs.Prelude.{◌≡◌, ◌≤◌, ◌<◌, ◌+◌, ◌-◌, ℕ, ◌||◌, Bool, not, map, false, length, take, drop, position, slice_index_or};
ghost use Rattle.move_plan.specs.Tests.{has_key, is_from, is_source};
ghost use Rattle.move_plan.specs.Rising.{AreRising, earlier};

use crate::SetRow;
use crate::named::are_own;
use crate::search::{is_saved_to, is_set, place_index, save_index};
use tree_fs::Place;

// How many clears are looked at in one pass over the sets.
const MOST: usize = 4096;

fn earlier(a: Option<usize>, b: Option<usize>) -> Option<usize>
    ensures { result ≡ earlier a b }
{
    match (a, b) {
        (Some(a), Some(b)) => Some(a.min(b)),
        (Some(a), None) => Some(a),
        (None, b) => b,
    }
}

// The index of the save to the set's source.
fn saved_source(saves: &[(Place, Place)], row: &SetRow) -> Option<usize>
    requires { AreRising (map (λ s. s.1) saves.now) }
    ensures { result ≡ position (λ s. is_from s.1 row.now) saves.now }
{
    match &row.from {
        None => None,
        Some(from) => save_index(saves, from),
    }
}

// The index of the first save to a set's source.
fn first_source(saves: &[(Place, Place)], sets: &[SetRow]) -> Option<usize>
    requires { AreRising (map (λ s. s.1) saves.now) }
    ensures { result ≡ position (λ s. is_source sets.now s.1) saves.now }
{
    let mut first = None;
    for row in sets {
        first = earlier(first, saved_source(saves, row));
    }
    first
}

// The index of the first save to a place that is set.
fn first_set(saves: &[(Place, Place)], sets: &[SetRow]) -> Option<usize>
    requires { AreRising (map (λ row. row.to) sets.now) }
    ensures { result ≡ position (λ s. has_key (λ row. row.to) sets.now s.1) saves.now }
{
    saves.iter().position(|save| is_set(sets, &save.1))
}

// The index of the first save whose destination is a set's destination or source.
pub(crate) fn first_taken(saves: &[(Place, Place)], sets: &[SetRow]) -> Option<usize>
    requires saves { AreRising (map (λ s. s.1) saves.now) }
    requires sets { AreRising (map (λ row. row.to) sets.now) }
    ensures { result ≡ position (λ s. has_key (λ row. row.to) sets.now s.1 || is_source sets.now s.1) saves.now }
{
    earlier(first_set(saves, sets), first_source(saves, sets))
}

// The index of the clear that is the set's source.
fn cleared_source(clears: &[Place], row: &SetRow) -> Option<usize>
    requires { AreRising clears.now }
    ensures { result ≡ position (λ p. is_from p row.now) clears.now }
{
    match &row.from {
        None => None,
        Some(from) => place_index(clears, from),
    }
}

// Marks the clear that is the set's source.
fn mark_source(clears: &[Place], row: &SetRow, marks: &mut [bool; MOST])
    requires most { length clears.now ≤ 4096 }
    requires rising { AreRising clears.now }
    ensures { (k : ℕ) (d : Place) → k < length clears.now
        → slice_index_or marks.new k false ≡ (slice_index_or marks.old k false || is_from (slice_index_or clears.now k d) row.now) }
{
    if let Some(at) = cleared_source(clears, row) {
        marks[at] = true;
    }
}

// Marks of the clears that are sources of sets.
fn source_marks(clears: &[Place], sets: &[SetRow]) -> [bool; MOST]
    requires most { length clears.now ≤ 4096 }
    requires rising { AreRising clears.now }
    ensures { (k : ℕ) (d : Place) → k < length clears.now
        → slice_index_or result k false ≡ is_source sets.now (slice_index_or clears.now k d) }
{
    let mut marks = [false; MOST];
    for row in sets {
        mark_source(clears, row, &mut marks);
    }
    marks
}

// The index of the first clear that is neither marked nor a save's destination.
fn first_unmarked(clears: &[Place], saves: &[(Place, Place)], marks: &[bool; MOST]) -> Option<usize>
    requires most { length clears.now ≤ 4096 }
    requires rising { AreRising (map (λ s. s.1) saves.now) }
    ensures { (used : Place → Bool)
        → ((k : ℕ) (d : Place) → k < length clears.now → slice_index_or marks.now k false ≡ used (slice_index_or clears.now k d))
        → result ≡ position (λ p. not (used p || has_key (λ s. s.1) saves.now p)) clears.now }
{
    for at in 0..clears.len() {
        if !is_used(marks[at], saves, &clears[at]) {
            return Some(at);
        }
    }
    None
}

fn is_used(mark: bool, saves: &[(Place, Place)], place: &Place) -> bool
    requires { AreRising (map (λ s. s.1) saves.now) }
    ensures { result ≡ (mark || has_key (λ s. s.1) saves.now place.now) }
{
    mark || is_saved_to(saves, place)
}

// The index of the first clear that is neither a set's source nor a save's destination, of no more
// clears than there are marks. Marks are made where some clear isn't the source of the set that it is
// named after.
fn first_unused_of(clears: &[Place], saves: &[(Place, Place)], sets: &[SetRow]) -> Option<usize>
    requires most { length clears.now ≤ 4096 }
    requires clears { AreRising clears.now }
    requires saves { AreRising (map (λ s. s.1) saves.now) }
    requires sets { AreRising (map (λ row. row.to) sets.now) }
    ensures { result ≡ position (λ p. not (is_source sets.now p || has_key (λ s. s.1) saves.now p)) clears.now }
{
    if are_own(clears, saves, sets) {
        return None;
    }
    let marks = source_marks(clears, sets);
    first_unmarked(clears, saves, &marks)
}

// The end of the part of a list that begins here: as many entries as there are marks, or those left.
fn part_end(start: usize, len: usize) -> usize
    requires { start < len }
    ensures above { start < result }
    ensures within { result ≤ len }
    ensures most { result ≤ start + 4096 }
{
    if len - start > MOST {
        start + MOST
    } else {
        len
    }
}

fn part_of(clears: &[Place], start: usize, end: usize) -> &[Place]
    requires order { start ≤ end }
    requires within { end ≤ length clears.now }
    ensures { result.now ≡ take (end - start) (drop start clears.now) }
{
    &clears[start..end]
}

// The index of the first clear that is neither a set's source nor a save's destination.
pub(crate) fn first_unused(
    clears: &[Place],
    saves: &[(Place, Place)],
    sets: &[SetRow],
) -> Option<usize>
    requires clears { AreRising clears.now }
    requires saves { AreRising (map (λ s. s.1) saves.now) }
    requires sets { AreRising (map (λ row. row.to) sets.now) }
    ensures { result ≡ position (λ p. not (is_source sets.now p || has_key (λ s. s.1) saves.now p)) clears.now }
{
    let mut start = 0;
    while start < clears.len() {
        let end = part_end(start, clears.len());
        if let Some(at) = first_unused_of(part_of(clears, start, end), saves, sets) {
            return Some(start + at);
        }
        start = end;
    }
    None
}
