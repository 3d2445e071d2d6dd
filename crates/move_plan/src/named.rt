// The places that kept files are named after. A clear is looked up there first, since the set of that
// place mostly has it as its source.
ghost use Rattle.std.specs.Prelude.{◌≡◌, ◌<◌, ℕ, ◌||◌, IsTrue, map, not, true, false, length, slice_index_or};
ghost use Rattle.move_plan.specs.Tests.{has_key, is_from, is_source};
ghost use Rattle.move_plan.specs.Rising.{AreRising};

use crate::SetRow;
use crate::search::{index_at, is_saved_to, path_of};
use tree_fs::{Place, Root};

// The root and the path that the text of an aside place, `aside/<number>/<root>/<path>`, is made of.
fn aside_origin(text: &str) -> Option<(Root, &str)> {
    let (_, rest) = text.strip_prefix("aside/")?.split_once('/')?;
    let (word, path) = rest.split_once('/')?;
    Some((Root::named(word)?, path))
}

// The root and the path of the file that is kept at a place, by the place's name.
fn origin_of(place: &Place) -> Option<(Root, &str)> {
    let text = path_of(place)?;
    match place.root {
        Root::Stage => None,
        Root::Game => Some((Root::Game, text.strip_suffix(".vortex_backup")?)),
        Root::Keep => aside_origin(text),
    }
}

fn is_from(place: &Place, row: &SetRow) -> bool
    ensures { result ≡ is_from place.now row.now }
{
    match &row.from {
        None => false,
        Some(from) => place == from,
    }
}

// Whether the place is the source of the set of the place that it is named after. Where it isn't, it
// may be that of another set.
fn is_own_source(sets: &[SetRow], place: &Place) -> bool
    requires { AreRising (map (λ row. row.to) sets.now) }
    ensures { IsTrue result → is_source sets.now place.now ≡ true }
{
    let Some((root, path)) = origin_of(place) else {
        return false;
    };
    match index_at(sets, root, Some(path)) {
        None => false,
        Some(at) => is_from(place, &sets[at]),
    }
}

fn is_own(saves: &[(Place, Place)], sets: &[SetRow], place: &Place) -> bool
    requires saves { AreRising (map (λ s. s.1) saves.now) }
    requires sets { AreRising (map (λ row. row.to) sets.now) }
    ensures { IsTrue result
        → not (is_source sets.now place.now || has_key (λ s. s.1) saves.now place.now) ≡ false }
{
    is_saved_to(saves, place) || is_own_source(sets, place)
}

// Whether each of the clears is a save's destination, or the source of the set of the place that it
// is named after.
pub(crate) fn are_own(clears: &[Place], saves: &[(Place, Place)], sets: &[SetRow]) -> bool
    requires saves { AreRising (map (λ s. s.1) saves.now) }
    requires sets { AreRising (map (λ row. row.to) sets.now) }
    ensures { IsTrue result → (k : ℕ) (d : Place) → k < length clears.now
        → not (is_source sets.now (slice_index_or clears.now k d)
        || has_key (λ s. s.1) saves.now (slice_index_or clears.now k d)) ≡ false }
{
    for place in clears {
        if !is_own(saves, sets, place) {
            return false;
        }
    }
    true
}
