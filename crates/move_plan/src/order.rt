// Whether lists stand in their order.
ghost use Rattle.std.specs.Prelude.{◌≡◌, ◌<◌, map, length, slice_index_or, None};
ghost use Rattle.move_plan.specs.Tests.{none_or, is_before, is_behind};
ghost use Rattle.move_plan.specs.Rising.{front_at, first_out};

use crate::search::Keyed;
use tree_fs::Place;

fn comes_before(place: &Place, other: &Place) -> bool
    ensures { result ≡ is_before place.now other.now }
{
    place.cmp(other).is_lt()
}

// The index of the first entry that isn't above the one in front of it.
pub(crate) fn first_not_above<T: Keyed>(items: &[T]) -> Option<usize>
    ensures { result ≡ first_out is_before 0 None (map T.key items.now) }
{
    for at in 0..items.len() {
        if !is_above_front(items, at) {
            return Some(at);
        }
    }
    None
}

fn is_above_front<T: Keyed>(items: &[T], at: usize) -> bool
    requires { at < length items.now }
    ensures { (item : T) → item ≡ slice_index_or items.now at item
        → result ≡ none_or (λ q. is_before q (T.key item)) (front_at (map T.key items.now) at) }
{
    if at == 0 {
        return true;
    }
    comes_before(items[at - 1].key(), items[at].key())
}

// The index of the first place that isn't below the one in front of it.
pub(crate) fn first_not_below(places: &[Place]) -> Option<usize>
    ensures { result ≡ first_out is_behind 0 None places.now }
{
    for at in 0..places.len() {
        if !is_below_front(places, at) {
            return Some(at);
        }
    }
    None
}

fn is_below_front(places: &[Place], at: usize) -> bool
    requires { at < length places.now }
    ensures { (p : Place) → p ≡ slice_index_or places.now at p
        → result ≡ none_or (λ q. is_behind q p) (front_at places.now at) }
{
    if at == 0 {
        return true;
    }
    comes_before(&places[at], &places[at - 1])
}
