// Looking up the entries of lists that rise by their places.
ghost use Rattle.std.specs.Prelude.{◌≡◌, map, option_map, position};
ghost use Rattle.std.specs.List.{list_any};
ghost use Rattle.std.specs.Ordering.{nat_cmp};
ghost use Rattle.std.specs.Cmp.Lexicographic.{slice_cmp};
ghost use Rattle.tree_fs.specs.Texts.{place_text};
ghost use Rattle.move_plan.specs.Tests.{has_text, text_at, has_key, is_above, below_some};
ghost use Rattle.move_plan.specs.Rising.{AreRising};

use crate::SetRow;
use std::cmp::Ordering;
use tree_fs::{Place, Root};

// An entry of a list that rises by a place.
pub(crate) trait Keyed {
    ghost use Rattle.tree_fs.specs.declared.place.Place.{Place};

    ghost key: { Self → Place };

    // The place by which the entry stands in its list.
    fn key(&self) -> &Place
        ensures { result.now ≡ key self.now };
}

impl Keyed for Place {
    ghost key = { λ p. p };

    fn key(&self) -> &Place {
        self
    }
}

impl Keyed for (Place, Place) {
    ghost key = { λ s. s.1 };

    fn key(&self) -> &Place {
        &self.1
    }
}

impl Keyed for SetRow {
    ghost key = { λ row. row.to };

    fn key(&self) -> &Place {
        &self.to
    }
}

// The order of a place's text and that of the place at a root and a path.
fn compare(place: &Place, root: Root, path: Option<&str>) -> Ordering
    ensures { result ≡ slice_cmp nat_cmp (place_text place.now) (text_at root (option_map (λ p. p.now) path.entry)) }
{
    if place.root != root {
        return place.root.word().cmp(root.word());
    }
    match (&place.rel, path) {
        (None, None) => Ordering::Equal,
        (None, Some(_)) => Ordering::Less,
        (Some(_), None) => Ordering::Greater,
        (Some(rel), Some(path)) => rel.text().cmp(path),
    }
}

pub(crate) fn path_of(place: &Place) -> Option<&str>
    ensures { option_map (λ p. p.now) result ≡ place.now.rel }
{
    match &place.rel {
        None => None,
        Some(path) => Some(path.text()),
    }
}

// The index of the entry at a root and a path.
pub(crate) fn index_at<T: Keyed>(items: &[T], root: Root, path: Option<&str>) -> Option<usize>
    requires { AreRising (map T.key items.now) }
    ensures { result ≡ position (λ x. has_text (text_at root (option_map (λ p. p.now) path.entry)) (T.key x)) items.now }
{
    items
        .binary_search_by(|item| compare(item.key(), root, path))
        .ok()
}

// Whether there is an entry at a root and a path.
fn has_at<T: Keyed>(items: &[T], root: Root, path: Option<&str>) -> bool
    requires { AreRising (map T.key items.now) }
    ensures { result ≡ list_any (λ x. has_text (text_at root (option_map (λ p. p.now) path.entry)) (T.key x)) items.now }
{
    index_at(items, root, path).is_some()
}

// Whether there is an entry at a parent of the path, or at one above that.
fn path_lies_below<T: Keyed>(items: &[T], root: Root, path: &str) -> bool
    requires { AreRising (map T.key items.now) }
    ensures { result ≡ list_any (λ x. is_above root path.now (T.key x)) items.now }
{
    let mut rest = path;
    while let Some((above, _)) = rest.rsplit_once('/') {
        if has_at(items, root, Some(above)) {
            return true;
        }
        rest = above;
    }
    has_at(items, root, None)
}

// The index of the place.
pub(crate) fn place_index(places: &[Place], place: &Place) -> Option<usize>
    requires { AreRising places.now }
    ensures { result ≡ position (λ p. has_text (place_text place.now) p) places.now }
{
    index_at(places, place.root, path_of(place))
}

// The index of the save to the place.
pub(crate) fn save_index(saves: &[(Place, Place)], to: &Place) -> Option<usize>
    requires { AreRising (map (λ s. s.1) saves.now) }
    ensures { result ≡ position (λ s. has_text (place_text to.now) s.1) saves.now }
{
    index_at(saves, to.root, path_of(to))
}

// The index of the set of the place.
pub(crate) fn set_index(sets: &[SetRow], to: &Place) -> Option<usize>
    requires { AreRising (map (λ row. row.to) sets.now) }
    ensures { result ≡ position (λ row. has_text (place_text to.now) row.to) sets.now }
{
    index_at(sets, to.root, path_of(to))
}

// Whether the place is among these.
pub(crate) fn has_place(places: &[Place], place: &Place) -> bool
    requires { AreRising places.now }
    ensures { result ≡ has_key (λ p. p) places.now place.now }
{
    has_at(places, place.root, path_of(place))
}

// Whether a file is saved to the place.
pub(crate) fn is_saved_to(saves: &[(Place, Place)], place: &Place) -> bool
    requires { AreRising (map (λ s. s.1) saves.now) }
    ensures { result ≡ has_key (λ s. s.1) saves.now place.now }
{
    has_at(saves, place.root, path_of(place))
}

// Whether the place is set.
pub(crate) fn is_set(sets: &[SetRow], place: &Place) -> bool
    requires { AreRising (map (λ row. row.to) sets.now) }
    ensures { result ≡ has_key (λ row. row.to) sets.now place.now }
{
    has_at(sets, place.root, path_of(place))
}

// Whether the place lies below one that is set.
pub(crate) fn lies_below_set(sets: &[SetRow], place: &Place) -> bool
    requires { AreRising (map (λ row. row.to) sets.now) }
    ensures { result ≡ below_some (λ row. row.to) sets.now place.now }
{
    match &place.rel {
        None => false,
        Some(path) => path_lies_below(sets, place.root, path.text()),
    }
}

// Whether the place lies below one that a file is saved to.
pub(crate) fn lies_below_save(saves: &[(Place, Place)], place: &Place) -> bool
    requires { AreRising (map (λ s. s.1) saves.now) }
    ensures { result ≡ below_some (λ s. s.1) saves.now place.now }
{
    match &place.rel {
        None => false,
        Some(path) => path_lies_below(saves, place.root, path.text()),
    }
}
