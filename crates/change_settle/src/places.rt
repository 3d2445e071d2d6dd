// Places in their order, and the folders above them.
ghost use Rattle.std.specs.Prelude.{◌≡◌, ◌↔◌, IfOk, OnOk, IsTrue, map};
ghost use Rattle.std.specs.List.{Contains};
ghost use Rattle.tree_fs.specs.Spot.{spot_of};
ghost use Rattle.tree_fs.specs.declared.place.Place.{Place};
ghost use Rattle.move_plan.specs.Rising.{AreRising};
ghost use Rattle.change_settle.specs.Above.{AddsAbove, AreAbove, IsOutermostIn};

use std::alloc::{AllocError, Global};
use tree_fs::Place;

/// These places in their order, each once.
pub(crate) fn in_order(mut places: Vec<Place>) -> Result<Vec<Place>, AllocError>
    ensures rise { IfOk result (λ left. AreRising left.items) }
    ensures same { IfOk result (λ left.
        (p : Place) → (Contains left.items p ↔ Contains places.items p)) }
{
    places.sort()?;
    places.dedup();
    Ok(places)
}

/// Whether one of these, which are in their order, is this place.
pub(crate) fn has_place(places: &[Place], place: &Place) -> bool
    requires { AreRising places.now }
    ensures { IsTrue result ↔ Contains places.now place.now }
{
    places.binary_search(place).is_ok()
}

// Puts the folders above a place behind these.
fn add_above(alloc: Global, found: &mut Vec<Place>, place: &Place) -> Result<(), AllocError>
    ensures { OnOk result (AddsAbove (spot_of place.now) (map spot_of found.old.items)
        (map spot_of found.new.items)) }
{
    let Some(above) = place.parent(alloc)? else {
        return Ok(());
    };
    if above.rel.is_none() {
        return Ok(());
    }
    add_above(alloc, found, &above)?;
    found.push(above)?;
    Ok(())
}

/// The folders above these places but for the roots, in their order, each once.
pub(crate) fn folders_above(alloc: Global, places: &[Place]) -> Result<Vec<Place>, AllocError>
    ensures rise { IfOk result (λ folders. AreRising folders.items) }
    ensures are { IfOk result (λ folders.
        AreAbove (map spot_of places.now) (map spot_of folders.items)) }
{
    let mut found = Vec::new(alloc);
    for place in places {
        add_above(alloc, &mut found, place)?;
    }
    in_order(found)
}

/// The outermost of these, which are in their order, that is above the place.
pub(crate) fn outermost_above(
    alloc: Global,
    blocked: &[Place],
    place: &Place,
) -> Result<Option<Place>, AllocError>
    requires { AreRising blocked.now }
    ensures { IfOk result (IsOutermostIn (map spot_of blocked.now) (spot_of place.now)) }
{
    let Some(above) = place.parent(alloc)? else {
        return Ok(None);
    };
    if above.rel.is_none() {
        return Ok(None);
    }
    if let Some(found) = outermost_above(alloc, blocked, &above)? {
        return Ok(Some(found));
    }
    if has_place(blocked, &above) {
        Ok(Some(above))
    } else {
        Ok(None)
    }
}
