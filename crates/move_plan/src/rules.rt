// The first entry of a plan that fails each of the nine rules.
ghost use Rattle.std.specs.Prelude.{◌≡◌, not, position};
ghost use Rattle.move_plan.specs.Rules.{in_order, avoids_controls, source_stays, save_stays, keeping, clear_is_used};
ghost use Rattle.move_plan.specs.Rules.{save_is_back, back_stays, apart};
ghost use Rattle.tree_fs.specs.declared.place.Root.TheVariants.{Game};
ghost use Rattle.tree_fs.specs.Spot.{root_eq};
ghost use Rattle.move_plan.specs.Entries.{folder, save, set, clear};
ghost use Rattle.move_plan.specs.Tests.{first_of, none_or, is_free, is_keeping, avoids_controls_test};
ghost use Rattle.move_plan.specs.Tests.{source_stays_test, keeping_test, save_is_back_test, is_back_of, may_stay};
ghost use Rattle.move_plan.specs.Tests.{is_saved, back_stays_test, lies_apart, apart_test, moves_some};
ghost use Rattle.move_plan.specs.Rising.{AreSearchable};

use crate::marks::{first_taken, first_unused};
use crate::order::{first_not_above, first_not_below};
use crate::places::{is_free, is_keeping};
use crate::search::{
    has_place, is_saved_to, is_set, lies_below_save, lies_below_set, save_index, set_index,
};
use crate::{Plan, SetRow};
use tree_fs::{Place, Root};

// Each list rises by the texts of its places; that of the folders to take off falls.
pub(crate) fn first_out_of_order(plan: &Plan) -> Option<usize>
    ensures { result ≡ first_of in_order plan.now }
{
    first_not_above(plan.folders.as_slice())
        .or(first_not_above(plan.saves.as_slice()))
        .or(first_not_above(plan.sets.as_slice()))
        .or(first_not_above(plan.clears.as_slice()))
        .or(first_not_below(plan.folders_off.as_slice()))
}

fn save_is_free(saved: &(Place, Place)) -> bool
    ensures { result ≡ avoids_controls_test (save saved.now) }
{
    is_free(&saved.0) && is_free(&saved.1)
}

fn is_none_or_free(place: &Option<Place>) -> bool
    ensures { result ≡ none_or is_free place.now }
{
    match place {
        None => true,
        Some(place) => is_free(place),
    }
}

fn set_is_free(row: &SetRow) -> bool
    ensures { result ≡ avoids_controls_test (set row.now) }
{
    is_free(&row.to) && is_none_or_free(&row.from) && is_none_or_free(&row.back)
}

fn first_not_free(places: &[Place]) -> Option<usize>
    ensures { result ≡ position (λ p. not (is_free p)) places.now }
{
    places.iter().position(|place| !is_free(place))
}

fn first_bound_save(saves: &[(Place, Place)]) -> Option<usize>
    ensures { result ≡ position (λ s. not (avoids_controls_test (save s))) saves.now }
{
    saves.iter().position(|saved| !save_is_free(saved))
}

fn first_bound_set(sets: &[SetRow]) -> Option<usize>
    ensures { result ≡ position (λ row. not (avoids_controls_test (set row))) sets.now }
{
    sets.iter().position(|row| !set_is_free(row))
}

// Each place is free.
pub(crate) fn first_bound(plan: &Plan) -> Option<usize>
    ensures { result ≡ first_of avoids_controls plan.now }
{
    first_not_free(plan.folders.as_slice())
        .or(first_bound_save(plan.saves.as_slice()))
        .or(first_bound_set(plan.sets.as_slice()))
        .or(first_not_free(plan.clears.as_slice()))
        .or(first_not_free(plan.folders_off.as_slice()))
}

fn source_stays(plan: &Plan, row: &SetRow) -> bool
    requires { AreSearchable plan.now }
    ensures { result ≡ source_stays_test plan.now (set row.now) }
{
    match &row.from {
        None => true,
        Some(from) => !is_set(plan.sets.as_slice(), from),
    }
}

fn first_moving(plan: &Plan, sets: &[SetRow]) -> Option<usize>
    requires { AreSearchable plan.now }
    ensures { result ≡ position (λ row. not (source_stays_test plan.now (set row))) sets.now }
{
    sets.iter().position(|row| !source_stays(plan, row))
}

// No set's source is a set's destination.
pub(crate) fn first_moving_source(plan: &Plan) -> Option<usize>
    requires { AreSearchable plan.now }
    ensures { result ≡ first_of source_stays plan.now }
{
    first_moving(plan, plan.sets.as_slice())
}

// No save's destination is a set's destination or a set's source.
pub(crate) fn first_taken_save(plan: &Plan) -> Option<usize>
    requires { AreSearchable plan.now }
    ensures { result ≡ first_of save_stays plan.now }
{
    first_taken(plan.saves.as_slice(), plan.sets.as_slice())
}

fn clear_keeps(plan: &Plan, place: &Place) -> bool
    requires { AreSearchable plan.now }
    ensures { result ≡ keeping_test plan.now (clear place.now) }
{
    !is_set(plan.sets.as_slice(), place) && is_keeping(place)
}

fn first_save_not_keeping(saves: &[(Place, Place)]) -> Option<usize>
    ensures { result ≡ position (λ s. not (is_keeping s.1)) saves.now }
{
    saves.iter().position(|saved| !is_keeping(&saved.1))
}

fn first_clear_not_keeping(plan: &Plan, clears: &[Place]) -> Option<usize>
    requires { AreSearchable plan.now }
    ensures { result ≡ position (λ p. not (keeping_test plan.now (clear p))) clears.now }
{
    clears.iter().position(|place| !clear_keeps(plan, place))
}

// No clear is a set's destination, and each save's destination and each clear keeps a file.
pub(crate) fn first_not_keeping(plan: &Plan) -> Option<usize>
    requires { AreSearchable plan.now }
    ensures { result ≡ first_of keeping plan.now }
{
    first_save_not_keeping(plan.saves.as_slice()).or(first_clear_not_keeping(
        plan,
        plan.clears.as_slice(),
    ))
}

// Whether there is a save or a set.
fn moves_some(plan: &Plan) -> bool
    ensures { result ≡ moves_some plan.now }
{
    !plan.saves.as_slice().is_empty() || !plan.sets.as_slice().is_empty()
}

// Where there is a save or a set, each clear is a set's source or a save's destination.
pub(crate) fn first_unused_clear(plan: &Plan) -> Option<usize>
    requires { AreSearchable plan.now }
    ensures { result ≡ first_of clear_is_used plan.now }
{
    if !moves_some(plan) {
        return None;
    }
    first_unused(
        plan.clears.as_slice(),
        plan.saves.as_slice(),
        plan.sets.as_slice(),
    )
}

fn is_back_of(place: &Place, row: &SetRow) -> bool
    ensures { result ≡ is_back_of place.now row.now }
{
    match &row.back {
        None => false,
        Some(back) => back == place,
    }
}

fn save_is_back(plan: &Plan, saved: &(Place, Place)) -> bool
    requires { AreSearchable plan.now }
    ensures { result ≡ save_is_back_test plan.now (save saved.now) }
{
    let sets = plan.sets.as_slice();
    match set_index(sets, &saved.0) {
        None => false,
        Some(at) => is_back_of(&saved.1, &sets[at]),
    }
}

fn first_lost(plan: &Plan, saves: &[(Place, Place)]) -> Option<usize>
    requires { AreSearchable plan.now }
    ensures { result ≡ position (λ s. not (save_is_back_test plan.now (save s))) saves.now }
{
    saves.iter().position(|saved| !save_is_back(plan, saved))
}

// Each save's source is the destination of a set whose `back` is the save's destination.
pub(crate) fn first_lost_save(plan: &Plan) -> Option<usize>
    requires { AreSearchable plan.now }
    ensures { result ≡ first_of save_is_back plan.now }
{
    first_lost(plan, plan.saves.as_slice())
}

fn is_saved(plan: &Plan, from: &Place, to: &Place) -> bool
    requires { AreSearchable plan.now }
    ensures { result ≡ is_saved plan.now from.now to.now }
{
    let saves = plan.saves.as_slice();
    match save_index(saves, to) {
        None => false,
        Some(at) => saves[at].0 == *from,
    }
}

fn may_stay(plan: &Plan, to: &Place, back: &Place) -> bool
    requires { AreSearchable plan.now }
    ensures { result ≡ may_stay plan.now to.now back.now }
{
    is_saved(plan, to, back) || back.root == Root::Stage && !is_set(plan.sets.as_slice(), back)
}

fn back_stays(plan: &Plan, row: &SetRow) -> bool
    requires { AreSearchable plan.now }
    ensures { result ≡ back_stays_test plan.now (set row.now) }
{
    match &row.back {
        None => true,
        Some(back) => may_stay(plan, &row.to, back),
    }
}

fn first_left(plan: &Plan, sets: &[SetRow]) -> Option<usize>
    requires { AreSearchable plan.now }
    ensures { result ≡ position (λ row. not (back_stays_test plan.now (set row))) sets.now }
{
    sets.iter().position(|row| !back_stays(plan, row))
}

// Each `back` is the destination of a save from its set's destination, or a place in `stage` that is
// no set's destination.
pub(crate) fn first_lost_back(plan: &Plan) -> Option<usize>
    requires { AreSearchable plan.now }
    ensures { result ≡ first_of back_stays plan.now }
{
    first_left(plan, plan.sets.as_slice())
}

fn lies_apart(plan: &Plan, place: &Place) -> bool
    requires { AreSearchable plan.now }
    ensures { result ≡ lies_apart plan.now place.now }
{
    !lies_below_set(plan.sets.as_slice(), place) && !lies_below_save(plan.saves.as_slice(), place)
}

fn folder_is_apart(plan: &Plan, place: &Place) -> bool
    requires { AreSearchable plan.now }
    ensures { result ≡ apart_test plan.now (folder place.now) }
{
    !is_set(plan.sets.as_slice(), place)
        && !is_saved_to(plan.saves.as_slice(), place)
        && !has_place(plan.clears.as_slice(), place)
}

fn first_folder_not_apart(plan: &Plan, folders: &[Place]) -> Option<usize>
    requires { AreSearchable plan.now }
    ensures { result ≡ position (λ p. not (apart_test plan.now (folder p))) folders.now }
{
    folders
        .iter()
        .position(|place| !folder_is_apart(plan, place))
}

fn first_save_not_apart(plan: &Plan, saves: &[(Place, Place)]) -> Option<usize>
    requires { AreSearchable plan.now }
    ensures { result ≡ position (λ s. not (lies_apart plan.now s.1)) saves.now }
{
    saves.iter().position(|saved| !lies_apart(plan, &saved.1))
}

fn first_set_not_apart(plan: &Plan, sets: &[SetRow]) -> Option<usize>
    requires { AreSearchable plan.now }
    ensures { result ≡ position (λ row. not (lies_apart plan.now row.to)) sets.now }
{
    sets.iter().position(|row| !lies_apart(plan, &row.to))
}

fn first_not_in_game(places: &[Place]) -> Option<usize>
    ensures { result ≡ position (λ p. not (root_eq p.root Game)) places.now }
{
    places.iter().position(|place| place.root != Root::Game)
}

// No folder to make is a destination or a clear, no destination lies below another, and each folder
// to take off is in `game`.
pub(crate) fn first_not_apart(plan: &Plan) -> Option<usize>
    requires { AreSearchable plan.now }
    ensures { result ≡ first_of apart plan.now }
{
    first_folder_not_apart(plan, plan.folders.as_slice())
        .or(first_save_not_apart(plan, plan.saves.as_slice()))
        .or(first_set_not_apart(plan, plan.sets.as_slice()))
        .or(first_not_in_game(plan.folders_off.as_slice()))
}
