// The sets, saves and clears of a settlement.
ghost use Rattle.std.specs.Prelude.{◌≡◌, ◌↔◌, IfOk, map, filter_map, option_map, Some, false};
ghost use Rattle.std.specs.List.{AllByRecursion, Contains};
ghost use Rattle.tree_fs.specs.Spot.{Spot, spot_of};
ghost use Rattle.tree_fs.specs.Places.{game_spot};
ghost use Rattle.backup_keep.specs.Places.{aside_spot, IsOrigin};
ghost use Rattle.manifest_json.specs.Sound.{IsRow};
ghost use Rattle.change_detect.specs.Classes.{staged_of};
ghost use Rattle.move_plan.specs.Rising.{AreRising};
ghost use Rattle.plan_model.specs.Moves.{Move};
ghost use Rattle.plan_model.specs.Lists.{spotted, ends_of};
ghost use Rattle.change_settle.specs.Lists.{IsFunction, SetKey, keyed, saved_by, over_game};
ghost use Rattle.desk_model.specs.Settled.{imported, reverted, linked_again, staged_again, let_go};
ghost use Rattle.change_settle.specs.Tasks.{behind_if, set_back, set_told, step_row, step_seen, step_set, step_clear};

use crate::acts::Act;
use crate::places::in_order;
use crate::walk::RowStep;
use backup_keep::{aside_place, backup_place};
use manifest_json::Row;
use move_plan::SetRow;
use plan_lists::{original, push_some, staged_row};
use std::alloc::{AllocError, Global};
use tree_fs::Place;

// A set as it is sorted: the place, where its file comes from, and where the old one stays.
type Keyed = (Place, (Option<Place>, Option<Place>));

pub(crate) fn game_place(alloc: Global, row: &Row) -> Result<Place, AllocError>
    ensures { IfOk result (λ place. spot_of place ≡ game_spot row.now.path) }
{
    Place::game(alloc, &row.path)
}

// Where the found file of a row is set aside, and where the staged one is.
fn found_aside(alloc: Global, row: &Row, number: u32) -> Result<Place, AllocError>
    requires { IsRow row.now }
    ensures { IfOk result (λ place. spot_of place ≡ aside_spot number (game_spot row.now.path)) }
{
    let place = game_place(alloc, row)?;
    aside_place(alloc, number, &place)
}

fn staged_aside(alloc: Global, row: &Row, number: u32) -> Result<Place, AllocError>
    requires { IsRow row.now }
    ensures { IfOk result (λ place. spot_of place ≡ aside_spot number (staged_of row.now)) }
{
    let place = staged_row(alloc, row)?;
    aside_place(alloc, number, &place)
}

// The set of a game path whose found file is set aside, with what takes its place.
fn over_game(
    alloc: Global,
    row: &Row,
    number: u32,
    from: Option<Place>,
) -> Result<Keyed, AllocError>
    requires { IsRow row.now }
    ensures { IfOk result (λ set. keyed set ≡ over_game number row.now (option_map spot_of from)) }
{
    let to = game_place(alloc, row)?;
    let back = found_aside(alloc, row, number)?;
    Ok((to, (from, Some(back))))
}

// The set that links the staged file of a row over its found one.
fn relinking(alloc: Global, row: &Row, number: u32) -> Result<Keyed, AllocError>
    requires { IsRow row.now }
    ensures { IfOk result (λ set. Some (keyed set) ≡ set_told number row.now reverted false) }
{
    let from = staged_row(alloc, row)?;
    over_game(alloc, row, number, Some(from))
}

// The set of a row that goes, whose found file is set aside.
fn letting_go(
    alloc: Global,
    row: &Row,
    number: u32,
    has_original: bool,
) -> Result<Keyed, AllocError>
    requires { IsRow row.now }
    ensures { IfOk result (λ set. Some (keyed set) ≡ set_told number row.now let_go has_original) }
{
    let from = original(alloc, row, has_original)?;
    over_game(alloc, row, number, from)
}

// The set of a row that goes and has no found file.
fn dropping(alloc: Global, row: &Row, has_original: bool) -> Result<Option<Keyed>, AllocError>
    requires { IsRow row.now }
    ensures { IfOk result (λ set. option_map keyed set ≡ set_back row.now has_original) }
{
    if !has_original {
        return Ok(None);
    }
    let to = game_place(alloc, row)?;
    let from = backup_place(alloc, &row.path)?;
    Ok(Some((to, (Some(from), None))))
}

// The set that links the staged file of a row where nothing is found.
fn linking_again(alloc: Global, row: &Row) -> Result<Keyed, AllocError>
    requires { IsRow row.now }
    ensures { IfOk result (λ set. Some (keyed set) ≡ set_told 0 row.now linked_again false) }
{
    let to = game_place(alloc, row)?;
    let from = staged_row(alloc, row)?;
    Ok((to, (Some(from), None)))
}

// The set that stages the found file of a row where no staged one is.
fn staging_again(alloc: Global, row: &Row) -> Result<Keyed, AllocError>
    requires { IsRow row.now }
    ensures { IfOk result (λ set. Some (keyed set) ≡ set_told 0 row.now staged_again false) }
{
    let to = staged_row(alloc, row)?;
    let from = game_place(alloc, row)?;
    Ok((to, (Some(from), None)))
}

// The set that stages the found file of a row in place of the older staged one.
fn importing(alloc: Global, row: &Row, number: u32) -> Result<Keyed, AllocError>
    requires { IsRow row.now }
    ensures { IfOk result (λ set. Some (keyed set) ≡ set_told number row.now imported false) }
{
    let to = staged_row(alloc, row)?;
    let from = game_place(alloc, row)?;
    let back = staged_aside(alloc, row, number)?;
    Ok((to, (Some(from), Some(back))))
}

// The set of a row, where there is one.
fn set_of(alloc: Global, step: RowStep, number: u32) -> Result<Option<Keyed>, AllocError>
    requires { IsRow (step_row step) }
    ensures { IfOk result (λ set. option_map keyed set ≡ step_set number (step_seen step.entry)) }
{
    match step.act {
        Act::SetAside => Ok(Some(relinking(alloc, step.row, number)?)),
        Act::Revert => Ok(Some(relinking(alloc, step.row, number)?)),
        Act::Import => Ok(Some(importing(alloc, step.row, number)?)),
        Act::LinkAgain => Ok(Some(linking_again(alloc, step.row)?)),
        Act::StageAgain => Ok(Some(staging_again(alloc, step.row)?)),
        Act::LetGo => Ok(Some(letting_go(alloc, step.row, number, step.has_original)?)),
        Act::Drop => dropping(alloc, step.row, step.has_original),
        Act::Leave => Ok(None),
        Act::Accept => Ok(None),
    }
}

// The sets in the order of the rows.
fn sets_by_row(alloc: Global, steps: &[RowStep], number: u32) -> Result<Vec<Keyed>, AllocError>
    requires { AllByRecursion (λ s. IsRow (step_row s)) steps.now }
    ensures { IfOk result (λ sets.
        map keyed sets.items ≡ filter_map (step_set number) (map step_seen steps.now)) }
{
    let mut sets = Vec::new(alloc);
    for step in steps {
        let set = set_of(alloc, *step, number)?;
        push_some(&mut sets, set)?;
    }
    Ok(sets)
}

// The sets in the order of their places.
fn sorted(mut sets: Vec<Keyed>) -> Result<Vec<Keyed>, AllocError>
    ensures rise { IsFunction (map keyed sets.items)
        → IfOk result (λ left. AreRising (map (λ k. k.0) left.items)) }
    ensures same { IfOk result (λ left.
        (k : SetKey) → (Contains left.items k ↔ Contains sets.items k)) }
{
    sets.sort()?;
    sets.dedup();
    Ok(sets)
}

fn set_row(set: Keyed) -> SetRow
    ensures moves { spotted result ≡ keyed set }
    ensures place { result.to ≡ set.0 }
{
    let (to, (from, back)) = set;
    SetRow { to, from, back }
}

fn set_rows(alloc: Global, sets: Vec<Keyed>) -> Result<Vec<SetRow>, AllocError>
    ensures moves { IfOk result (λ rows. map spotted rows.items ≡ map keyed sets.items) }
    ensures places { IfOk result (λ rows.
        map (λ row. row.to) rows.items ≡ map (λ k. k.0) sets.items) }
{
    let mut rows = Vec::new(alloc);
    for set in sets {
        rows.push(set_row(set))?;
    }
    Ok(rows)
}

/// The sets in the order of their places, among which are places of mods.
pub(crate) fn sets_of(
    alloc: Global,
    steps: &[RowStep],
    number: u32,
) -> Result<Vec<SetRow>, AllocError>
    requires { AllByRecursion (λ s. IsRow (step_row s)) steps.now }
    ensures rise { IsFunction (filter_map (step_set number) (map step_seen steps.now))
        → IfOk result (λ sets. AreRising (map (λ row. row.to) sets.items)) }
    ensures same { IfOk result (λ sets.
        (v : Spot × Move) → (Contains (map spotted sets.items) v
        ↔ Contains (filter_map (step_set number) (map step_seen steps.now)) v)) }
{
    let sets = sorted(sets_by_row(alloc, steps, number)?)?;
    set_rows(alloc, sets)
}

// The save of the file that stood at the place of a set.
fn save_of(set: &SetRow) -> Result<Option<(Place, Place)>, AllocError>
    ensures { IfOk result (λ save. save ≡ saved_by set.now) }
{
    match &set.back {
        Some(back) => Ok(Some((set.to.copy()?, back.copy()?))),
        None => Ok(None),
    }
}

/// The saves, in the order of the sets: each file that stood at the place of a set is saved to
/// where it is set aside, so these places are in the order of the sets' too.
pub(crate) fn saves_of(alloc: Global, sets: &[SetRow]) -> Result<Vec<(Place, Place)>, AllocError>
    ensures { IfOk result (λ saves. saves.items ≡ filter_map saved_by sets.now) }
{
    let mut saves = Vec::new(alloc);
    for set in sets {
        let save = save_of(set)?;
        push_some(&mut saves, save)?;
    }
    Ok(saves)
}

// The place that is cleared for a row, where there is one.
fn clear_of(alloc: Global, step: RowStep, number: u32) -> Result<Option<Place>, AllocError>
    requires { IsRow (step_row step) }
    ensures { IfOk result (λ place.
        option_map spot_of place ≡ step_clear number (step_seen step.entry)) }
{
    match step.act {
        Act::Revert => Ok(Some(found_aside(alloc, step.row, number)?)),
        Act::LetGo => original(alloc, step.row, step.has_original),
        Act::Drop => original(alloc, step.row, step.has_original),
        Act::Leave => Ok(None),
        Act::SetAside => Ok(None),
        Act::Import => Ok(None),
        Act::Accept => Ok(None),
        Act::LinkAgain => Ok(None),
        Act::StageAgain => Ok(None),
    }
}

// The places that are cleared, in the order of the rows.
fn cleared(alloc: Global, steps: &[RowStep], number: u32) -> Result<Vec<Place>, AllocError>
    requires { AllByRecursion (λ s. IsRow (step_row s)) steps.now }
    ensures { IfOk result (λ places.
        map spot_of places.items ≡ filter_map (step_clear number) (map step_seen steps.now)) }
{
    let mut places = Vec::new(alloc);
    for step in steps {
        let place = clear_of(alloc, *step, number)?;
        push_some(&mut places, place)?;
    }
    Ok(places)
}

/// The clears, in their order.
pub(crate) fn clears_of(
    alloc: Global,
    steps: &[RowStep],
    number: u32,
) -> Result<Vec<Place>, AllocError>
    requires { AllByRecursion (λ s. IsRow (step_row s)) steps.now }
    ensures rise { IfOk result (λ places. AreRising places.items) }
    ensures same { IfOk result (λ places.
        (x : Spot) → (Contains (map spot_of places.items) x
        ↔ Contains (filter_map (step_clear number) (map step_seen steps.now)) x)) }
{
    in_order(cleared(alloc, steps, number)?)
}
