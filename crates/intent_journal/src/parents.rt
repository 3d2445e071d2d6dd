// The folders in which the places of a plan lie, row by row.
ghost use Rattle.std.specs.Prelude.{◌≡◌, IfOk, map};
ghost use Rattle.tree_fs.specs.Spot.{spot_of, parent};
ghost use Rattle.tree_fs.specs.declared.place.Place.{Place};
ghost use Rattle.move_plan.specs.declared.plan.SetRow.{SetRow};
ghost use Rattle.intent_journal.specs.Ready.{HasParents};

use move_plan::{Places, Plan, SetRow};
use std::alloc::{AllocError, Global};
use tree_fs::Place;

// The parent of each folder to make, and of each destination of the saves and the sets.
#[derive(Drop)]
pub struct Parents {
    pub(crate) folders: Places,
    pub(crate) saves: Places,
    pub(crate) sets: Places,
}

// The folder that a place lies in. A root lies in itself.
fn parent_of(alloc: Global, place: &Place) -> Result<Place, AllocError>
    ensures { IfOk result (λ above. spot_of above ≡ parent (spot_of place.now)) }
{
    match place.parent(alloc)? {
        Some(above) => Ok(above),
        None => place.copy(),
    }
}

pub(crate) fn parents_of(alloc: Global, places: &[Place]) -> Result<Vec<Place>, AllocError>
    ensures { IfOk result (λ above.
        map spot_of above.items ≡ map (λ (p : Place). parent (spot_of p)) places.now) }
{
    let mut above = Vec::with_capacity(alloc, places.len())?;
    for place in places {
        above.push(parent_of(alloc, place)?)?;
    }
    Ok(above)
}

fn save_parents(alloc: Global, saves: &[(Place, Place)]) -> Result<Vec<Place>, AllocError>
    ensures { IfOk result (λ above.
        map spot_of above.items ≡ map (λ (s : Place × Place). parent (spot_of s.1)) saves.now) }
{
    let mut above = Vec::with_capacity(alloc, saves.len())?;
    for save in saves {
        above.push(parent_of(alloc, &save.1)?)?;
    }
    Ok(above)
}

fn set_parents(alloc: Global, sets: &[SetRow]) -> Result<Vec<Place>, AllocError>
    ensures { IfOk result (λ above.
        map spot_of above.items ≡ map (λ (row : SetRow). parent (spot_of row.to)) sets.now) }
{
    let mut above = Vec::with_capacity(alloc, sets.len())?;
    for set in sets {
        above.push(parent_of(alloc, &set.to)?)?;
    }
    Ok(above)
}

pub(crate) fn plan_parents(alloc: Global, plan: &Plan) -> Result<Parents, AllocError>
    ensures { IfOk result (λ parents. HasParents plan.now parents) }
{
    let folders = parents_of(alloc, plan.folders.as_slice())?;
    let saves = save_parents(alloc, plan.saves.as_slice())?;
    let sets = set_parents(alloc, plan.sets.as_slice())?;
    Ok(Parents {
        folders: Places::new(folders),
        saves: Places::new(saves),
        sets: Places::new(sets),
    })
}
