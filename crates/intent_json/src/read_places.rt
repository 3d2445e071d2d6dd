// Places read from JSON values. `None` stands for a value that is none.
ghost use Rattle.std.specs.Prelude.{◌≡◌, [], IfOk, map, option_map, option_and_then};
ghost use Rattle.serde_json.specs.View.{view};
ghost use Rattle.intent_json.specs.Places.{place_of, option_of, pair_of, set_of, all_from};

use move_plan::SetRow;
use rel_paths::PathError;
use serde_json::Value;
use std::alloc::{AllocError, Global};
use tree_fs::Place;

fn read_place(alloc: Global, value: &Value) -> Result<Option<Place>, AllocError>
    ensures { IfOk result (λ o. o ≡ place_of (view value.now)) }
{
    let Some(text) = value.as_str() else {
        return Ok(None);
    };
    match Place::parse(alloc, text) {
        Ok(place) => Ok(Some(place)),
        Err(PathError::Memory) => Err(AllocError),
        Err(_) => Ok(None),
    }
}

fn read_option(alloc: Global, value: &Value) -> Result<Option<Option<Place>>, AllocError>
    ensures { IfOk result (λ o. o ≡ option_of (view value.now)) }
{
    if value.is_null() {
        return Ok(Some(None));
    }
    match read_place(alloc, value)? {
        None => Ok(None),
        Some(place) => Ok(Some(Some(place))),
    }
}

fn read_pair(alloc: Global, value: &Value) -> Result<Option<(Place, Place)>, AllocError>
    ensures { IfOk result (λ o. o ≡ pair_of (view value.now)) }
{
    let Some(first) = value.get(0usize) else {
        return Ok(None);
    };
    let Some(second) = value.get(1usize) else {
        return Ok(None);
    };
    let Some(from) = read_place(alloc, first)? else {
        return Ok(None);
    };
    let Some(to) = read_place(alloc, second)? else {
        return Ok(None);
    };
    Ok(Some((from, to)))
}

fn read_set(alloc: Global, value: &Value) -> Result<Option<SetRow>, AllocError>
    ensures { IfOk result (λ o. o ≡ set_of (view value.now)) }
{
    let Some(to_value) = value.get("to") else {
        return Ok(None);
    };
    let Some(from_value) = value.get("from") else {
        return Ok(None);
    };
    let Some(back_value) = value.get("back") else {
        return Ok(None);
    };
    let Some(to) = read_place(alloc, to_value)? else {
        return Ok(None);
    };
    let Some(from) = read_option(alloc, from_value)? else {
        return Ok(None);
    };
    let Some(back) = read_option(alloc, back_value)? else {
        return Ok(None);
    };
    Ok(Some(SetRow { to, from, back }))
}

pub(crate) fn read_places(alloc: Global, items: &[Value]) -> Result<Option<Vec<Place>>, AllocError>
    ensures { IfOk result (λ o.
        option_map (λ v. v.items) o ≡ all_from place_of [] (map view items.now)) }
{
    let mut places = Vec::with_capacity(alloc, items.len())?;
    for item in items {
        let Some(place) = read_place(alloc, item)? else {
            return Ok(None);
        };
        places.push(place)?;
    }
    Ok(Some(places))
}

pub(crate) fn read_pairs(
    alloc: Global,
    items: &[Value],
) -> Result<Option<Vec<(Place, Place)>>, AllocError>
    ensures { IfOk result (λ o.
        option_map (λ v. v.items) o ≡ all_from pair_of [] (map view items.now)) }
{
    let mut pairs = Vec::with_capacity(alloc, items.len())?;
    for item in items {
        let Some(pair) = read_pair(alloc, item)? else {
            return Ok(None);
        };
        pairs.push(pair)?;
    }
    Ok(Some(pairs))
}

pub(crate) fn read_sets(alloc: Global, items: &[Value]) -> Result<Option<Vec<SetRow>>, AllocError>
    ensures { IfOk result (λ o.
        option_map (λ v. v.items) o ≡ all_from set_of [] (map view items.now)) }
{
    let mut sets = Vec::with_capacity(alloc, items.len())?;
    for item in items {
        let Some(set) = read_set(alloc, item)? else {
            return Ok(None);
        };
        sets.push(set)?;
    }
    Ok(Some(sets))
}
