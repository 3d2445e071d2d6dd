// Places written as JSON, a token at a time.
ghost use Rattle.std.specs.Prelude.{◌≡◌, ◌++◌, OnOk};
ghost use Rattle.std.specs.List.{AllByRecursion};
ghost use Rattle.manifest_json.specs.Texts.{tokens_of};
ghost use Rattle.intent_json.specs.Places.{place_data, places_data, option_data, pair_data, pairs_data, set_data, sets_data};
ghost use Rattle.intent_json.specs.Held.{IsHeld, IsHeldOption, IsHeldPair, IsHeldSet};

use json::Writer;
use move_plan::SetRow;
use std::alloc::{AllocError, Global};
use tree_fs::Place;

fn write_place(alloc: Global, writer: &mut Writer, place: &Place) -> Result<(), AllocError>
    ensures tokens { OnOk result
        (writer.new.tokens ≡ writer.old.tokens ++ tokens_of (place_data place.now)) }
    ensures before { writer.new.before ≡ writer.old.before }
    ensures held { OnOk result (IsHeld place.now) }
{
    let text = place.text(alloc)?;
    writer.string(&text)
}

fn write_option(alloc: Global, writer: &mut Writer, place: &Option<Place>) -> Result<(), AllocError>
    ensures tokens { OnOk result
        (writer.new.tokens ≡ writer.old.tokens ++ tokens_of (option_data place.now)) }
    ensures before { writer.new.before ≡ writer.old.before }
    ensures held { OnOk result (IsHeldOption place.now) }
{
    match place {
        None => writer.null(),
        Some(place) => write_place(alloc, writer, place),
    }
}

fn write_pair(alloc: Global, writer: &mut Writer, pair: &(Place, Place)) -> Result<(), AllocError>
    ensures tokens { OnOk result
        (writer.new.tokens ≡ writer.old.tokens ++ tokens_of (pair_data pair.now)) }
    ensures before { writer.new.before ≡ writer.old.before }
    ensures held { OnOk result (IsHeldPair pair.now) }
{
    writer.begin_array()?;
    write_place(alloc, writer, &pair.0)?;
    write_place(alloc, writer, &pair.1)?;
    writer.end_array()
}

fn write_set(alloc: Global, writer: &mut Writer, set: &SetRow) -> Result<(), AllocError>
    ensures tokens { OnOk result
        (writer.new.tokens ≡ writer.old.tokens ++ tokens_of (set_data set.now)) }
    ensures before { writer.new.before ≡ writer.old.before }
    ensures held { OnOk result (IsHeldSet set.now) }
{
    writer.begin_object()?;
    writer.key("back")?;
    write_option(alloc, writer, &set.back)?;
    writer.key("from")?;
    write_option(alloc, writer, &set.from)?;
    writer.key("to")?;
    write_place(alloc, writer, &set.to)?;
    writer.end_object()
}

pub(crate) fn write_places(
    alloc: Global,
    writer: &mut Writer,
    places: &[Place],
) -> Result<(), AllocError>
    ensures tokens { OnOk result
        (writer.new.tokens ≡ writer.old.tokens ++ tokens_of (places_data places.now)) }
    ensures before { writer.new.before ≡ writer.old.before }
    ensures held { OnOk result (AllByRecursion IsHeld places.now) }
{
    writer.begin_array()?;
    for place in places {
        write_place(alloc, writer, place)?;
    }
    writer.end_array()
}

pub(crate) fn write_pairs(
    alloc: Global,
    writer: &mut Writer,
    pairs: &[(Place, Place)],
) -> Result<(), AllocError>
    ensures tokens { OnOk result
        (writer.new.tokens ≡ writer.old.tokens ++ tokens_of (pairs_data pairs.now)) }
    ensures before { writer.new.before ≡ writer.old.before }
    ensures held { OnOk result (AllByRecursion IsHeldPair pairs.now) }
{
    writer.begin_array()?;
    for pair in pairs {
        write_pair(alloc, writer, pair)?;
    }
    writer.end_array()
}

pub(crate) fn write_sets(
    alloc: Global,
    writer: &mut Writer,
    sets: &[SetRow],
) -> Result<(), AllocError>
    ensures tokens { OnOk result
        (writer.new.tokens ≡ writer.old.tokens ++ tokens_of (sets_data sets.now)) }
    ensures before { writer.new.before ≡ writer.old.before }
    ensures held { OnOk result (AllByRecursion IsHeldSet sets.now) }
{
    writer.begin_array()?;
    for set in sets {
        write_set(alloc, writer, set)?;
    }
    writer.end_array()
}
