// Plans that are written as texts. A line is a word and places: `folder` and a place; `save`, a
// source and a destination; `set`, a destination and its source, then, where there is one, the
// place where the old file stays; `clear` and a place; `remove` and a folder; `manifest` and its
// name. A dash is no source.
ghost use Rattle.move_plan.specs.Rules.{PassesRules};

use crate::manifests::manifest;
use intent_journal::{Ready, prepare};
use manifest_json::Manifest;
use move_plan::{Places, Plan, Saves, SetRow, Sets, check_plan};
use std::process::Abort;
use tree_fs::Place;

fn place(rt: &(impl AllocGlobal + Abort), text: &str) -> Place {
    Place::parse(rt.alloc(), text).expect(rt, "a place")
}

fn source(rt: &(impl AllocGlobal + Abort), text: &str) -> Option<Place> {
    if text == "-" {
        None
    } else {
        Some(place(rt, text))
    }
}

// The places of the lines that begin with this word.
fn places(rt: &(impl AllocGlobal + Abort), lines: &str, word: &str) -> Places {
    let mut places = Vec::new(rt.alloc());
    for line in lines.lines() {
        if let Some(text) = line.strip_prefix(word) {
            places.push(place(rt, text)).expect(rt, "memory");
        }
    }
    Places::new(places)
}

fn save(rt: &(impl AllocGlobal + Abort), text: &str) -> (Place, Place) {
    let (from, to) = text.split_once(' ').expect(rt, "two places");
    (place(rt, from), place(rt, to))
}

fn saves(rt: &(impl AllocGlobal + Abort), lines: &str) -> Saves {
    let mut saves = Vec::new(rt.alloc());
    for line in lines.lines() {
        if let Some(text) = line.strip_prefix("save ") {
            saves.push(save(rt, text)).expect(rt, "memory");
        }
    }
    Saves::new(saves)
}

fn set(rt: &(impl AllocGlobal + Abort), text: &str) -> SetRow {
    let (to, rest) = text.split_once(' ').expect(rt, "two places");
    match rest.split_once(' ') {
        None => SetRow {
            to: place(rt, to),
            from: source(rt, rest),
            back: None,
        },
        Some((from, back)) => SetRow {
            to: place(rt, to),
            from: source(rt, from),
            back: Some(place(rt, back)),
        },
    }
}

fn sets(rt: &(impl AllocGlobal + Abort), lines: &str) -> Sets {
    let mut sets = Vec::new(rt.alloc());
    for line in lines.lines() {
        if let Some(text) = line.strip_prefix("set ") {
            sets.push(set(rt, text)).expect(rt, "memory");
        }
    }
    Sets::new(sets)
}

// The manifest that a line names, if one does.
fn named_manifest(rt: &(impl AllocGlobal + Abort), lines: &str) -> Option<Manifest> {
    for line in lines.lines() {
        if let Some(name) = line.strip_prefix("manifest ") {
            return Some(manifest(rt, name));
        }
    }
    None
}

// The plan that these lines are.
fn plan(rt: &(impl AllocGlobal + Abort), lines: &str) -> Plan {
    Plan {
        folders: places(rt, lines, "folder "),
        saves: saves(rt, lines),
        sets: sets(rt, lines),
        manifest: named_manifest(rt, lines),
        clears: places(rt, lines, "clear "),
        folders_off: places(rt, lines, "remove "),
    }
}

// The plan that these lines are, which has to pass the rules.
fn sound_plan(rt: &(impl AllocGlobal + Abort), lines: &str) -> Plan
    ensures { PassesRules result }
{
    let plan = plan(rt, lines);
    if check_plan(&plan).is_ok() {
        return plan;
    }
    panic!(rt; "the plan fails a rule")
}

// The plan of these lines, with what its steps need.
pub fn ready(rt: &(impl AllocGlobal + Abort), lines: &str) -> Ready {
    prepare(rt.alloc(), sound_plan(rt, lines), 1_000_000).expect(rt, "a short intent")
}
