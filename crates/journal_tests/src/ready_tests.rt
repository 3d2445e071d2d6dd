// What a plan's steps need.
use crate::intents::{CLEAR, MANIFEST, SET, WHOLE, plan, ready};
use intent_journal::prepare;
use std::process::Abort;
use tree_fs::Place;

// The places, each in a line.
fn places_text(rt: &(impl AllocGlobal + Abort), places: &[Place]) -> String {
    let mut text = String::new(rt.alloc());
    for place in places {
        let line = place.text(rt.alloc()).expect(rt, "memory");
        text.push_str(line.as_str()).expect(rt, "memory");
        text.push('\n').expect(rt, "memory");
    }
    text
}

fn check_places(rt: &(impl AllocGlobal + Abort), places: &[Place], wanted: &str) {
    let text = places_text(rt, places);
    assert_eq!(rt; text.as_str(), wanted);
}

#[test]
fn a_plan_has_its_parents_and_folders(rt: HostRuntime) {
    let ready = ready(&rt, WHOLE);
    for (places, wanted) in [
        (ready.folder_parents(), "game\n"),
        (ready.save_parents(), "game\n"),
        (ready.set_parents(), "game/d\ngame/e/f\ngame\ngame\n"),
        (ready.save_folders(), "game\n"),
        (ready.set_folders(), "game\ngame/d\ngame/e/f\n"),
        (ready.clear_folders(), "game\n"),
    ] {
        check_places(&rt, places, wanted);
    }
}

#[test]
fn a_plan_has_its_texts(rt: HostRuntime) {
    let ready = ready(&rt, SET);
    assert!(&rt; ready.set_text() == SET.as_bytes());
    assert!(&rt; ready.clear_text() == CLEAR.as_bytes());
    assert!(&rt; ready.manifest_text() == MANIFEST.as_bytes());
    assert!(&rt; ready.plan().manifest.is_some());
}

fn answer(rt: &(impl AllocGlobal + Abort), text: &str, most: u64) -> String {
    match prepare(rt.alloc(), plan(rt, text), most) {
        Ok(_) => format!(in rt.alloc(); "ready").expect(rt, "memory"),
        Err(e) => format!(in rt.alloc(); "{e:?}").expect(rt, "memory"),
    }
}

#[test]
fn a_plan_whose_text_is_too_long_is_refused(rt: HostRuntime) {
    assert_eq!(&rt; SET.len(), 329);
    for (most, wanted) in [
        (331, "ready"),
        (330, "TooLong(331)"),
        (0, "TooLong(331)"),
        (u64::MAX, "ready"),
    ] {
        let found = answer(&rt, SET, most);
        assert_eq!(&rt; found.as_str(), wanted);
    }
}
