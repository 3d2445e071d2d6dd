// The texts of intents, and which bytes are none.
use crate::manifests::{FIRST, SECOND, one_row};
use crate::plans::{WHOLE, plan};
use intent_json::{Intent, Phase, intent_text, read_intent};
use std::process::Abort;

// The intent that puts one file, in the second version of the format and in the first.
const SET: &str =
    "{\"clears\":[],\"folders\":[],\"folders_off\":[],\"manifest\":{\"files\":[{\"digest\":\"ba7816bf8f01cfea414140de5dae2223b00361a396177a9cb410ff61f20015ad\",\"mod\":\"b\",\"path\":\"x.txt\",\"shadowed\":false,\"source\":\"x.txt\"}],\"folders\":[],\"version\":2},\"phase\":\"set\",\"saves\":[],\"sets\":[{\"back\":null,\"from\":\"stage/b/x.txt\",\"to\":\"game/x.txt\"}],\"version\":2}";

const OLD: &str =
    "{\"clears\":[],\"folders\":[],\"folders_off\":[],\"manifest\":{\"files\":[{\"digest\":\"ba7816bf8f01cfea414140de5dae2223b00361a396177a9cb410ff61f20015ad\",\"mod\":\"b\",\"path\":\"x.txt\",\"shadowed\":false}],\"folders\":[],\"version\":1},\"phase\":\"set\",\"saves\":[],\"sets\":[{\"back\":null,\"from\":\"stage/b/x.txt\",\"to\":\"game/x.txt\"}],\"version\":1}";

// The two forms of a plan with entries of each kind.
const WHOLE_SET: &str =
    "{\"clears\":[\"game/z.vortex_backup\"],\"folders\":[\"game/d\"],\"folders_off\":[\"game/e/f\",\"game/e\"],\"manifest\":null,\"phase\":\"set\",\"saves\":[[\"game/x.txt\",\"game/x.txt.vortex_backup\"]],\"sets\":[{\"back\":null,\"from\":\"stage/b/d/y\",\"to\":\"game/d/y\"},{\"back\":\"stage/a/z\",\"from\":null,\"to\":\"game/e/f/z\"},{\"back\":\"game/x.txt.vortex_backup\",\"from\":\"stage/b/x.txt\",\"to\":\"game/x.txt\"},{\"back\":\"stage/a/z\",\"from\":\"game/z.vortex_backup\",\"to\":\"game/z\"}],\"version\":2}";

const WHOLE_CLEAR: &str =
    "{\"clears\":[\"game/z.vortex_backup\"],\"folders\":[],\"folders_off\":[\"game/e/f\",\"game/e\"],\"manifest\":null,\"phase\":\"clear\",\"saves\":[],\"sets\":[],\"version\":2}";

fn read(rt: &(impl AllocGlobal + Abort), bytes: &[u8]) -> Option<Intent> {
    read_intent(rt.alloc(), bytes).expect(rt, "memory")
}

fn is_printed(rt: &(impl AllocGlobal + Abort), intent: &Intent, wanted: &str) -> bool {
    let text = intent_text(rt.alloc(), intent.phase, &intent.plan).expect(rt, "memory");
    text.as_slice() == wanted.as_bytes()
}

// Whether the text is read as an intent, and that is printed as the other text.
fn is_read_as(rt: &(impl AllocGlobal + Abort), text: &str, wanted: &str) -> bool {
    match read(rt, text.as_bytes()) {
        None => false,
        Some(intent) => is_printed(rt, &intent, wanted),
    }
}

#[test]
fn a_plan_that_puts_one_file_has_329_bytes(rt: HostRuntime) {
    assert_eq!(&rt; SET.len(), 329);
    assert_eq!(&rt; OLD.len(), 312);
    let plan = plan(&rt, "set game/x.txt stage/b/x.txt", Some(one_row(&rt)));
    let set = Intent {
        phase: Phase::Set,
        plan,
    };
    assert!(&rt; is_printed(&rt, &set, SET));
}

#[test]
fn both_versions_are_read_and_the_second_is_written(rt: HostRuntime) {
    for (text, wanted) in [
        (SET, SET),
        (OLD, SET),
        (WHOLE_SET, WHOLE_SET),
        (WHOLE_CLEAR, WHOLE_CLEAR),
    ] {
        assert!(&rt; is_read_as(&rt, text, wanted), "of {text}");
    }
}

fn is_written(rt: &(impl AllocGlobal + Abort), phase: Phase, wanted: &str) -> bool {
    let plan = plan(rt, WHOLE, None);
    is_printed(rt, &Intent { phase, plan }, wanted)
}

#[test]
fn the_clear_form_leaves_out_what_is_done(rt: HostRuntime) {
    assert!(&rt; is_written(&rt, Phase::Set, WHOLE_SET));
    assert!(&rt; is_written(&rt, Phase::Clear, WHOLE_CLEAR));
}

#[test]
fn no_front_of_an_intent_is_one(rt: HostRuntime) {
    for length in 0..SET.len() {
        assert!(&rt;
            read(&rt, &SET.as_bytes()[..length]).is_none(),
            "at {length}"
        );
    }
}

// The text with one part in place of another that stands in it.
fn changed(rt: &(impl AllocGlobal + Abort), text: &str, old: &str, new: &str) -> String {
    assert!(rt; text.contains(old));
    text.replace(rt.alloc(), old, new).expect(rt, "memory")
}

#[test]
fn any_other_text_is_no_intent(rt: HostRuntime) {
    for (old, new) in [
        // a blank, another order of keys, one key more, a key twice, a line end
        ("\"clears\":[]", "\"clears\": []"),
        (
            "\"clears\":[],\"folders\":[]",
            "\"folders\":[],\"clears\":[]",
        ),
        ("{\"clears\"", "{\"bad\":0,\"clears\""),
        ("\"clears\":[],", "\"clears\":[],\"clears\":[],"),
        (
            "game/x.txt\"}],\"version\":2}",
            "game/x.txt\"}],\"version\":2}\n",
        ),
        // another way to write a text
        ("game/x.txt", "game\\/x.txt"),
        ("game/x.txt", "gam\\u0065/x.txt"),
        // another version, phase or place, and a plan that breaks a rule
        (",\"version\":2}", ",\"version\":3}"),
        ("\"set\"", "\"done\""),
        ("\"set\"", "\"clear\""),
        ("game/x.txt", "games/x.txt"),
        ("\"stage/b/x.txt\"", "\"game/x.txt\""),
        ("\"to\":\"game/x.txt\"", "\"to\":\"keep/intent.json\""),
    ] {
        let text = changed(&rt, SET, old, new);
        assert!(&rt; read(&rt, text.as_bytes()).is_none(), "of {text}");
    }
}

#[test]
fn a_manifest_has_the_form_of_its_intent(rt: HostRuntime) {
    let mixed = changed(&rt, SET, SECOND, FIRST);
    assert!(&rt; read(&rt, mixed.as_bytes()).is_none());
    let other = changed(&rt, OLD, FIRST, SECOND);
    assert!(&rt; read(&rt, other.as_bytes()).is_none());
    let null = changed(&rt, OLD, FIRST, "null");
    assert!(&rt; read(&rt, null.as_bytes()).is_some());
}
