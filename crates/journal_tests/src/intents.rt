// Texts of intents, and what they are read as.
ghost use Rattle.move_plan.specs.Rules.{PassesRules};
ghost use Rattle.intent_json.specs.Accepted.{IsAccepted};

use intent_journal::{Ready, prepare};
use intent_json::{Intent, read_intent};
use move_plan::Plan;
use std::process::Abort;

// The intent that puts the file `x.txt` of the mod `b`, in both forms.
pub const SET: &str =
    "{\"clears\":[],\"folders\":[],\"folders_off\":[],\"manifest\":{\"files\":[{\"digest\":\"ba7816bf8f01cfea414140de5dae2223b00361a396177a9cb410ff61f20015ad\",\"mod\":\"b\",\"path\":\"x.txt\",\"shadowed\":false,\"source\":\"x.txt\"}],\"folders\":[],\"version\":2},\"phase\":\"set\",\"saves\":[],\"sets\":[{\"back\":null,\"from\":\"stage/b/x.txt\",\"to\":\"game/x.txt\"}],\"version\":2}";

pub const CLEAR: &str =
    "{\"clears\":[],\"folders\":[],\"folders_off\":[],\"manifest\":{\"files\":[{\"digest\":\"ba7816bf8f01cfea414140de5dae2223b00361a396177a9cb410ff61f20015ad\",\"mod\":\"b\",\"path\":\"x.txt\",\"shadowed\":false,\"source\":\"x.txt\"}],\"folders\":[],\"version\":2},\"phase\":\"clear\",\"saves\":[],\"sets\":[],\"version\":2}";

pub const MANIFEST: &str =
    "{\"files\":[{\"digest\":\"ba7816bf8f01cfea414140de5dae2223b00361a396177a9cb410ff61f20015ad\",\"mod\":\"b\",\"path\":\"x.txt\",\"shadowed\":false,\"source\":\"x.txt\"}],\"folders\":[],\"version\":2}";

// An intent with entries of each kind.
pub const WHOLE: &str =
    "{\"clears\":[\"game/z.vortex_backup\"],\"folders\":[\"game/d\"],\"folders_off\":[\"game/e/f\",\"game/e\"],\"manifest\":null,\"phase\":\"set\",\"saves\":[[\"game/x.txt\",\"game/x.txt.vortex_backup\"]],\"sets\":[{\"back\":null,\"from\":\"stage/b/d/y\",\"to\":\"game/d/y\"},{\"back\":\"stage/a/z\",\"from\":null,\"to\":\"game/e/f/z\"},{\"back\":\"game/x.txt.vortex_backup\",\"from\":\"stage/b/x.txt\",\"to\":\"game/x.txt\"},{\"back\":\"stage/a/z\",\"from\":\"game/z.vortex_backup\",\"to\":\"game/z\"}],\"version\":2}";

pub fn intent(rt: &(impl AllocGlobal + Abort), text: &str) -> Intent
    ensures { IsAccepted result }
{
    let read = read_intent(rt.alloc(), text.as_bytes()).expect(rt, "memory");
    read.expect(rt, "an intent")
}

pub fn plan(rt: &(impl AllocGlobal + Abort), text: &str) -> Plan
    ensures { PassesRules result }
{
    let Intent { phase: _, plan } = intent(rt, text);
    plan
}

// The plan of an intent, with what its steps need.
pub fn ready(rt: &(impl AllocGlobal + Abort), text: &str) -> Ready {
    prepare(rt.alloc(), plan(rt, text), 1000).expect(rt, "a short intent")
}
