// Texts of intents, and their plans.
ghost use Rattle.move_plan.specs.Rules.{PassesRules};
ghost use Rattle.intent_json.specs.Accepted.{IsAccepted};

use intent_journal::{Ready, prepare};
use intent_json::{Intent, read_intent};
use move_plan::Plan;
use std::process::Abort;

// A file of a mod comes to a place where nothing is.
pub const PUT: &str =
    "{\"clears\":[],\"folders\":[],\"folders_off\":[],\"manifest\":{\"files\":[{\"digest\":\"ba7816bf8f01cfea414140de5dae2223b00361a396177a9cb410ff61f20015ad\",\"mod\":\"b\",\"path\":\"x.txt\",\"shadowed\":false,\"source\":\"x.txt\"}],\"folders\":[],\"version\":2},\"phase\":\"set\",\"saves\":[],\"sets\":[{\"back\":null,\"from\":\"stage/b/x.txt\",\"to\":\"game/x.txt\"}],\"version\":2}";

// A file of a mod comes to the place of a file of the game, which is saved.
pub const OVER: &str =
    "{\"clears\":[],\"folders\":[],\"folders_off\":[],\"manifest\":{\"files\":[{\"digest\":\"ba7816bf8f01cfea414140de5dae2223b00361a396177a9cb410ff61f20015ad\",\"mod\":\"b\",\"path\":\"x.txt\",\"shadowed\":true,\"source\":\"x.txt\"}],\"folders\":[],\"version\":2},\"phase\":\"set\",\"saves\":[[\"game/x.txt\",\"game/x.txt.vortex_backup\"]],\"sets\":[{\"back\":\"game/x.txt.vortex_backup\",\"from\":\"stage/b/x.txt\",\"to\":\"game/x.txt\"}],\"version\":2}";

// The saved file of the game comes back.
pub const BACK: &str =
    "{\"clears\":[\"game/x.txt.vortex_backup\"],\"folders\":[],\"folders_off\":[],\"manifest\":null,\"phase\":\"set\",\"saves\":[],\"sets\":[{\"back\":\"stage/b/x.txt\",\"from\":\"game/x.txt.vortex_backup\",\"to\":\"game/x.txt\"}],\"version\":2}";

// The same, once its sets are done.
pub const BACK_CLEAR: &str =
    "{\"clears\":[\"game/x.txt.vortex_backup\"],\"folders\":[],\"folders_off\":[],\"manifest\":null,\"phase\":\"clear\",\"saves\":[],\"sets\":[],\"version\":2}";

// The saved file of the game comes back, and what others put over the link goes aside.
pub const ASIDE: &str =
    "{\"clears\":[\"game/x.txt.vortex_backup\"],\"folders\":[\"keep/aside\",\"keep/aside/1\",\"keep/aside/1/game\"],\"folders_off\":[],\"manifest\":null,\"phase\":\"set\",\"saves\":[[\"game/x.txt\",\"keep/aside/1/game/x.txt\"]],\"sets\":[{\"back\":\"keep/aside/1/game/x.txt\",\"from\":\"game/x.txt.vortex_backup\",\"to\":\"game/x.txt\"}],\"version\":2}";

// What others put over a link becomes the file of the mod, whose old one goes aside.
pub const IMPORT: &str =
    "{\"clears\":[],\"folders\":[\"keep/aside\",\"keep/aside/1\",\"keep/aside/1/stage\",\"keep/aside/1/stage/b\"],\"folders_off\":[],\"manifest\":{\"files\":[{\"digest\":\"ba7816bf8f01cfea414140de5dae2223b00361a396177a9cb410ff61f20015ad\",\"mod\":\"b\",\"path\":\"x.txt\",\"shadowed\":false,\"source\":\"x.txt\"}],\"folders\":[],\"version\":2},\"phase\":\"set\",\"saves\":[[\"stage/b/x.txt\",\"keep/aside/1/stage/b/x.txt\"]],\"sets\":[{\"back\":\"keep/aside/1/stage/b/x.txt\",\"from\":\"game/x.txt\",\"to\":\"stage/b/x.txt\"}],\"version\":2}";

// A folder is made for a file of a mod, and another one is taken off.
pub const TURN: &str =
    "{\"clears\":[],\"folders\":[\"game/d\"],\"folders_off\":[\"game/e\"],\"manifest\":{\"files\":[{\"digest\":\"ba7816bf8f01cfea414140de5dae2223b00361a396177a9cb410ff61f20015ad\",\"mod\":\"b\",\"path\":\"d/y\",\"shadowed\":false,\"source\":\"d/y\"}],\"folders\":[\"d\"],\"version\":2},\"phase\":\"set\",\"saves\":[],\"sets\":[{\"back\":null,\"from\":\"stage/b/d/y\",\"to\":\"game/d/y\"},{\"back\":\"stage/a/e/z\",\"from\":null,\"to\":\"game/e/z\"}],\"version\":2}";

// A set whose folder is not there.
pub const BLOCKED: &str =
    "{\"clears\":[],\"folders\":[],\"folders_off\":[],\"manifest\":{\"files\":[{\"digest\":\"ba7816bf8f01cfea414140de5dae2223b00361a396177a9cb410ff61f20015ad\",\"mod\":\"b\",\"path\":\"q/x.txt\",\"shadowed\":false,\"source\":\"x.txt\"}],\"folders\":[],\"version\":2},\"phase\":\"set\",\"saves\":[],\"sets\":[{\"back\":null,\"from\":\"stage/b/x.txt\",\"to\":\"game/q/x.txt\"}],\"version\":2}";

// The text of `PUT` in the first version of the format.
pub const FIRST_VERSION: &str =
    "{\"clears\":[],\"folders\":[],\"folders_off\":[],\"manifest\":{\"files\":[{\"digest\":\"ba7816bf8f01cfea414140de5dae2223b00361a396177a9cb410ff61f20015ad\",\"mod\":\"b\",\"path\":\"x.txt\",\"shadowed\":false}],\"folders\":[],\"version\":1},\"phase\":\"set\",\"saves\":[],\"sets\":[{\"back\":null,\"from\":\"stage/b/x.txt\",\"to\":\"game/x.txt\"}],\"version\":1}";

fn intent(rt: &(impl AllocGlobal + Abort), text: &str) -> Intent
    ensures { IsAccepted result }
{
    let read = read_intent(rt.alloc(), text.as_bytes()).expect(rt, "memory");
    read.expect(rt, "an intent")
}

fn plan(rt: &(impl AllocGlobal + Abort), text: &str) -> Plan
    ensures { PassesRules result }
{
    let Intent { phase: _, plan } = intent(rt, text);
    plan
}

// The plan of an intent, with what its steps need.
pub fn ready(rt: &(impl AllocGlobal + Abort), text: &str) -> Ready {
    prepare(rt.alloc(), plan(rt, text), 10_000).expect(rt, "a short intent")
}
