// What recovery does: old temps go, and the intent that stands is carried out to its end.
ghost use Rattle.tree_fs.specs.Story.{disk_of};
ghost use Rattle.tree_mem.specs.MemStory.{mem_story};
ghost use Rattle.intent_json.specs.Accepted.{IsAccepted};
ghost use Rattle.intent_journal.specs.Found.{IsThere};

use crate::looks::{need_open, need_open_places};
use intent_journal::{adopt_intent, find_intent, prepare, sweep_temps};
use intent_json::{Intent, Phase};
use plan_exec::{carry_out_clear, carry_out_set};
use rel_paths::Control;
use std::process::Abort;
use tree_mem::MemTree;

// Ends what was begun, which has to work.
pub fn recover(rt: &(impl AllocGlobal + Abort), tree: &mut MemTree) {
    need_open(tree, Control::IntentTemp).expect(rt, "an open temp");
    need_open(tree, Control::ManifestTemp).expect(rt, "an open temp");
    need_open(tree, Control::ProfileTemp).expect(rt, "an open temp");
    sweep_temps(tree).expect(rt, "a sweep");
    need_open(tree, Control::Intent).expect(rt, "an open place");
    if let Some(intent) = find_intent(rt.alloc(), tree).expect(rt, "no intent, or a good one") {
        end(rt, tree, intent);
    }
}

fn end(rt: &(impl AllocGlobal + Abort), tree: &mut MemTree, intent: Intent)
    requires there { IsThere intent (disk_of (mem_story tree.old)) }
    requires accepted { IsAccepted intent }
{
    let guard = match adopt_intent(tree, &intent) {
        Ok(guard) => guard,
        Err(_) => panic!(rt; "it can't be adopted"),
    };
    let Intent { phase, plan } = intent;
    let ready = prepare(rt.alloc(), plan, 1_000_000).expect(rt, "a short intent");
    need_open_places(tree).expect(rt, "open places");
    let answer = match phase {
        Phase::Set => carry_out_set(guard, tree, &ready),
        Phase::Clear => carry_out_clear(guard, tree, &ready),
    };
    answer.expect(rt, "an intent that can be ended");
}
