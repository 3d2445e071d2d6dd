//! The steps that commands take before they do their work, in the order of refusals.
//!
//! Each step is one function: it answers what it found, or why the command stops. The definitions of
//! what passes a step, and how it refuses, are in `specs/Steps.antt`; a step looks at the disk and
//! the limits alone, the step `answers` at an input too, which `choice_lines` reads. No step but the
//! barrier changes the disk.
#![tactic(auto)]

mod changes;
mod controls;
mod edit;
mod intent;
pub mod laws;
mod limits;
mod look;
mod manifest;
mod mods;
mod order;
mod overrides;
mod plan;
mod profile;
mod purge;
mod scans;
mod settle;
mod stop;
mod targets;
mod winners;

pub use changes::changes_of;
pub use controls::{
    check_controls, check_no_intent, check_start, run_barrier, start_change, start_recovery,
};
pub use edit::edit_profile;
pub use intent::intent_of;
pub use limits::Limits;
pub use look::{Looked, OrderLook, look_at_order, look_at_winners};
pub use manifest::manifest_of;
pub use order::{Ordered, check_rules, order_of};
pub use plan::plan_of;
pub use profile::profile_of;
pub use purge::purge_of;
pub use scans::scan_enabled;
pub use settle::settle_of;
pub use stop::Stop;
pub use targets::{PlacedScans, place_scans};
pub use winners::winners_of;
