//! Small worlds for tests, written as texts, on a disk in memory.
//!
//! A world is a list of lines. `stage/a/` is a folder, `stage/a/x.txt = "abc"` a file with these
//! bytes, and `game/x.txt = stage/a/x.txt` one more name of a file; the folders above are made
//! too. All of it is settled and firm. `shown` writes a world in the same form.
//!
//! A function here fails where what it does can't be done, and says why by a `WorldError`. Each
//! look at the disk is a call of the trait, which `MemTree::fail_at` counts.
//!
//! The functions serve tests alone. Their clauses say what a call of the trait needs to be made;
//! that a world is what its lines are is only tested.
#![tactic(auto)]

mod adding;
mod calls;
mod changing;
mod error;
mod looking;
mod needs;
mod places;
mod showing;
mod steps;

pub use adding::{add, world};
pub use calls::{
    fail_call, link, make_folder, put_new, remove_folder, rename, sync_file, sync_folder, unlink,
};
pub use changing::{edit_outside, link_outside, put_outside, remove_outside};
pub use error::WorldError;
pub use looking::{bytes_of, is_same_file, kind_of, listed, size_of};
pub use needs::{
    kind_at, need_absent, need_file, need_folder, need_free, need_removable, need_target,
};
pub use places::place_of;
pub use showing::shown;
pub use steps::{count_steps, steps_of};
