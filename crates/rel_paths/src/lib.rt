//! Paths below a root and mods' ids: the texts that are taken, the faults of those that aren't,
//! the backup of a path, the places that the program keeps for itself, and the order of all of
//! these, which is that of the bytes of their texts. Tests stand in the crate `value_tests`.
#![tactic(auto)]

mod control;
mod error;
mod mod_id;
mod names;
mod path;
mod text;

pub use control::Control;
pub use error::{PathError, only_memory};
pub use mod_id::ModId;
pub use path::RelPath;
pub use text::Text;
