//! What planners make their lists of: paths in order and their places, searches in them, the folders
//! above paths, and which own folders go.
#![tactic(auto)]

mod above;
mod folders;
mod places;
mod rows;
mod search;

pub use above::folders_above;
pub use folders::{OwnFolders, own_folders};
pub use places::{game_places, in_order, push_some};
pub use rows::{original, staged_row};
pub use search::{Pathed, has_below, has_text, has_text_falling};
