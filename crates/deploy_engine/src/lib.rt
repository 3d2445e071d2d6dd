//! The engine: a command's words in, the disk looked at or changed, one answer and its lines out.
//!
//! Each command is a row of one table (`work_of` in `specs/Table.antt`): the order in which it may
//! be refused, what it leaves, what it prints, which disks a stop may find. `run` has one contract,
//! said of the row of the command. In `src/commands/` each command is a module of its own, whose
//! function is proved to do its row; `engine` calls it and tells what came of it.
#![tactic(auto)]

mod answer;
mod batch;
mod by_input;
mod commands;
mod engine;
mod running;
mod touring;
mod words;

pub use answer::Answer;
pub use command_steps::Limits;
pub use engine::run;
pub use io_edge as streams;
pub use tour_counts::Tour;
pub use touring::tour;
