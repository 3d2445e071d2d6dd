//! What the program says: why a command was refused, and the lines that it prints.
//!
//! A `Refusal` is one row of a table of number, name and carried values; its number and its line are
//! read off that row. A line is a first value, each further value after a tab, and a line feed. The
//! lines of a list are printed in one pass. The tests are in the crate `answer_tests`.
#![tactic(auto)]

mod fixed;
mod ids;
mod lists;
mod refusal;
mod rows;
mod told;
mod totals;
mod values;

pub use fixed::FixedLine;
pub use ids::Ids;
pub use lists::{change_lines, conflict_lines, order_lines, winner_lines};
pub use refusal::{
    EarlyRefusal, EditRefusal, ForeignRefusal, InputRefusal, ManifestRefusal, NamedRefusal,
    PlanRefusal, ProfileRefusal, RecoveryRefusal, Refusal, RuleRefusal, ScanRefusal,
};
pub use told::refusal_line;
pub use totals::{IntentState, Totals, total_lines};
