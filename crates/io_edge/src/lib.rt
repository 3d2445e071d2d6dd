//! The edge of the program: where bytes come from, where they go, and the lines of what comes in.
//! Tests stand in the crate `stream_tests`.
#![tactic(auto)]

mod error;
mod lines;
mod mem;
mod sink;
mod source;
mod std_io;

pub use error::IoError;
pub use lines::{Line, LineError, LineReader, MOST_LINE_BYTES, MOST_LINES};
pub use mem::{MemSink, MemSource};
pub use sink::{Sink, push_all};
pub use source::Source;
pub use std_io::{StdSink, StdSource};
