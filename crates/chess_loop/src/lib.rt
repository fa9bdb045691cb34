//! Lines in, answers out: the loop over a reader and a writer, for any handler.
//!
//! A `LineHandler` says which text may answer a line, and which state follows; `run` cuts what the reader gives into lines, lets the handler answer them, and
//! writes the answers, those to the lines of one read before the next. Its contract says how a run ends, from bytes to bytes (`specs/RunEnds.antt`).
#![tactic(auto)]

mod buffers;
mod driver;
mod handler;
mod line_buffer;
mod output_buffer;
mod write;

pub use buffers::filled;
pub use driver::{RunEnd, run};
pub use handler::LineHandler;
pub use line_buffer::Unread;
pub use output_buffer::OutputBuffer;
pub use write::write_all;
