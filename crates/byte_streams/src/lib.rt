//! What bytes are read from and written to: `Source` and `Sink`, over std's readers and writers (`FromRead`, `ToWrite`)
//! and over bytes in memory (`FromBytes`, `ToBytes`, whose calls can be made to fail); and the words in some bytes.
//! Knows nothing of chess.

mod sink;
mod slices;
mod source;
mod streams;
mod words;
mod write_failure;

pub use sink::Sink;
pub use slices::{FromBytes, ToBytes};
pub use source::{Failed, Source};
pub use streams::{FromRead, ToWrite};
pub use words::{split_word, trim};
pub use write_failure::WriteFailure;
