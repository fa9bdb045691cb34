//! Reads and writes the Forsyth-Edwards notation of a position (FEN, PGN 16.1.3).
//!
//! `read` answers with the position that a text spells, or with the first fault of a text that spells none. Both are
//! defined in `specs/Reading.antt`, the men of the first field in `specs/Ranks.antt`. `write` gives the one text of a position,
//! which is defined in `specs/Writing.antt` and reads as that position.
#![tactic(auto)]

mod counters;
mod fault;
mod fields;
mod men;
mod ranks;
mod reader;
mod rights;
mod target;
mod writer;

pub use fault::FenFault;
pub use reader::read;
pub use writer::{write, write_fields};
