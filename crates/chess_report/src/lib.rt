//! What the Laws say of a game: a report over its main line (FIDE Laws, articles 5 and 9).
//!
//! Each field of a `Report` is a definition over the main line (`specs/MainLine.antt`, `specs/Findings.antt`), in the words of the Laws' definitions of
//! status, claims and repetitions (`chess_types/specs/board`).
#![tactic(auto)]

mod report;
mod tally;

pub use report::{Over, Report};
