//! `board`: a game tree by the Laws of Chess, which answers a line of input at a time (`specs/Answers.antt`).

mod answer;
mod command;
mod goto;
mod lists;
mod machine;
mod numbers;
mod outcomes;
mod over_bytes;
mod over_streams;
mod path;
mod refusal;
mod texts;

pub use machine::Board;
pub use over_bytes::board_over_bytes;
pub use over_streams::{READS, board, board_with, board_within};
pub use refusal::Refusal;
pub use texts::{Kept, counts_text, eval_text};
