//! The commands `board`, `uci` and `pgn` over a reader and a writer: bytes in, bytes out.
//!
//! `board` keeps a game tree by the Laws of Chess and answers a line of input at a time. Its contract is the whole of it, from bytes to
//! bytes: what the writer takes is what the written machine of `specs/Answers.antt` answers to the lines read. `uci` keeps a session of the
//! universal chess interface, by the written machine of `chess_uci` and the clock (`specs/TimedSessions.antt`), over the same loop.
#![tactic(auto)]

mod board_command;
mod ended;
mod laws;
mod pgn_command;
mod uci_command;

pub use board_command::{
    Board, Kept, Refusal, board, board_over_bytes, board_with, board_within, counts_text, eval_text,
};
pub use ended::Ended;
pub use laws::{collection_laws, path_laws};
pub use pgn_command::pgn;
pub use uci_command::{Clock, TimedSession, uci, uci_with};
