//! Games in portable game notation (PGN 3): a game read from the items of a text, and the export form of a game.
//!
//! What a text is made of is defined in `chess_items/specs/Items.antt`, what a game is in `specs/Games.antt`, and its export form, which `write_game`
//! gives, in `specs/Written.antt`. That a game which is written is read again is a law of these definitions (`specs/Laws.antt`), which
//! `game_laws` states.
#![tactic(auto)]

mod basis;
mod game;
mod games;
mod laws;
mod lines;
mod movetext;
mod others;
mod plain;
mod reader;
mod speller;
mod tags;
mod texts;
mod usual;
mod writer;

pub use chess_items::{FaultKind, Outcome, PgnFault};
pub use game::Game;
pub use games::{Games, GamesFault, read_game};
pub use laws::game_laws;
pub use tags::Tags;
pub use texts::Texts;
pub use writer::{write_as, write_game, write_game_with, write_tree};
