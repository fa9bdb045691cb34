//! Keys of boards: one number for each board, kept move by move. No answer of the board or the engine reads one yet.
//!
//! A `KeyTable` has a word for each man on each square; a `Key` borrows it, keeps the sum of the words of a placement's
//! men, and follows its changes. Equal boards have equal keys over one table; nothing follows from equal keys. Contracts
//! speak of the definition `key_of`, and of a `Key` as its words and its number (`specs/Keys.antt`).
#![tactic(auto)]

mod keys;
mod table;

pub use keys::Key;
pub use table::KeyTable;
