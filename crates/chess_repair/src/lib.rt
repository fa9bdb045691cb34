//! Texts of games as people write them, written anew so that they may be read.
//!
//! `spell` goes once over the text of a game and rewrites what strict reading refuses wherever it is; `mend_at` writes a text anew where strict reading
//! refused an item of it. Each repair has a name, a place and a length, and all bytes between repairs stay as they are (`specs/Repairs.antt`). Before that
//! `respell` writes the piece letters of another language as the standard's (`specs/Letters.antt`). There is no rule of chess here.
#![tactic(auto)]

mod cut;
mod ends;
mod fen;
mod letters;
mod marks;
mod moves;
mod pen;
mod repair;
mod respelling;
mod runs;
mod senses;
mod spelling;
mod standing;
mod tags;
mod words;

pub use cut::mend_at;
pub use letters::Letters;
pub use repair::{Repair, RepairKind};
pub use respelling::{LETTER, Respelled, respell};
pub use spelling::{Spelled, spell};
