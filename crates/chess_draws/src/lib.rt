//! Lines of moves, and what only the whole line shows: repetition, status and claims (FIDE Laws, articles 5 and 9).
//!
//! A `Line` keeps a starting position and the legal moves made from it. Contracts see just these (`Line` of the definitions in
//! `chess_types/specs/board/Lines.antt`), how many of its last moves are only looked at, the words of the key table, the ticks
//! of the last move and the room that is reserved. `make_room` is how its list grows, and those of trees.
#![tactic(auto)]

mod dead;
mod fault;
mod laws;
mod line;
mod look_back;
mod men;
mod ply;
mod repetition_key;
mod room;
mod status;
mod step;
mod target;

pub use chess_types::{Claims, Status};
pub use dead::cannot_mate;
pub use fault::LineFault;
pub use laws::identity_laws;
pub use line::{Line, LineWith, PlainLine};
pub use room::make_room;
