//! Games of texts that strict reading refuses, read from what they are repaired to; and what comes after the last game.
#![tactic(auto)]

mod ending;
mod salvaging;

pub use chess_repair::{Repair, RepairKind};
pub use ending::is_end;
pub use salvaging::{Salvaged, salvage};
