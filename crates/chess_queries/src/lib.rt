//! What one asks of a line besides playing it: how its game ended by the Laws (`outcome`), its legal moves with their texts (`move_texts`), and the
//! same line once more (`copy_line`).
#![tactic(auto)]

mod copy;
mod ended;
mod texts;

pub use copy::copy_line;
pub use ended::{outcome, outcome_by};
pub use texts::{MoveText, move_texts};
