//! A game edited: its tags by their rules (PGN 8.1), `set_tag` and `clear_tag`; and another game joined to it as a variation, `join`.
#![tactic(auto)]

mod joining;
mod tags;

pub use joining::{JoinFault, join};
pub use tags::{TagFault, check_tag, clear_tag, set_tag, unknown_value};
