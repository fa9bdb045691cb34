//! Laws of the Laws: what the definitions of `chess_types/specs/board` say of one another. That those definitions are the Laws of Chess has to be
//! believed; each law that is proved of them leaves less to believe. `search_laws` says the same of the definitions of `chess_search`.
//!
//! Each law is the clause of a function that does nothing; its statement is in `specs/`.
#![tactic(auto)]

mod dead;
mod flip;
mod mating;
mod mirror;
mod moves;
mod outcomes;
mod searches;
mod texts;

pub use dead::dead_laws;
pub use flip::flip_laws;
pub use mating::mating_laws;
pub use mirror::mirror_laws;
pub use moves::move_laws;
pub use outcomes::outcome_laws;
pub use searches::search_laws;
pub use texts::text_laws;
