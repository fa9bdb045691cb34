//! The texts of the games of a collection: as many bytes at hand as a game may have, and what a handler makes of them, stretch by stretch; and what the tags of a
//! text say that no game keeps.
#![tactic(auto)]

mod going;
mod handler;
mod heading;
mod window;

pub use going::{Totals, go_over};
pub use handler::{Fate, GameHandler, Handled};
pub use heading::{Heading, Three, heading_of, three_of};
pub use window::Window;
