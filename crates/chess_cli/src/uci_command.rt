//! `uci`: a session of the universal chess interface, by the written machine of `chess_uci` and the clock (`specs/TimedSessions.antt`).

mod clock;
mod sessions;
mod timed_session;

pub use clock::Clock;
pub use sessions::{uci, uci_with};
pub use timed_session::TimedSession;
