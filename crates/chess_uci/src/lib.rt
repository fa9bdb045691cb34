//! A session of the universal chess interface (UCI).
//!
//! A `Session` is given events: lines that are read, slices of time in which a search goes on, and readings of the clock. It returns
//! the lines to reply. What it replies to which events is the machine of `specs/Machine.antt`, what a line asks for in
//! `specs/Commands.antt`, `specs/Go.antt` and `specs/Placing.antt`; `event` is that machine.
#![tactic(auto)]

mod command;
mod event;
mod fields;
mod go;
mod laws;
mod placing;
mod reply;
mod roots;
mod search;
mod session;
mod table;

pub use event::Event;
pub use laws::session_laws;
pub use reply::Reply;
pub use session::Session;
