//! Moves in standard algebraic notation (SAN, PGN 8.2.3), read and written.
//!
//! `write` gives the one text of a legal move (`specs/Writing.antt`). `read` returns the legal move that a
//! text names, or says why there is none; the forms of texts are defined in `specs/Forms.antt`, and which moves they name in
//! `specs/Naming.antt`. What is written of a move names that move alone.
#![tactic(auto)]

mod course;
mod fault;
mod form;
mod glance;
mod names;
mod origins;
mod reader;
mod writer;

pub use fault::SanFault;
pub use glance::at_a_glance;
pub use reader::read;
pub use writer::{write, write_mark, write_unmarked};
