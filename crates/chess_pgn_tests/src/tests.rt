//! The tests by subject: games read, cut, passed over, written, in pieces, and random ones.

mod common;
mod cut;
mod passing;
mod pieces;
mod random;
mod reads;
mod table;
mod written;
