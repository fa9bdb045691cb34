//! The tests by subject: best moves, and searches compared with plain minimax.

mod best;
mod plain;
mod random;
mod replies;
