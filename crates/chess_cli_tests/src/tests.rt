//! The tests by subject: whole runs and sessions, games, growths of memory, hostile and unending input.

mod games;
mod growths;
mod hostile;
mod runs;
mod sessions;
mod unending;
