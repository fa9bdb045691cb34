//! The tests by subject: trees, analyses, edits, copies, walks, long and random ones.

mod analysis;
mod calls;
mod copies;
mod edits;
mod long;
mod random;
mod read;
mod refused;
mod trees;
mod walk;
