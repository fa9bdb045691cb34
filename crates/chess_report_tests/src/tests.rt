//! The tests by subject: reports, lines, edits, and walks over trees.

mod edit;
mod lines;
mod report;
mod walk;
