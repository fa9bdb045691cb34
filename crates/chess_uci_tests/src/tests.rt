//! The tests by subject: tables of events and replies, lines, and events in any order.

mod interleavings;
mod lines;
mod plain;
mod rows;
