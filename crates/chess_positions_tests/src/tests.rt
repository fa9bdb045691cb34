//! The tests by subject: rows, and want of memory.

mod common;
mod memory;
mod rows;
