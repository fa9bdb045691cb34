//! An allocator over memory that its caller lends for good: the free parts are a list that is kept in those parts.
//!
//! After `linked_list_allocator` 0.10.5 (Philipp Oppermann, MIT or Apache-2.0) as Rattle's kit ports and proves it. Here the memory is the
//! caller's, and no part of a C library.
#![tactic(auto)]

mod block;
mod heap;
mod hole;
mod local;
mod memory;
mod slot;

pub use block::Block;
pub use heap::Heap;
pub use local::LentHeap;
pub use memory::Memory;
