//! Where the memory of boards comes from: C's heap, by a `Global`, which takes no bytes, so that C passes nothing for one.
//!
//! In WebAssembly another crate has this name, over memory that the page lends (`platforms/wasm/chess_memory`). Both declare the same names, so `chess_c` is
//! written once: a `Heap` is what a board holds a `&'static` to, and a `Handle` what a collection or a box of its own is given. C passes a `Lent` where the
//! keys are filled, a `Lender` to a call that takes memory without a board, and a `Kept` to every call on a board: by that the box of the slot is freed.
#![tactic(auto)]

mod memory;

pub use memory::{
    Handle, Heap, Kept, Lender, Lent, Shared, handle_of, handle_to, heap_of, keep, kept_by, lend,
};
