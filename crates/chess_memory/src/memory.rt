//! The types by which boards and calls of the library for C take memory and give it back: the process' heap.

ghost use Rattle.std.specs.Prelude.{◌≡◌, IfSome, None};
ghost use Rattle.chess_memory.specs.Lent.{IsTooSmall};

use std::alloc::Global;

/// What a board holds a `&'static` to.
pub type Heap = Global;
/// What a collection, or a box, is given.
pub type Handle = Global;
/// What is passed to a call that takes memory without a board.
pub type Lender = Global;
/// What is passed to a call on a board, whose box is freed by it.
pub type Kept = Global;
/// What lies in the keys: all boards with these keys share it.
pub type Shared = Global;
/// What is lent where the keys are filled.
pub type Lent = Global;

/// What lies in the keys then; `None` where what is lent is too small.
pub fn lend(lent: Lent) -> Option<Shared>
    ensures { result ≡ None → IsTooSmall lent }
{
    Some(lent)
}

/// The heap of a new board, if there is one.
pub fn heap_of(_lender: Lender, shared: &'static Shared) -> Option<&'static Heap> {
    Some(shared)
}

/// What a call without a board takes memory by, if there is any.
pub fn handle_of(lender: Lender) -> Option<Handle> {
    Some(lender)
}

/// What a call on a board takes memory by.
pub fn handle_to(heap: &'static Heap) -> Handle {
    *heap
}

/// By what a box is freed whose memory is taken by a handle.
pub fn kept_by(handle: Handle) -> Kept {
    handle
}

/// The value in a box of its own; `None` where there is no memory.
pub fn keep<T: Drop>(handle: Handle, value: T) -> Option<Box<T, Kept>>
    ensures { IfSome result (λ b. b.value ≡ value) }
{
    match Box::new(handle, value) {
        Ok(made) => Some(made),
        Err(_) => None,
    }
}
