//! A list filled with one value.

ghost use Rattle.std.specs.Prelude.{◌≡◌, IfOk, vec_len};

use std::alloc::{AllocError, Allocator};

/// A list of this value, `len` times. The contract says no more, since a long list of them would be written out in each goal.
pub fn filled<T: Copy, A: Allocator>(
    alloc: A,
    value: T,
    len: usize,
) -> Result<Vec<T, A>, AllocError>
    ensures { IfOk result (λ list. vec_len list ≡ len) }
{
    vec![in alloc; value; len]
}
