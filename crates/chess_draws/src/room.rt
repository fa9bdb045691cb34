//! Room for one item more in a list.

ghost use Rattle.std.specs.Prelude.{◌≡◌, ◌<◌, ◌≤◌, OnErr, OnOk, length, vec_capacity};

use std::alloc::{AllocError, Allocator};

/// Makes room for one item more; where there is none, for `more`, at most 64, and an eighth of those that there are, so that little memory lies idle.
pub fn make_room<T, A: Allocator>(items: &mut Vec<T, A>, more: usize) -> Result<(), AllocError>
    requires some { 0 < more }
    requires few { more ≤ 64 }
    ensures items { items.new.items ≡ items.old.items }
    ensures ok { OnOk result (length items.new.items < vec_capacity items.new) }
    ensures kept { vec_capacity items.old ≤ vec_capacity items.new }
    ensures full { OnErr result (vec_capacity items.old ≤ length items.old.items) }
{
    if items.len() < items.capacity() {
        return Ok(());
    }
    items.reserve_exact(items.len() / 8 + more)
}
