//! What all boards of C share: where their memory comes from, and the table of their keys.

ghost use Rattle.std.specs.Prelude.{◌≡◌, ◌⊎◌};
ghost use Rattle.chess_memory.specs.Lent.{IsTooSmall};

use chess_bindings::{MEMORY, OK};
use chess_key::KeyTable;
use chess_memory::{Lent, Shared, lend};

/// What all boards share, which has to stay for as long as any of them does: what their memory comes from, which takes no bytes in C, and the table of their
/// keys.
#[repr(C)]
#[derive(Drop)]
pub struct Keys {
    pub heap: Shared,
    pub table: KeyTable,
}

/// Fills the table with the words that the program has; no answer depends on them. In WebAssembly the page lends the memory, and fills the keys with zeros first;
/// where it lends too little the status is 2, and the keys are as they were. In C it is always 0.
#[unsafe(no_mangle)]
pub extern "C" fn jatshegi_keys_fill(lent: Lent, keys: &mut Keys) -> u32
    ensures { (result ≡ 0) ⊎ ((result ≡ 2) × IsTooSmall lent × (keys.new ≡ keys.old)) }
{
    let Some(heap) = lend(lent) else {
        return MEMORY;
    };
    keys.heap = heap;
    keys.table = KeyTable::fixed();
    OK
}
