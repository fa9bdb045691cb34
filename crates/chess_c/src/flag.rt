//! A flag by which one thread has the searches of another abandoned.
ghost use Rattle.std.specs.Prelude.{◌≡◌, is_some};

use chess_bindings::Within;
use chess_memory::{Handle, Kept};
use std::marker::Model;
use std::sync::Arc;
use std::sync::atomic::{AtomicBool, Ordering};

/// A handle of a flag that any thread may set.
#[derive(Drop)]
pub struct Flag {
    flag: Arc<AtomicBool, Handle>,
}

impl Model for Flag {
    ghost Value = { Unit {0} };

    ghost view = { λ f. tt };
}

impl Flag {
    /// A flag that isn't set; `None` where there is no memory.
    pub fn new(handle: Handle) -> Option<Flag> {
        match Arc::new(handle, AtomicBool::new(false)) {
            Ok(flag) => Some(Flag { flag }),
            Err(_) => None,
        }
    }

    /// Another handle of the same flag; `None` where there is no memory for it.
    pub fn another(&self) -> Option<Flag> {
        match Arc::try_clone(&self.flag) {
            Ok(flag) => Some(Flag { flag }),
            Err(_) => None,
        }
    }

    /// Sets the flag, or clears it.
    pub fn set(&self, set: bool) {
        self.flag.store(set, Ordering::SeqCst);
    }
}

/// No more positions than `nodes`, and the flag of a handle, if there is one.
pub fn within(nodes: u64, flag: &Option<Box<Flag, Kept>>) -> Within<'_>
    ensures { (result.nodes ≡ nodes) × (is_some result.flag ≡ is_some flag.now) }
{
    Within {
        nodes,
        flag: match flag {
            Some(kept) => Some(&*kept.flag),
            None => None,
        },
    }
}
