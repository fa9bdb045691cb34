//! When a search is abandoned for a caller in another language.
ghost use Rattle.std.specs.Prelude.{is_some};

use chess_search::Watch;
use std::sync::atomic::{AtomicBool, Ordering};

/// The time is up at the first position beyond `nodes`, and where the flag, if there is one, is found set: it is looked at at the first position, and at each
/// 1,024th after it.
#[derive(Drop)]
pub struct Within<'f> {
    /// How many positions.
    pub nodes: u64,
    /// A flag that any thread may set.
    pub flag: Option<&'f AtomicBool>,
}

impl Watch for Within<'_> {
    ghost use Rattle.std.specs.Prelude.{is_some};
    ghost use Rattle.chess_bindings.specs.Within.{says_within};

    ghost says = { λ w n. says_within w.nodes (is_some w.flag) n };

    fn is_up(&mut self, nodes: u64) -> bool {
        if nodes > self.nodes {
            return true;
        }
        match self.flag {
            Some(flag) => nodes % 1024 == 1 && flag.load(Ordering::SeqCst),
            None => false,
        }
    }
}
