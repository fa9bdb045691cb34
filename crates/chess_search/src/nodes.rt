//! The number of positions that a search has asked for.

ghost use Rattle.std.specs.Prelude.{◌≡◌, ◌+◌, ◌-◌, ◌^◌, min};

use std::marker::Model;

/// How many positions a search has asked for their value, its root included (no more than `u64::MAX`).
#[derive(Clone, Debug, Default, Drop)]
pub struct Nodes {
    count: u64,
}

impl Model for Nodes {
    ghost use Rattle.std.specs.Prelude.{ℕ};

    ghost Value = { ℕ };

    ghost view = { λ n. n.count };
}

impl Nodes {
    /// None yet.
    pub fn new() -> Nodes
        ensures { result ≡ 0 }
    {
        Nodes { count: 0 }
    }

    /// The positions of the last search.
    pub fn nodes(&self) -> u64
        ensures { result ≡ self.now }
    {
        self.count
    }

    /// One position more.
    pub(crate) fn tick(&mut self)
        ensures { self.new ≡ min (self.old + 1) (2 ^ 64 - 1) }
    {
        self.count = self.count.saturating_add(1);
    }
}
