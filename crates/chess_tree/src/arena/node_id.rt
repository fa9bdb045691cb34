//! The number by which a node is named.

ghost use Rattle.std.specs.Prelude.{◌≡◌};

use std::marker::Model;

/// The number of a node, by which the others name it. Contracts see the number; the root's is 0.
#[derive(Clone, Copy, Default, PartialEq, Eq)]
pub(crate) struct NodeId {
    number: u32,
}

impl Model for NodeId {
    ghost use Rattle.std.specs.Prelude.{ℕ};

    ghost Value = { ℕ };

    ghost view = { λ n. n.number };

    ghost inverse = { λ n. record { number = n } };
}

impl NodeId {
    /// The node of that number.
    #[inline(always)]
    pub(crate) fn new(number: u32) -> NodeId
        ensures { result ≡ number }
    {
        NodeId { number }
    }

    /// The root.
    #[inline(always)]
    pub(crate) fn root() -> NodeId
        ensures { result ≡ 0 }
    {
        NodeId { number: 0 }
    }

    /// Its number.
    #[inline(always)]
    pub(crate) fn number(self) -> u32
        ensures { result ≡ self }
    {
        self.number
    }

    /// Where it lies among the nodes.
    #[inline(always)]
    pub(crate) fn index(self) -> usize
        ensures { result ≡ self }
    {
        self.number as usize
    }
}
