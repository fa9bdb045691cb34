//! A node's move, parent and place, and where its children are, as contracts see it.

ghost use Rattle.std.specs.Prelude.{◌≡◌};
ghost use Rattle.chess_tree.specs.steps.Slots.{leaf_slot};

use super::node_id::NodeId;
use chess_types::Move;

/// Where the numbers of a node's children are kept. Nearly every node has one child or none.
#[derive(Clone, Copy)]
pub(crate) enum Below {
    /// It has none.
    Nothing,
    /// It has this one.
    One(NodeId),
    /// They are the list of that number, which no other node has.
    Listed(u32),
}

/// A node: its move, its parent, its place among the parent's children, and where its own children are.
#[derive(Clone, Copy)]
pub(crate) struct Slot {
    pub(crate) played: Move,
    pub(crate) parent: NodeId,
    pub(crate) place: u32,
    pub(crate) below: Below,
}

impl Slot {
    /// A node without children.
    pub(crate) fn leaf(played: Move, parent: NodeId, place: u32) -> Slot
        ensures { result ≡ leaf_slot played parent place }
    {
        Slot {
            played,
            parent,
            place,
            below: Below::Nothing,
        }
    }
}
