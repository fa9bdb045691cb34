//! A node in 16 bytes.

ghost use Rattle.std.specs.Prelude.{◌≡◌};
ghost use Rattle.chess_tree.specs.steps.KeptSlots.{children_kind, number_below};

use super::node_id::NodeId;
use super::slot::{Below, Slot};
use chess_types::{KeptMove, Move};
use std::marker::Model;

// How many children a node has.
#[derive(Clone, Copy)]
enum Children {
    Nothing,
    One,
    Listed,
}

impl Children {
    fn of(below: &Below) -> Children
        ensures { result ≡ children_kind below.now }
    {
        match below {
            Below::Nothing => Children::Nothing,
            Below::One(_) => Children::One,
            Below::Listed(_) => Children::Listed,
        }
    }
}

// The number of the one child, or of the list.
fn number_of(below: &Below) -> u32
    ensures { result ≡ number_below below.now }
{
    match below {
        Below::Nothing => 0,
        Below::One(child) => child.number(),
        Below::Listed(list) => *list,
    }
}

/// A slot as it is kept: what is in its move and in `Below` takes a byte each, so that it has 16. Contracts see the slot.
#[derive(Clone, Copy)]
pub(crate) struct KeptSlot {
    played: KeptMove,
    children: Children,
    parent: NodeId,
    place: u32,
    /// The number of the one child, or of the list; 0 where there is none.
    number: u32,
}

impl Model for KeptSlot {
    ghost use Rattle.chess_tree.specs.declared.arena.slot.Slot.{Slot};
    ghost use Rattle.chess_tree.specs.steps.KeptSlots.{IsNumbered, below_of, children_kind, children_kind-below, number_below, number-below};

    ghost Value = { Slot };

    ghost view = { λ k. record { played = k.played; parent = k.parent; place = k.place; below = below_of k.children k.number } };

    ghost invariant = { λ k. IsNumbered k.children k.number };

    ghost inverse = { λ s. record { played = s.played; children = children_kind s.below; parent = s.parent; place = s.place; number = number_below s.below } };

    ghost inverse_ok = { λ k is i. record { played = k.played; children = children_kind-below k.children k.number i; parent = k.parent; place = k.place; number = number-below k.children k.number is i } };
}

impl KeptSlot {
    /// The slot in 16 bytes.
    #[inline(always)]
    pub(crate) fn of(slot: Slot) -> KeptSlot
        ensures { result ≡ slot }
    {
        prove!(size_of::<KeptSlot>() == 16);
        let Slot {
            played,
            parent,
            place,
            below,
        } = slot;
        KeptSlot {
            played: KeptMove::of(played),
            children: Children::of(&below),
            parent,
            place,
            number: number_of(&below),
        }
    }

    /// The move that leads to the node.
    #[inline(always)]
    pub(crate) fn played(self) -> Move
        ensures { result ≡ self.played }
    {
        self.played.get()
    }

    /// The node's parent.
    #[inline(always)]
    pub(crate) fn parent(self) -> NodeId
        ensures { result ≡ self.parent }
    {
        self.parent
    }

    /// The node's place among its parent's children.
    #[inline(always)]
    pub(crate) fn place(self) -> u32
        ensures { result ≡ self.place }
    {
        self.place
    }

    /// Where the node's children are.
    #[inline(always)]
    pub(crate) fn below(self) -> Below
        ensures { result ≡ self.below }
    {
        match self.children {
            Children::Nothing => Below::Nothing,
            Children::One => Below::One(NodeId::new(self.number)),
            Children::Listed => Below::Listed(self.number),
        }
    }

    /// The slot.
    #[inline(always)]
    pub(crate) fn slot(self) -> Slot
        ensures { result ≡ self }
    {
        Slot {
            played: self.played(),
            parent: self.parent,
            place: self.place,
            below: self.below(),
        }
    }

    /// Other children.
    #[inline(always)]
    pub(crate) fn set_below(&mut self, below: Below)
        ensures { self.new ≡ record self.old { below = below } }
    {
        let mut slot = self.slot();
        slot.below = below;
        *self = KeptSlot::of(slot);
    }

    /// Another parent.
    #[inline(always)]
    pub(crate) fn set_parent(&mut self, parent: NodeId)
        ensures { self.new ≡ record self.old { parent = parent } }
    {
        self.parent = parent;
    }

    /// Another place.
    #[inline(always)]
    pub(crate) fn set_place(&mut self, place: u32)
        ensures { self.new ≡ record self.old { place = place } }
    {
        self.place = place;
    }
}
