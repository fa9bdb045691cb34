//! The nodes of a tree, each with its move, its parent, its place and its children.

ghost use Rattle.std.specs.Prelude.{◌≡◌, ◌<◌, ◌≤◌, ◌-◌, ◌++◌, ◌∷◌, [], length, remove, slice_get, slice_index, take, IfOk, OnOk, OnErr};
ghost use Rattle.std.proofs.Common.{set};
ghost use Rattle.chess_tree.specs.steps.Grove.{no_move};
ghost use Rattle.chess_tree.specs.steps.Entries.{leaf_entry, entry_at, moved_first, with_children, with_parent, with_place};
ghost use Rattle.chess_tree.specs.Forest.{most_moves};

use super::kept_slot::KeptSlot;
use super::node_id::NodeId;
use super::slot::{Below, Slot};
use chess_draws::make_room;
use chess_types::Move;
use smallvec::SmallVec;
use std::alloc::{AllocError, Allocator};
use std::marker::Model;

/// The nodes of a tree, each with its children. Contracts see a list: each node's move, parent, place and children's numbers.
#[derive(Drop)]
pub(crate) struct Nodes<'a, A: Allocator> {
    alloc: &'a A,
    slots: Vec<KeptSlot, &'a A>,
    /// The children of each node that ever had more than one, in lists of which each is one node's.
    lists: Vec<SmallVec<NodeId, 2, &'a A>, &'a A>,
}

impl<'a, A: Allocator> Model for Nodes<'a, A> {
    ghost use Rattle.std.specs.Prelude.{List};
    ghost use Rattle.std.specs.Coded.{coded_list};
    ghost use Rattle.chess_tree.specs.steps.Entries.{Entry, coded_entry};
    ghost use Rattle.chess_tree.specs.steps.Slots.{entries_of, IsKept};

    ghost Value = { List Entry };

    ghost coded = { coded_list coded_entry };

    ghost view = { λ n. entries_of n.lists.items n.slots.items };

    ghost invariant = { λ n. IsKept n.slots.items n.lists.items };
}

impl<'a, A: Allocator> Clone for Nodes<'a, A> {
    ghost is_clone = { λ nodes copy. copy ≡ nodes };

    fn clone(&self) -> Result<Nodes<'a, A>, AllocError> {
        Ok(Nodes {
            alloc: self.alloc,
            slots: self.slots.clone()?,
            lists: self.lists.clone()?,
        })
    }
}

impl<'a, A: Allocator> Nodes<'a, A> {
    /// One node, without children.
    pub(crate) fn new(alloc: &'a A) -> Result<Nodes<'a, A>, AllocError>
        ensures { IfOk result (λ nodes. nodes ≡ leaf_entry no_move 0 0 ∷ []) }
    {
        let mut slots = Vec::new(alloc);
        slots.push(KeptSlot::of(Slot::leaf(Move::default(), NodeId::root(), 0)))?;
        let lists = Vec::new(alloc);
        Ok(Nodes {
            alloc,
            slots,
            lists,
        })
    }

    /// The allocator.
    pub(crate) fn alloc(&self) -> &'a A {
        self.alloc
    }

    /// How many, at most 1,000,001.
    pub(crate) fn len(&self) -> usize
        ensures length { result ≡ length self.now }
        ensures few { result ≤ 1000001 }
    {
        self.slots.len()
    }

    /// The move that leads to a node.
    pub(crate) fn played(&self, at: NodeId) -> Move
        requires { at < length self.now }
        ensures { result ≡ (entry_at self.now at).played }
    {
        self.slots[at.index()].played()
    }

    /// The parent of a node.
    pub(crate) fn parent(&self, at: NodeId) -> NodeId
        requires { at < length self.now }
        ensures { result ≡ (entry_at self.now at).parent }
    {
        self.slots[at.index()].parent()
    }

    /// The place of a node among its parent's children, from 0.
    pub(crate) fn place(&self, at: NodeId) -> u32
        requires { at < length self.now }
        ensures { result ≡ (entry_at self.now at).place }
    {
        self.slots[at.index()].place()
    }

    /// How many children a node has.
    pub(crate) fn child_count(&self, at: NodeId) -> u32
        requires there { at < length self.now }
        requires few { length (entry_at self.now at).children ≤ 1000001 }
        ensures { result ≡ length (entry_at self.now at).children }
    {
        match self.slots[at.index()].below() {
            Below::Nothing => 0,
            Below::One(_) => 1,
            Below::Listed(list) => self.lists[list as usize].len() as u32,
        }
    }

    /// The child of a node at a place, from 0.
    pub(crate) fn child(&self, at: NodeId, place: u32) -> Option<NodeId>
        requires { at < length self.now }
        ensures { result ≡ slice_get (entry_at self.now at).children place }
    {
        match self.slots[at.index()].below() {
            Below::Nothing => None,
            Below::One(child) if place == 0 => Some(child),
            Below::One(_) => None,
            Below::Listed(list) => at_place(&self.lists[list as usize], place),
        }
    }

    /// A node more, without children, under the next number.
    pub(crate) fn push(
        &mut self,
        played: Move,
        parent: NodeId,
        place: u32,
    ) -> Result<(), AllocError>
        requires { length self.old ≤ most_moves }
        ensures ok { OnOk result (self.new ≡ self.old ++ leaf_entry played parent place ∷ []) }
        ensures err { OnErr result (self.new ≡ self.old) }
    {
        make_room(&mut self.slots, 16)?;
        self.slots
            .push(KeptSlot::of(Slot::leaf(played, parent, place)))?;
        Ok(())
    }

    /// Another node without children instead of one without.
    pub(crate) fn write(&mut self, at: NodeId, played: Move, parent: NodeId, place: u32)
        requires there { at < length self.old }
        requires bare { (entry_at self.old at).children ≡ [] }
        ensures { self.new ≡ set self.old at (leaf_entry played parent place) }
    {
        let below = self.slots[at.index()].below();
        self.slots[at.index()] = KeptSlot::of(Slot {
            played,
            parent,
            place,
            below,
        });
    }

    /// Another parent for a node.
    pub(crate) fn set_parent(&mut self, at: NodeId, parent: NodeId)
        requires { at < length self.old }
        ensures { self.new ≡ with_parent at parent self.old }
    {
        self.slots[at.index()].set_parent(parent);
    }

    /// Another place for a node.
    pub(crate) fn set_place(&mut self, at: NodeId, place: u32)
        requires { at < length self.old }
        ensures { self.new ≡ with_place at place self.old }
    {
        self.slots[at.index()].set_place(place);
    }

    /// A child more of a node, after the others.
    pub(crate) fn push_child(&mut self, at: NodeId, child: NodeId) -> Result<(), AllocError>
        requires { at < length self.old }
        ensures ok { OnOk result (self.new ≡ with_children at ((entry_at self.old at).children ++ child ∷ []) self.old) }
        ensures err { OnErr result (self.new ≡ self.old) }
    {
        match self.slots[at.index()].below() {
            Below::Nothing => {
                self.slots[at.index()].set_below(Below::One(child));
            }
            Below::One(first) => {
                let list = self.lists.len() as u32;
                let mut children = SmallVec::new(self.alloc);
                children.push(first)?;
                children.push(child)?;
                make_room(&mut self.lists, 1)?;
                self.lists.push(children)?;
                self.slots[at.index()].set_below(Below::Listed(list));
            }
            Below::Listed(list) => {
                self.lists[list as usize].push(child)?;
            }
        }
        Ok(())
    }

    /// Takes the last child of a node from it, if there is one.
    pub(crate) fn pop_child(&mut self, at: NodeId) -> Option<NodeId>
        requires { at < length self.old }
        ensures child { result ≡ slice_get (entry_at self.old at).children (length (entry_at self.old at).children - 1) }
        ensures nodes { self.new ≡ with_children at (take (length (entry_at self.old at).children - 1) (entry_at self.old at).children) self.old }
    {
        match self.slots[at.index()].below() {
            Below::Nothing => None,
            Below::One(child) => {
                self.slots[at.index()].set_below(Below::Nothing);
                Some(child)
            }
            Below::Listed(list) => {
                let children = &mut self.lists[list as usize];
                let child = children.pop();
                give_back(children);
                child
            }
        }
    }

    /// Takes the child at a place from a node.
    pub(crate) fn remove_child(&mut self, at: NodeId, place: u32)
        requires there { at < length self.old }
        requires child { place < length (entry_at self.old at).children }
        ensures { self.new ≡ with_children at (remove (entry_at self.old at).children place) self.old }
    {
        match self.slots[at.index()].below() {
            Below::Nothing => {}
            Below::One(_) => self.slots[at.index()].set_below(Below::Nothing),
            Below::Listed(list) => {
                let children = &mut self.lists[list as usize];
                let _taken = children.remove(place as usize);
                give_back(children);
            }
        }
    }

    /// Moves the child at a place before the other children of a node.
    pub(crate) fn move_first(&mut self, at: NodeId, place: u32)
        requires there { at < length self.old }
        requires child { place < length (entry_at self.old at).children }
        ensures { self.new ≡ with_children at (moved_first place (entry_at self.old at).children) self.old }
    {
        if let Below::Listed(list) = self.slots[at.index()].below() {
            move_first(&mut self.lists[list as usize], place as usize);
        }
    }
}

/// Room for so few children is kept in the list itself.
const FEW: usize = 2;

// The item at a place.
fn at_place<A: Allocator>(children: &SmallVec<NodeId, 2, &A>, place: u32) -> Option<NodeId>
    ensures { result ≡ slice_get children.now.items place }
{
    children.get(place as usize).copied()
}

// Gives back the memory of a list that needs none.
fn give_back<A: Allocator>(children: &mut SmallVec<NodeId, 2, &A>)
    ensures { children.new.items ≡ children.old.items }
{
    if children.len() <= FEW {
        children.shrink_to_fit();
    }
}

// Moves the item at a place before the others.
fn move_first<A: Allocator>(children: &mut SmallVec<NodeId, 2, &A>, place: usize)
    requires { place < length children.old.items }
    ensures { children.new.items ≡ moved_first place children.old.items }
{
    prove!(place < children.len());
    let child = children.remove(place);
    let Ok(()) = children.insert(0, child) else {
        unreachable!();
    };
}
