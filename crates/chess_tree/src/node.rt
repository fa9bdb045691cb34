//! A node of a tree, to be looked at: its move, its notes and its children.

ghost use Rattle.std.specs.Prelude.{◌≡◌, ◌≤◌, None, is_none};
ghost use Rattle.chess_tree.specs.Forest.{child, count};
ghost use Rattle.chess_tree.specs.Edits.{without_node};
ghost use Rattle.chess_tree.specs.steps.Notes.{noted_in};
ghost use Rattle.chess_tree.specs.steps.Viewed.{node_seen, IsViewed};

use crate::arena::node_id::NodeId;
use crate::arena::nodes::Nodes;
use crate::arena::notes::{self, NoteList};
use chess_types::Move;
use std::alloc::Allocator;
use std::marker::Model;

/// The notes of a node: its annotation numbers, in the order in which they were added (PGN 10), and its comment, which is
/// empty where there is none.
#[derive(Clone, Copy, Debug, PartialEq, Eq)]
pub struct Notes<'t> {
    pub nags: &'t [u8],
    pub comment: &'t [u8],
}

/// A node of a tree, to be looked at. Contracts see its move, its notes and what is below it.
#[derive(Drop)]
pub struct NodeRef<'t, 'a, A: Allocator> {
    nodes: &'t Nodes<'a, A>,
    notes: &'t NoteList<'a, A>,
    number: NodeId,
}

impl<'t, 'a, A: Allocator> Model for NodeRef<'t, 'a, A> {
    ghost use Rattle.chess_tree.specs.Forest.{NodeParts};
    ghost use Rattle.chess_tree.specs.steps.ForestCode.{coded_node};

    ghost Value = { NodeParts };

    ghost coded = { coded_node };

    ghost use Rattle.chess_tree.specs.steps.Notes.{noted_in};
    ghost use Rattle.chess_tree.specs.steps.Viewed.{node_seen, IsViewed};

    ghost view = { λ r. node_seen r.nodes.now (noted_in r.notes.now.items) r.number };

    ghost invariant = { λ r. IsViewed r.nodes.now r.number };
}

impl<'t, 'a, A: Allocator> NodeRef<'t, 'a, A> {
    // The node with that number.
    pub(crate) fn new(
        nodes: &'t Nodes<'a, A>,
        notes: &'t NoteList<'a, A>,
        number: NodeId,
    ) -> NodeRef<'t, 'a, A>
        requires { IsViewed nodes.now number }
        ensures { result ≡ node_seen nodes.now (noted_in notes.now.items) number }
    {
        NodeRef {
            nodes,
            notes,
            number,
        }
    }

    /// The same node once more.
    pub fn again(&self) -> NodeRef<'t, 'a, A>
        ensures { result ≡ self.now }
    {
        NodeRef::new(self.nodes, self.notes, self.number)
    }

    /// The move that leads to the node; `None` at the root.
    pub fn move_at(&self) -> Option<Move>
        ensures { result ≡ self.now.move }
    {
        if self.number == NodeId::root() {
            return None;
        }
        Some(self.nodes.played(self.number))
    }

    /// Its number, at most 1,000,000, by which one finds what one keeps of it; the root's is 0. A node that is added gets the next, or
    /// that of a node that was deleted, so what is found has to be compared.
    pub fn number(&self) -> u32
        ensures root { result ≡ 0 → self.now.move ≡ None }
        ensures first { self.now.move ≡ None → result ≡ 0 }
        ensures few { result ≤ 1000000 }
    {
        self.number.number()
    }

    /// Its notes; the root has no annotation numbers.
    pub fn notes(&self) -> Notes<'t>
        ensures nags { result.nags.now ≡ self.now.nags }
        ensures comment { result.comment.now ≡ self.now.comment }
    {
        let comment = notes::comment(self.notes, self.number);
        if self.number == NodeId::root() {
            return Notes { nags: &[], comment };
        }
        Notes {
            nags: notes::nags(self.notes, self.number),
            comment,
        }
    }

    /// How many children it has, at most 1,000,000.
    pub fn children(&self) -> u32
        ensures { result ≡ count self.now.below }
    {
        self.nodes.child_count(self.number)
    }

    /// The child at that place, from 0.
    pub fn child(&self, place: u32) -> Option<NodeRef<'t, 'a, A>>
        ensures { result ≡ child place self.now.below }
    {
        let Some(number) = self.nodes.child(self.number, place) else {
            return None;
        };
        Some(NodeRef::new(self.nodes, self.notes, number))
    }

    /// Its children, the main continuation first, one a step.
    pub fn below(&self) -> Children<'t, 'a, A>
        ensures { result ≡ self.now.below }
    {
        Children {
            nodes: self.nodes,
            notes: self.notes,
            parent: self.number,
            place: 0,
        }
    }
}

/// The children of a node that are still to be gone over. Contracts see them, with all that is below them.
#[derive(Drop)]
pub struct Children<'t, 'a, A: Allocator> {
    nodes: &'t Nodes<'a, A>,
    notes: &'t NoteList<'a, A>,
    parent: NodeId,
    /// The place of the next one.
    place: u32,
}

impl<'t, 'a, A: Allocator> Model for Children<'t, 'a, A> {
    ghost use Rattle.chess_tree.specs.Forest.{Forest};
    ghost use Rattle.chess_tree.specs.steps.ForestCode.{coded_forest};

    ghost Value = { Forest };

    ghost coded = { coded_forest };

    ghost use Rattle.chess_tree.specs.steps.Notes.{noted_in};
    ghost use Rattle.chess_tree.specs.steps.Viewed.{side_seen, IsViewed};

    ghost view = { λ c. side_seen c.nodes.now (noted_in c.notes.now.items) c.parent c.place };

    ghost invariant = { λ c. IsViewed c.nodes.now c.parent };
}

impl<'t, 'a, A: Allocator> Children<'t, 'a, A> {
    /// Whether there is none.
    pub fn is_empty(&self) -> bool
        ensures { result ≡ is_none (child 0 self.now) }
    {
        let Some(_next) = self.nodes.child(self.parent, self.place) else {
            return true;
        };
        false
    }

    /// The next one, if there is one; the others are left.
    pub fn next(&mut self) -> Option<NodeRef<'t, 'a, A>>
        ensures first { result ≡ child 0 self.old }
        ensures rest { self.new ≡ without_node 0 self.old }
    {
        let Some(number) = self.nodes.child(self.parent, self.place) else {
            return None;
        };
        self.place += 1;
        Some(NodeRef::new(self.nodes, self.notes, number))
    }
}
