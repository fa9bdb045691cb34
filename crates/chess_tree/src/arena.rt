//! The nodes of a tree under their numbers, and the cursor among them.

ghost use Rattle.std.specs.Prelude.{◌≡◌, ◌<◌, ◌≤◌, ◌++◌, ◌∷◌, [], nat_le, nat_lt, true, false, length, slice_index, IfOk, IsOk, OnOk, OnErr};
ghost use Rattle.chess_tree.specs.Forest.{below_at, count, height, moves_held, most_moves};
ghost use Rattle.chess_tree.specs.Edits.{parent};
ghost use Rattle.chess_tree.specs.GameTree.{adding, annotating, deleting, find, node_of, promoting, unannotating};
ghost use Rattle.chess_tree.specs.steps.Rooted.{commented_root, edited_root, leaf, path_root, root_shown};
ghost use Rattle.chess_tree.specs.steps.Grove.{no_move};

mod free;
mod kept_slot;
pub(crate) mod node_id;
pub(crate) mod nodes;
pub(crate) mod notes;
mod siblings;
pub(crate) mod slot;

use crate::node::NodeRef;
use chess_draws::make_room;
use chess_types::Move;
use free::{let_go, put};
use node_id::NodeId;
use nodes::Nodes;
use notes::NoteList;
use std::alloc::{AllocError, Allocator};
use std::marker::Model;

/// The most nodes: a million, and the root.
const MOST_NODES: usize = 1_000_001;

/// A tree with a cursor: nodes that name one another by their numbers. The root's is 0.
///
/// Deleted nodes are freed with all below them: the first of them names the next as its parent, and `add` takes their numbers.
#[derive(Drop)]
pub(crate) struct Arena<'a, A: Allocator> {
    nodes: Nodes<'a, A>,
    notes: NoteList<'a, A>,
    /// The first freed node; the root where there is none.
    free: NodeId,
    /// The node at the cursor.
    here: NodeId,
    /// The nodes on the way to it, itself the last. There is room for those on the way to each node, so that no step takes memory.
    trail: Vec<NodeId, &'a A>,
}

impl<'a, A: Allocator> Model for Arena<'a, A> {
    ghost use Rattle.std.specs.Prelude.{vec_capacity};
    ghost use Rattle.chess_tree.specs.steps.Rooted.{Rooted, coded_rooted};
    ghost use Rattle.chess_tree.specs.steps.Notes.{noted_in};

    ghost Value = { Rooted };

    ghost coded = { coded_rooted };

    ghost use Rattle.chess_tree.specs.steps.Laid.{seen, IsArena};

    ghost view = { λ a. seen a.nodes (noted_in a.notes.items) a.here };

    ghost invariant = { λ a. IsArena a.nodes (noted_in a.notes.items) a.free a.here a.trail.items (vec_capacity a.trail) };
}

impl<'a, A: Allocator> Clone for Arena<'a, A> {
    ghost is_clone = { λ arena copy. copy ≡ arena };

    fn clone(&self) -> Result<Arena<'a, A>, AllocError> {
        let mut trail = Vec::with_capacity(self.alloc(), self.trail.capacity())?;
        trail.extend_from_slice(self.trail.as_slice())?;
        Ok(Arena {
            nodes: self.nodes.clone()?,
            notes: self.notes.clone()?,
            free: self.free,
            here: self.here,
            trail,
        })
    }
}

impl<'a, A: Allocator> Arena<'a, A> {
    /// A root, and no more.
    pub(crate) fn new(alloc: &'a A) -> Result<Arena<'a, A>, AllocError>
        ensures { IfOk result (λ a. a ≡ record { root = leaf no_move; path = [] }) }
    {
        Ok(Arena {
            nodes: Nodes::new(alloc)?,
            notes: Vec::new(alloc),
            free: NodeId::root(),
            here: NodeId::root(),
            trail: Vec::new(alloc),
        })
    }

    /// The allocator.
    pub(crate) fn alloc(&self) -> &'a A {
        self.nodes.alloc()
    }

    /// At least how many nodes there are on the way to the deepest.
    pub(crate) fn room(&self) -> usize
        ensures { height self.now.root.below ≤ result }
    {
        self.trail.capacity()
    }

    /// Whether it holds 1,000,000 nodes beside the root.
    pub(crate) fn is_full(&self) -> bool
        ensures full { result ≡ nat_le most_moves (moves_held self.now.root.below) }
        ensures few { moves_held self.now.root.below ≤ most_moves }
    {
        self.free == NodeId::root() && self.nodes.len() == MOST_NODES
    }

    /// The root.
    pub(crate) fn root(&self) -> NodeRef<'_, 'a, A>
        ensures { result ≡ root_shown self.now.root }
    {
        NodeRef::new(&self.nodes, &self.notes, NodeId::root())
    }

    /// The node at the cursor.
    pub(crate) fn node_here(&self) -> NodeRef<'_, 'a, A>
        ensures { result ≡ node_of self.now.path (root_shown self.now.root) }
    {
        NodeRef::new(&self.nodes, &self.notes, self.here)
    }

    /// How many children the node at the cursor has.
    pub(crate) fn child_count(&self) -> u32
        ensures { result ≡ count (below_at self.now.path self.now.root.below) }
    {
        self.nodes.child_count(self.here)
    }

    /// The place of the first child of the node at the cursor that has that move.
    pub(crate) fn find(&self, played: Move) -> Option<u32>
        ensures { result ≡ find played (below_at self.now.path self.now.root.below) }
    {
        siblings::find(&self.nodes, self.here, played)
    }

    /// How deep the cursor stands.
    pub(crate) fn depth(&self) -> usize
        ensures { result ≡ length self.now.path }
    {
        self.trail.len()
    }

    /// The place on the path at that depth.
    pub(crate) fn place(&self, depth: usize) -> u32
        requires { depth < length self.now.path }
        ensures { result ≡ slice_index self.now.path depth }
    {
        self.nodes.place(self.trail[depth])
    }

    /// The places on the path.
    pub(crate) fn places(&self) -> Result<Vec<u32, &'a A>, AllocError>
        ensures { IfOk result (λ places. places.items ≡ self.now.path) }
    {
        let mut places = Vec::with_capacity(self.alloc(), self.trail.len())?;
        for depth in 0..self.trail.len() {
            places.push(self.place(depth))?;
        }
        Ok(places)
    }

    /// Steps down to the child at that place, if there is one.
    pub(crate) fn down(&mut self, place: u32) -> bool
        ensures there { result ≡ nat_lt place (count (below_at self.old.path self.old.root.below)) }
        ensures path { result ≡ true → self.new ≡ path_root (self.old.path ++ place ∷ []) self.old }
        ensures stays { result ≡ false → self.new ≡ self.old }
    {
        let Some(child) = self.nodes.child(self.here, place) else {
            return false;
        };
        let Ok(()) = self.trail.push(child) else {
            unreachable!()
        };
        self.here = child;
        true
    }

    /// Steps up to the parent.
    pub(crate) fn up(&mut self)
        requires { 0 < length self.old.path }
        ensures { self.new ≡ path_root (parent self.old.path) self.old }
    {
        let Some(_gone) = self.trail.pop() else {
            unreachable!()
        };
        self.here = self.nodes.parent(self.here);
    }

    /// Appends a child with that move at the cursor, and steps into it.
    pub(crate) fn add(&mut self, played: Move) -> Result<(), AllocError>
        requires { moves_held self.old.root.below < most_moves }
        ensures ok { OnOk result (self.new ≡ edited_root (adding played) self.old) }
        ensures err { OnErr result (self.new ≡ self.old) }
    {
        let here = self.here;
        make_room(&mut self.trail, 16)?;
        let place = self.nodes.child_count(here);
        let number = put(&mut self.nodes, &mut self.free, played, here, place)?;
        if let Err(fault) = self.nodes.push_child(here, number) {
            let_go(&mut self.nodes, &mut self.free, number);
            return Err(fault);
        }
        notes::forget(&mut self.notes, self.nodes.alloc(), number);
        let Ok(()) = self.trail.push(number) else {
            unreachable!()
        };
        self.here = number;
        Ok(())
    }

    /// Takes out the node at the cursor and all below it, and steps up. No memory is taken, and the time depends on the siblings
    /// after it alone: those below are freed as it is. Their notes are given back as their numbers are taken again.
    pub(crate) fn remove(&mut self)
        requires { 0 < length self.old.path }
        ensures { self.new ≡ edited_root deleting self.old }
    {
        let child = self.here;
        let (at, place) = siblings::seat(&self.nodes, child);
        siblings::detach(&mut self.nodes, at, place);
        let_go(&mut self.nodes, &mut self.free, child);
        let Some(_gone) = self.trail.pop() else {
            unreachable!()
        };
        self.here = at;
    }

    /// Moves the node at the cursor before its siblings.
    pub(crate) fn promote(&mut self)
        requires { 0 < length self.old.path }
        ensures { self.new ≡ edited_root promoting self.old }
    {
        let (at, place) = siblings::seat(&self.nodes, self.here);
        siblings::lift(&mut self.nodes, at, place);
    }

    /// Appends an annotation number at the cursor.
    pub(crate) fn add_nag(&mut self, nag: u8) -> Result<(), AllocError>
        requires { 0 < length self.old.path }
        ensures ok { OnOk result (self.new ≡ edited_root (annotating nag) self.old) }
        ensures err { OnErr result (self.new ≡ self.old) }
    {
        notes::add_nag(&mut self.notes, self.nodes.alloc(), self.here, nag)?;
        Ok(())
    }

    /// Takes the annotation numbers at the cursor out.
    pub(crate) fn clear_nags(&mut self)
        requires { 0 < length self.old.path }
        ensures { self.new ≡ edited_root unannotating self.old }
    {
        notes::clear_nags(&mut self.notes, self.here);
    }

    /// Sets the comment at the cursor.
    pub(crate) fn set_comment(&mut self, comment: Vec<u8, &'a A>) -> Result<(), AllocError>
        ensures ok { OnOk result (self.new ≡ commented_root comment.entry.items self.old) }
        ensures err { OnErr result (self.new ≡ self.old) }
        ensures removed { comment.entry.items ≡ [] → IsOk result }
    {
        notes::set_comment(&mut self.notes, self.nodes.alloc(), self.here, comment)?;
        Ok(())
    }
}
