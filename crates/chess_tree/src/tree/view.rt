//! What is at a tree's cursor and at its root, to be looked at.

ghost use Rattle.std.specs.Prelude.{◌≡◌};
ghost use Rattle.chess_tree.specs.GameTree.{here, root_node};
ghost use Rattle.chess_tree.specs.Undo.{is_bare_node};

use super::Tree;
use crate::node::{NodeRef, Notes};
use chess_types::Move;
use std::alloc::Allocator;

impl<'a, A: Allocator> Tree<'a, A> {
    /// The root, to look at the tree without moving the cursor.
    pub fn root(&self) -> NodeRef<'_, 'a, A>
        ensures { result ≡ root_node self.now.tree }
    {
        self.nodes.root()
    }

    /// The move that leads to the node at the cursor; `None` at the root.
    pub fn move_at(&self) -> Option<Move>
        ensures { result ≡ (here self.now).move }
    {
        self.nodes.node_here().move_at()
    }

    /// The notes of the node at the cursor; the root has no annotation numbers.
    pub fn notes(&self) -> Notes<'_>
        ensures nags { result.nags.now ≡ (here self.now).nags }
        ensures comment { result.comment.now ≡ (here self.now).comment }
    {
        self.nodes.node_here().notes()
    }

    /// Whether nothing hangs on the node at the cursor: no child, no comment and no annotation number.
    pub fn is_bare(&self) -> bool
        ensures { result ≡ is_bare_node (here self.now) }
    {
        let node = self.nodes.node_here();
        let notes = node.notes();
        notes.nags.is_empty() & (notes.comment.is_empty() & (node.children() == 0))
    }
}
