//! The edits of a tree at its cursor: delete, promote, and annotation numbers.

ghost use Rattle.chess_tree.specs.Calls.{Annotates, Promotes, StepsUp, Unannotates};
ghost use Rattle.chess_tree.specs.GameTree.{deleted};

use super::Tree;
use crate::fault::TreeFault;
use std::alloc::Allocator;

impl<'a, A: Allocator> Tree<'a, A> {
    /// Takes out the node at the cursor and all below it, and steps to its parent; its siblings keep their order. No
    /// memory is taken. `AtRoot` at the root.
    ///
    /// The notes of the nodes taken out are given back when their room is taken again, or with the tree.
    pub fn delete(&mut self) -> Result<(), TreeFault>
        ensures { StepsUp deleted self.old result self.new }
    {
        self.below_root()?;
        self.nodes.remove();
        Ok(())
    }

    /// Moves the node at the cursor before its siblings, which keep their order; the cursor stays on it. `AtRoot` at the
    /// root.
    pub fn promote(&mut self) -> Result<(), TreeFault>
        ensures { Promotes self.old result self.new }
    {
        self.below_root()?;
        self.nodes.promote();
        Ok(())
    }

    /// Appends an annotation number to those of the node at the cursor (PGN 10). `AtRoot` at the root, else `Memory` where
    /// there is none.
    pub fn add_nag(&mut self, nag: u8) -> Result<(), TreeFault>
        ensures { Annotates nag self.old result self.new }
    {
        self.below_root()?;
        self.nodes.add_nag(nag)?;
        Ok(())
    }
    /// Takes all annotation numbers of the node at the cursor out (PGN 10). No memory is taken. `AtRoot` at the root.
    pub fn clear_nags(&mut self) -> Result<(), TreeFault>
        ensures { Unannotates self.old result self.new }
    {
        self.below_root()?;
        self.nodes.clear_nags();
        Ok(())
    }
}
