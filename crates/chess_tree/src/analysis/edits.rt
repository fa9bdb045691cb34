//! The edits of an analysis at its cursor, with its line.

ghost use Rattle.chess_tree.specs.Calls.{Annotates, Comments, Promotes, StepsUp, Unannotates};
ghost use Rattle.chess_tree.specs.GameTree.{deleted};
ghost use Rattle.chess_tree.specs.Undo.{undone};

use super::AnalysisWith;
use crate::fault::TreeFault;
use chess_attack::Follower;
use std::alloc::Allocator;

impl<'a, F: Follower, A: Allocator> AnalysisWith<'a, F, A> {
    /// Takes out the node at the cursor and all below it, and steps to its parent; its siblings keep their order. No
    /// memory is taken. `AtRoot` at the root.
    pub fn delete(&mut self) -> Result<(), TreeFault>
        ensures { StepsUp deleted self.old result self.new }
    {
        self.tree.delete()?;
        let _gone = self.line.pop();
        Ok(())
    }

    /// Takes a played move back: steps to the parent. The node that it leaves is taken out where it was added and nothing hangs on it, no
    /// child, comment or annotation number, else it stays, as with `back`. `added` is what the `play` that led to the node answered: then
    /// all is as it was before that move (`undo_laws`). No memory is taken. `AtRoot` at the root.
    pub fn undo(&mut self, added: bool) -> Result<(), TreeFault>
        ensures { StepsUp (undone added) self.old result self.new }
    {
        if added && self.tree.is_bare() {
            return self.delete();
        }
        self.back()
    }

    /// Moves the node at the cursor before its siblings, which keep their order; the cursor stays on it. `AtRoot` at the
    /// root.
    pub fn promote(&mut self) -> Result<(), TreeFault>
        ensures { Promotes self.old result self.new }
    {
        self.tree.promote()
    }

    /// Sets the comment at the cursor (PGN 5): the words of the text with one space between two; an empty one removes it.
    /// `BadComment` where a right brace is in it, else `Memory` where there is none; a text without words takes none.
    pub fn set_comment(&mut self, text: &[u8]) -> Result<(), TreeFault>
        ensures { Comments text.now self.old result self.new }
    {
        self.tree.set_comment(text)
    }

    /// Appends an annotation number to those of the node at the cursor (PGN 10). `AtRoot` at the root, else `Memory` where
    /// there is none.
    pub fn add_nag(&mut self, nag: u8) -> Result<(), TreeFault>
        ensures { Annotates nag self.old result self.new }
    {
        self.tree.add_nag(nag)
    }
    /// Takes all annotation numbers of the node at the cursor out (PGN 10). No memory is taken. `AtRoot` at the root.
    pub fn clear_nags(&mut self) -> Result<(), TreeFault>
        ensures { Unannotates self.old result self.new }
    {
        self.tree.clear_nags()
    }
}
