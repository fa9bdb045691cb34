//! The path to a tree's cursor, and steps along it.

ghost use Rattle.std.specs.Prelude.{◌≡◌, ◌<◌, ◌≤◌, ◌++◌, ◌∷◌, [], length, true, false, slice_get, IfOk, IfErr, IfSome, MatchResult, OnOk, OnErr};
ghost use Rattle.chess_tree.specs.declared.fault.TreeFault.TheVariants.{Memory, NoSuch};
ghost use Rattle.chess_tree.specs.Forest.{count};
ghost use Rattle.chess_types.specs.board.Legal.{is_legal};
ghost use Rattle.chess_types.specs.board.Lines.{last};
ghost use Rattle.chess_draws.specs.Pushes.{most_plies};
ghost use Rattle.chess_tree.specs.GameTree.{at_path, find, has, line_along, line_to, nodes_here};
ghost use Rattle.chess_tree.specs.Calls.{GoesTo, GoesToEnd};
ghost use Rattle.chess_tree.specs.CursorLine.{GoesOn};

use super::Tree;
use crate::fault::TreeFault;
use chess_types::Move;
use std::alloc::Allocator;

impl<'a, A: Allocator> Tree<'a, A> {
    /// How many plies the cursor is below the root, at most 20,000.
    pub fn depth(&self) -> u32
        ensures value { result ≡ length self.now.path }
        ensures at_most { result ≤ most_plies }
        ensures line { result ≡ length (line_to self.now).moves }
    {
        self.nodes.depth() as u32
    }

    /// The child number taken at that ply of the path, from 0. `None` from `depth()` on.
    pub fn path_at(&self, ply: u32) -> Option<u32>
        ensures { result ≡ slice_get self.now.path ply }
    {
        if ply as usize >= self.nodes.depth() {
            return None;
        }
        Some(self.nodes.place(ply as usize))
    }

    /// The child numbers on the way from the root to the cursor. `Memory` where there is none.
    pub fn path(&self) -> Result<Vec<u32, &'a A>, TreeFault>
        ensures ok { IfOk result (λ path. path.items ≡ self.now.path) }
        ensures memory { IfErr result (λ fault. fault ≡ Memory) }
    {
        Ok(self.nodes.places()?)
    }

    /// The place of the first child with that move.
    pub fn find(&self, played: Move) -> Option<u32>
        ensures value { result ≡ find played (nodes_here self.now) }
        ensures there { IfSome result (λ place. place < count (nodes_here self.now)) }
        ensures legal { IfSome result (λ _. is_legal (last (line_to self.now)) played ≡ true) }
    {
        self.nodes.find(played)
    }

    /// Steps to child 0, the main continuation. `NoSuch` where there is no child.
    pub fn first(&mut self) -> Result<(), TreeFault>
        ensures ok { OnOk result (self.new ≡ at_path (self.old.path ++ 0 ∷ []) self.old) }
        ensures line { OnOk result (GoesOn self.old self.new) }
        ensures err { OnErr result (self.new ≡ self.old) }
        ensures no_such { MatchResult result (λ _. 0 < count (nodes_here self.old)) (λ fault. (fault ≡ NoSuch) × (count (nodes_here self.old) ≡ 0)) }
    {
        self.step(0)
    }

    /// Steps back to the root.
    pub fn start(&mut self)
        ensures path { self.new ≡ at_path [] self.old }
        ensures line { line_to self.new ≡ line_along [] self.old.tree }
    {
        while self.back().is_ok() {}
    }

    /// Steps along the main continuations to a node without children.
    #[tactic(auto, using(crate::proofs::WalkLemmas::ending_smaller, crate::proofs::WalkLemmas::ending_on))]
    pub fn end(&mut self)
        ensures { GoesToEnd self.old self.new }
    {
        while self.step(0).is_ok() {}
    }

    /// Whether there is a node at that path from the root.
    pub fn has(&self, path: &[u32]) -> bool
        ensures { result ≡ has path.now self.now.tree.below }
    {
        let mut node = self.root();
        for place in path {
            let Some(child) = node.child(*place) else {
                return false;
            };
            node = child;
        }
        true
    }

    // Refuses a path that leads to no node, as none of more than 20,000 plies does.
    pub(crate) fn check_path(&self, path: &[u32]) -> Result<(), TreeFault>
        ensures there { MatchResult result (λ _. has path.now self.now.tree.below ≡ true) (λ fault. (fault ≡ NoSuch) × (has path.now self.now.tree.below ≡ false)) }
        ensures short { OnOk result (length path.now ≤ most_plies) }
    {
        let _ = &self.start;
        if !self.has(path) {
            return Err(TreeFault::NoSuch);
        }
        Ok(())
    }

    /// Steps to the node at that path from the root. `NoSuch` where there is none, as at each of more
    /// than 20,000 plies; the cursor stays then.
    pub fn goto(&mut self, path: &[u32]) -> Result<(), TreeFault>
        ensures { GoesTo path.now self.old result self.new }
    {
        self.check_path(path)?;
        self.start();
        for place in path {
            let Ok(()) = self.step(*place) else {
                unreachable!()
            };
        }
        Ok(())
    }
}
