//! The steps of an analysis' cursor, with its line.

ghost use Rattle.std.specs.Prelude.{◌≡◌, [], take};
ghost use Rattle.chess_tree.specs.Edits.{parent};
ghost use Rattle.chess_tree.specs.GameTree.{at_path, line_along, line_to};
ghost use Rattle.chess_tree.specs.Calls.{GoesTo, GoesToEnd, StepsDown, StepsUp};

use super::AnalysisWith;
use crate::fault::TreeFault;
use chess_attack::Follower;
use std::alloc::Allocator;

impl<'a, F: Follower, A: Allocator> AnalysisWith<'a, F, A> {
    /// Steps to the child at that place, from 0. `NoSuch` where there is none. Takes no memory.
    pub fn step(&mut self, place: u32) -> Result<(), TreeFault>
        ensures { StepsDown place self.old result self.new }
    {
        self.tree.step(place)?;
        let Some(m) = self.tree.move_at() else {
            unreachable!();
        };
        self.line.push_prepared(m);
        Ok(())
    }

    /// Steps to the parent. `AtRoot` at the root.
    pub fn back(&mut self) -> Result<(), TreeFault>
        ensures { StepsUp (λ t. at_path (parent t.path) t) self.old result self.new }
    {
        self.tree.back()?;
        let _left = self.line.pop();
        Ok(())
    }

    /// Steps back until the cursor is at most `depth` plies deep.
    pub fn back_to(&mut self, depth: u32)
        ensures path { self.new ≡ at_path (take depth self.old.path) self.old }
    {
        while self.tree.depth() > depth {
            let _stepped = self.back();
        }
    }

    /// Steps back to the root.
    pub fn start(&mut self)
        ensures path { self.new ≡ at_path [] self.old }
        ensures line { line_to self.new ≡ line_along [] self.old.tree }
    {
        self.back_to(0);
    }

    /// Steps along the main continuations to a node without children. Takes no memory.
    #[tactic(auto, using(crate::proofs::WalkLemmas::ending_smaller, crate::proofs::WalkLemmas::ending_on))]
    pub fn end(&mut self)
        ensures { GoesToEnd self.old self.new }
    {
        while self.step(0).is_ok() {}
    }

    /// Steps to the node at that path from the root. `NoSuch` where there is none, as at each of more
    /// than 20,000 plies; the cursor stays then. Takes no memory.
    pub fn goto(&mut self, path: &[u32]) -> Result<(), TreeFault>
        ensures { GoesTo path.now self.old result self.new }
    {
        self.tree.check_path(path)?;
        self.start();
        for place in path {
            let Ok(()) = self.step(*place) else {
                unreachable!()
            };
        }
        Ok(())
    }
}
