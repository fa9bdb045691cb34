//! A game tree with a cursor at one of its nodes.

ghost use Rattle.std.specs.Prelude.{◌≡◌, ◌<◌, ◌≤◌, [], nat_le, true, length, Err, MatchResult, IfOk, IfErr, OnOk, OnErr};
ghost use Rattle.chess_types.specs.board.Legal.{is_legal};
ghost use Rattle.chess_types.specs.board.Lines.{extended, last};
ghost use Rattle.chess_draws.specs.Pushes.{most_plies};
ghost use Rattle.chess_tree.specs.declared.fault.TreeFault.TheVariants.{AtRoot, Full, Memory};
ghost use Rattle.chess_tree.specs.Forest.{Bare, count, height, moves_held, most_moves};
ghost use Rattle.chess_tree.specs.Edits.{parent};
ghost use Rattle.chess_tree.specs.GameTree.{added, at_path, line_to, nodes_here};
ghost use Rattle.chess_tree.specs.WellFormed.{IsGameTree};
ghost use Rattle.chess_tree.specs.Calls.{StepsDown, StepsUp};

mod comment;
mod cursor;
mod edits;
mod view;

use crate::arena::Arena;
use crate::fault::TreeFault;
use chess_types::{Move, Position};
use std::alloc::{AllocError, Allocator};
use std::marker::Model;

/// A game tree with a cursor at one of its nodes. Contracts see the nested tree and the path to the cursor
/// (`specs/GameTree.antt`).
#[derive(Drop)]
pub struct Tree<'a, A: Allocator> {
    start: Position,
    nodes: Arena<'a, A>,
}

impl<'a, A: Allocator> Model for Tree<'a, A> {
    ghost use Rattle.chess_tree.specs.GameTree.{TreeParts};
    ghost use Rattle.chess_tree.specs.steps.TreeCode.{coded_tree};

    ghost Value = { TreeParts };

    ghost coded = { coded_tree };

    ghost use Rattle.chess_tree.specs.WellFormed.{IsGameTree};
    ghost use Rattle.chess_tree.specs.steps.Rooted.{parts_of};

    ghost view = { λ t. parts_of t.start t.nodes };

    ghost invariant = { λ t. IsGameTree (parts_of t.start t.nodes) };
}

impl<'a, A: Allocator> Clone for Tree<'a, A> {
    ghost is_clone = { λ tree copy. copy ≡ tree };

    /// The same tree with its cursor, in the same allocator's memory; an error where there is none.
    fn clone(&self) -> Result<Tree<'a, A>, AllocError> {
        Ok(Tree {
            start: self.start.clone()?,
            nodes: self.nodes.clone()?,
        })
    }
}

impl<'a, A: Allocator> Tree<'a, A> {
    /// A tree with no move, from that position, whose counters are at most 99,999. `Memory` where there is none.
    pub fn new(alloc: &'a A, start: Position) -> Result<Tree<'a, A>, TreeFault>
        requires clock { start.clock ≤ 99999 }
        requires number { start.number ≤ 99999 }
        ensures ok { IfOk result (λ t. t ≡ record { tree = record { start = start; comment = []; below = Bare }; path = [] }) }
        ensures memory { IfErr result (λ fault. fault ≡ Memory) }
    {
        let nodes = Arena::new(alloc)?;
        let _ = &start.setup().side;
        Ok(Tree { start, nodes })
    }

    /// The position in which the tree begins.
    pub fn position(&self) -> &Position
        ensures start { result.now ≡ self.now.tree.start }
        ensures game { IsGameTree self.now }
    {
        &self.start
    }

    /// At least how many plies the deepest node is from the root, at most 20,000.
    pub(crate) fn room(&self) -> u32
        ensures room { height self.now.tree.below ≤ result }
        ensures few { result ≤ most_plies }
    {
        self.nodes.room().min(20_000) as u32
    }

    /// The allocator.
    pub(crate) fn alloc(&self) -> &'a A {
        self.nodes.alloc()
    }

    /// How many children the node at the cursor has, at most 1,000,000.
    pub fn child_count(&self) -> u32
        ensures { result ≡ count (nodes_here self.now) }
    {
        self.nodes.child_count()
    }

    /// Whether the tree holds 1,000,000 moves.
    pub fn is_full(&self) -> bool
        ensures { result ≡ nat_le most_moves (moves_held self.now.tree.below) }
    {
        self.nodes.is_full()
    }

    /// Appends a child with that move, which is legal at the cursor, and steps into it. The node at the cursor is less than
    /// 20,000 plies deep. `Full` where the tree holds 1,000,000 moves, else `Memory` where there is none.
    pub fn add(&mut self, played: Move) -> Result<(), TreeFault>
        requires legal { is_legal (last (line_to self.old)) played ≡ true }
        requires deep { length self.old.path < most_plies }
        ensures ok { OnOk result (self.new ≡ added played self.old) }
        ensures line { OnOk result (line_to self.new ≡ extended (line_to self.old) played) }
        ensures err { OnErr result (self.new ≡ self.old) }
        ensures full { moves_held self.old.tree.below ≡ most_moves → result ≡ Err Full }
        ensures memory { moves_held self.old.tree.below < most_moves → IfErr result (λ fault. fault ≡ Memory) }
    {
        if self.nodes.is_full() {
            return Err(TreeFault::Full);
        }
        self.nodes.add(played)?;
        Ok(())
    }

    // Refuses what the root has none of.
    #[inline(always)]
    fn below_root(&self) -> Result<(), TreeFault>
        ensures { MatchResult result (λ _. 0 < length self.now.path) (λ fault. (fault ≡ AtRoot) × (self.now.path ≡ [])) }
    {
        if self.nodes.depth() == 0 {
            return Err(TreeFault::AtRoot);
        }
        Ok(())
    }

    /// Steps to the child at that place, from 0. `NoSuch` where there is none.
    pub fn step(&mut self, place: u32) -> Result<(), TreeFault>
        ensures { StepsDown place self.old result self.new }
    {
        if !self.nodes.down(place) {
            return Err(TreeFault::NoSuch);
        }
        Ok(())
    }

    /// Steps to the parent. `AtRoot` at the root.
    pub fn back(&mut self) -> Result<(), TreeFault>
        ensures { StepsUp (λ t. at_path (parent t.path) t) self.old result self.new }
    {
        self.below_root()?;
        self.nodes.up();
        Ok(())
    }
}
