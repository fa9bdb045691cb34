//! A game tree with a cursor and the line to it, on which moves are played and added.

ghost use Rattle.std.specs.Prelude.{◌≡◌, ◌<◌, ◌≤◌, [], length, true, false, None, Err, IfErr, IfOk, IsTrue, Ok, OnErr, OnOk, nat_le, if◌then◌else◌};
ghost use Rattle.chess_types.specs.board.Legal.{is_legal};
ghost use Rattle.chess_types.specs.board.Lines.{extended, last};
ghost use Rattle.chess_draws.specs.Pushes.{most_plies};
ghost use Rattle.chess_tree.specs.declared.fault.TreeFault.TheVariants.{Memory};
ghost use Rattle.chess_tree.specs.declared.fault.PlayFault.TheVariants.{Full as TreeFull, Memory as NoMemory};
ghost use Rattle.chess_tree.specs.Forest.{Bare, moves_held, most_moves};
ghost use Rattle.chess_tree.specs.GameTree.{added, at_path, find, line_to, nodes_here};
ghost use Rattle.chess_tree.specs.WellFormed.{IsGameTree};
ghost use Rattle.chess_tree.specs.Plays.{Adds, IsAnswer, Plays, is_new, play_answer, played};

mod asked;
mod edits;
mod steps;

use crate::fault::{PlayFault, TreeFault};
use crate::tree::Tree;
use chess_attack::{Follower, Nothing};
use chess_draws::{Line, LineFault, LineWith};
use chess_key::KeyTable;
use chess_play::{Followers, LiveWith};
use chess_types::{Move, Position};
use std::alloc::{AllocError, Allocator};
use std::marker::Model;

/// A game tree with a cursor, and the line of moves from the root to it, which every call keeps together. Contracts see the
/// tree and the path to the cursor; the line is the one to the cursor (`line_to`).
///
/// The line has room for the way down to each node, so that a step takes no memory.
#[derive(Drop)]
pub struct AnalysisWith<'a, F: Follower, A: Allocator> {
    tree: Tree<'a, A>,
    line: LineWith<F, &'a A>,
}

impl<'a, F: Follower, A: Allocator> Model for AnalysisWith<'a, F, A> {
    ghost use Rattle.chess_tree.specs.GameTree.{TreeParts};
    ghost use Rattle.chess_tree.specs.steps.TreeCode.{coded_tree};

    ghost Value = { TreeParts };

    ghost coded = { coded_tree };

    ghost use Rattle.chess_tree.specs.steps.Analysed.{IsAnalysed};

    ghost view = { λ a. a.tree };

    ghost invariant = { λ a. IsAnalysed a.tree a.line };
}

impl<'a, F: Follower + Drop, A: Allocator> Clone for AnalysisWith<'a, F, A> {
    ghost is_clone = { λ analysis copy. copy ≡ analysis };

    /// The same tree with its cursor and its line, in the same allocator's memory; an error where there is none.
    fn clone(&self) -> Result<AnalysisWith<'a, F, A>, AllocError> {
        let tree = self.tree.clone()?;
        let line = self.line.copied(tree.alloc())?;
        Ok(AnalysisWith { tree, line })
    }
}

/// An analysis whose positions have attack counts, evaluation and key.
pub type Analysis<'a, 'k, A> = AnalysisWith<'a, Followers<'k>, A>;

/// An analysis whose positions are followed by nothing: what reads games asks for no count, no evaluation and no key.
pub type PlainAnalysis<'a, A> = AnalysisWith<'a, Nothing, A>;

// The refusal of a new move for which the line finds no memory: a full tree comes first.
fn without_room<A: Allocator>(tree: &Tree<'_, A>) -> PlayFault
    ensures { result ≡ (if nat_le most_moves (moves_held tree.now.tree.below) then TreeFull else NoMemory) }
{
    if tree.is_full() {
        PlayFault::Full
    } else {
        PlayFault::Memory
    }
}

// Adds a legal move to the tree alone.
fn grow<A: Allocator>(tree: &mut Tree<'_, A>, m: Move) -> Result<(), PlayFault>
    requires legal { is_legal (last (line_to tree.old)) m ≡ true }
    requires deep { length tree.old.path < most_plies }
    requires few { moves_held tree.old.tree.below ≤ most_moves }
    ensures answer { IsAnswer (if nat_le most_moves (moves_held tree.old.tree.below) then Err TreeFull else Ok tt) result }
    ensures ok { OnOk result (tree.new ≡ added m tree.old) }
    ensures line { OnOk result (line_to tree.new ≡ extended (line_to tree.old) m) }
    ensures err { OnErr result (tree.new ≡ tree.old) }
{
    match tree.add(m) {
        Ok(()) => Ok(()),
        Err(TreeFault::Full) => Err(PlayFault::Full),
        Err(_) => Err(PlayFault::Memory),
    }
}

impl<'a, F: Follower + Drop, A: Allocator> AnalysisWith<'a, F, A> {
    /// An analysis with no move, from that position, whose counters are at most 99,999, with what follows its positions: it agrees with the first.
    /// `Memory` where there is none.
    pub fn with(alloc: &'a A, start: Position, kept: F) -> Result<AnalysisWith<'a, F, A>, TreeFault>
        requires clock { start.clock ≤ 99999 }
        requires number { start.number ≤ 99999 }
        requires agrees { F.agrees kept start.placement }
        requires ticks { F.ticks kept ≤ 216 }
        ensures ok { IfOk result (λ a. a ≡ record { tree = record { start = start; comment = []; below = Bare }; path = [] }) }
        ensures memory { IfErr result (λ fault. fault ≡ Memory) }
    {
        let Ok(root) = start.clone() else {
            unreachable!();
        };
        let tree = Tree::new(alloc, root)?;
        let line = LineWith::with(alloc, start, kept);
        Ok(AnalysisWith { tree, line })
    }

    /// The tree with its cursor, without the line.
    pub fn into_tree(self) -> Tree<'a, A>
        ensures tree { result ≡ self.entry }
        ensures game { IsGameTree self.entry }
    {
        let AnalysisWith { tree, line: _ } = self;
        tree
    }
}

impl<'a, F: Follower, A: Allocator> AnalysisWith<'a, F, A> {
    /// The tree and its cursor, to look at: each move is legal where it is made, and no node is more than 20,000 plies deep.
    pub fn tree(&self) -> &Tree<'a, A>
        ensures tree { result.now ≡ self.now }
        ensures game { IsGameTree self.now }
    {
        &self.tree
    }

    /// The line from the root to the cursor, to look at.
    pub fn line(&self) -> &LineWith<F, &'a A>
        ensures line { result.now.line ≡ line_to self.now }
        ensures still { result.now.looked ≡ 0 }
    {
        &self.line
    }

    /// The position at the cursor with what is kept for it. The move that led to it, made or taken back, changed at most 216 counts.
    pub fn live(&self) -> &LiveWith<F>
        ensures position { result.now.position ≡ last (line_to self.now) }
        ensures at_most { result.now.ticks ≤ 216 }
    {
        self.line.live()
    }

    /// The position at the cursor.
    pub fn position(&self) -> Position
        ensures { result ≡ last (line_to self.now) }
    {
        self.line.position()
    }

    /// Makes room on the line for so many plies more, if there is memory for them, so that a game that is read asks for it once.
    pub fn reserve(&mut self, plies: u32)
        ensures { self.new ≡ self.old }
    {
        let _ = self.line.reserve(plies);
    }

    // Steps to the first child that has the move, if there is one. It takes no memory.
    #[tactic(auto, using(crate::proofs::AnalysisLemmas::found_line))]
    fn follow(&mut self, m: Move) -> bool
        ensures answer { result ≡ true → play_answer self.old m ≡ Ok tt }
        ensures old { result ≡ true → is_new self.old m ≡ false }
        ensures played { result ≡ true → self.new ≡ played m self.old }
        ensures line { result ≡ true → line_to self.new ≡ extended (line_to self.old) m }
        ensures none { result ≡ false → find m (nodes_here self.old) ≡ None }
        ensures stays { result ≡ false → self.new ≡ self.old }
    {
        let Some(place) = self.tree.find(m) else {
            return false;
        };
        let Ok(()) = self.step(place) else {
            unreachable!();
        };
        true
    }

    /// Plays a move: steps to the first child that has it, else adds it. Says whether it added a node: with that answer `undo` takes
    /// the move back.
    ///
    /// # Errors
    ///
    /// Those of `add`; none where a child has the move. All is then as before.
    #[tactic(auto, using(crate::proofs::AnalysisLemmas::plays_there, crate::proofs::AnalysisLemmas::plays_new, crate::proofs::AnalysisLemmas::plays_not))]
    pub fn play(&mut self, m: Move) -> Result<bool, PlayFault>
        ensures { Plays m self.old result self.new }
    {
        if self.follow(m) {
            return Ok(false);
        }
        match self.add(m) {
            Ok(()) => Ok(true),
            Err(fault) => Err(fault),
        }
    }

    /// The same with a move that is known to be legal, as `read_move` answers it: it isn't asked again.
    ///
    /// # Errors
    ///
    /// Those of `add_legal`; none where a child has the move. All is then as before.
    #[tactic(auto, using(crate::proofs::AnalysisLemmas::plays_there, crate::proofs::AnalysisLemmas::plays_new, crate::proofs::AnalysisLemmas::plays_not))]
    pub fn play_legal(&mut self, m: Move) -> Result<bool, PlayFault>
        requires legal { IsTrue (is_legal (last (line_to self.old)) m) }
        ensures { Plays m self.old result self.new }
    {
        if self.follow(m) {
            return Ok(false);
        }
        match self.add_legal(m) {
            Ok(()) => Ok(true),
            Err(fault) => Err(fault),
        }
    }

    /// Adds a move as a child of its own, after the others, whether or not one of them has it, and steps into it.
    ///
    /// # Errors
    ///
    /// `Illegal` where the move isn't legal, else `TooLong` where the cursor is 20,000 plies deep, else `Full` where the tree holds
    /// 1,000,000 moves, else `Memory` where there is none. All is then as before.
    pub fn add(&mut self, m: Move) -> Result<(), PlayFault>
        ensures { Adds m self.old result self.new }
    {
        if !self.line.is_legal(m) {
            return Err(PlayFault::Illegal);
        }
        self.add_legal(m)
    }

    /// The same with a move that is known to be legal, as `read_move` answers it: it isn't asked again.
    ///
    /// # Errors
    ///
    /// Those of `add` but `Illegal`. All is then as before.
    pub fn add_legal(&mut self, m: Move) -> Result<(), PlayFault>
        requires legal { IsTrue (is_legal (last (line_to self.old)) m) }
        ensures { Adds m self.old result self.new }
    {
        match self.line.make_room() {
            Ok(()) => {}
            Err(LineFault::TooLong) => return Err(PlayFault::TooLong),
            Err(LineFault::Memory) => return Err(without_room(&self.tree)),
            Err(LineFault::Illegal) => unreachable!(),
        }
        if let Err(fault) = grow(&mut self.tree, m) {
            return Err(fault);
        }
        self.line.push_prepared(m);
        Ok(())
    }
}

impl<'a, 'k, A: Allocator> AnalysisWith<'a, Followers<'k>, A> {
    /// An analysis with no move, from that position, whose counters are at most 99,999; keys are kept by the words of the
    /// table. `Memory` where there is none.
    pub fn new(
        alloc: &'a A,
        start: Position,
        table: &'k KeyTable,
    ) -> Result<Analysis<'a, 'k, A>, TreeFault>
        requires clock { start.clock ≤ 99999 }
        requires number { start.number ≤ 99999 }
        ensures ok { IfOk result (λ a. a ≡ record { tree = record { start = start; comment = []; below = Bare }; path = [] }) }
        ensures memory { IfErr result (λ fault. fault ≡ Memory) }
    {
        let Ok(root) = start.clone() else {
            unreachable!();
        };
        let tree = Tree::new(alloc, root)?;
        let line = Line::start(alloc, start, table);
        Ok(AnalysisWith { tree, line })
    }

    /// The analysis of a tree, such as a game that was read, with the cursor at its root; keys are kept by the words of the
    /// table. `Memory` where there is none for the line.
    pub fn of(mut tree: Tree<'a, A>, table: &'k KeyTable) -> Result<Analysis<'a, 'k, A>, TreeFault>
        ensures ok { IfOk result (λ a. a ≡ at_path [] tree.entry) }
        ensures memory { IfErr result (λ fault. fault ≡ Memory) }
    {
        tree.start();
        let Ok(root) = tree.position().clone() else {
            unreachable!();
        };
        let mut line = Line::start(tree.alloc(), root, table);
        if line.reserve(tree.room()).is_err() {
            return Err(TreeFault::Memory);
        }
        Ok(AnalysisWith { tree, line })
    }
}
