//! A walk over a tree's nodes that makes their moves.

ghost use Rattle.std.specs.Prelude.{◌≡◌, ◌<◌, ◌≤◌, [], true, false, length, IfOk, None};
ghost use Rattle.std.specs.Iterator.{at_most};
ghost use Rattle.chess_types.specs.board.Legal.{is_legal};
ghost use Rattle.chess_types.specs.board.Lines.{extended, last};
ghost use Rattle.chess_san.specs.Writing.{san};
ghost use Rattle.chess_draws.specs.Pushes.{most_plies};
ghost use Rattle.chess_walk.specs.Replays.{GivesPlayed, main_played, replays};
ghost use Rattle.chess_walk.specs.steps.Lines.{IsLegalAgain, before_move, shortened};

use crate::walk::{Visit, Walk};
use arrayvec::ArrayString;
use chess_draws::Line;
use chess_key::KeyTable;
use chess_tree::{NodeRef, Tree};
use chess_types::{Move, Position};
use std::alloc::{AllocError, Allocator};
use std::marker::Model;

/// A node, as a walk that makes the moves comes to it.
#[derive(Drop)]
pub struct Replayed<'t, 'a, A: Allocator> {
    /// How many moves lead to it, its own included, 1 to 20,000.
    pub depth: u32,
    /// In how many variations it is, one within another; 0 in the main line.
    pub level: u32,
    /// Whether a variation begins with it.
    pub begins: bool,
    /// The text of its move in standard algebraic notation, at most 7 bytes (PGN 8.2.3).
    pub san: ArrayString<8>,
    /// The position after its move.
    pub position: Position,
    /// The node: its move, its notes and what follows it.
    pub node: NodeRef<'t, 'a, A>,
}

/// A walk over the nodes of a tree that makes the moves: each is made once, and once more where it goes on after variations. Contracts see the
/// visits that are still to come, each with the line before its move. Where there is no memory to go on with, it gives `AllocError` once and ends.
#[derive(Drop)]
pub struct Replay<'t, 'k, 'a, A: Allocator> {
    walk: Walk<'t, 'a, A>,
    /// The line to the last node.
    line: Line<'k, &'a A>,
}

impl<'t, 'k, 'a, A: Allocator> Model for Replay<'t, 'k, 'a, A> {
    ghost use Rattle.std.specs.Prelude.{List, ◌≡◌};
    ghost use Rattle.std.specs.Coded.{coded_list};
    ghost use Rattle.chess_walk.specs.Replays.{Played};
    ghost use Rattle.chess_walk.specs.steps.Lines.{AreReplayable, coded_played, replayed};

    ghost Value = { List Played };

    ghost coded = { coded_list coded_played };

    ghost view = { λ r. replayed r.line.line r.walk };

    ghost invariant = { λ r. AreReplayable r.line.line r.walk × (r.line.looked ≡ 0) };
}

// Takes moves back until there are no more than `plies`.
fn back_to<A: Allocator>(line: &mut Line<'_, A>, plies: u32)
    requires still { line.old.looked ≡ 0 }
    ensures line { line.new.line ≡ shortened line.old.line plies }
    ensures still { line.new.looked ≡ 0 }
    ensures room { line.new.room ≡ line.old.room }
{
    while line.plies() > plies {
        let _gone = line.pop();
    }
}

// Takes back what doesn't lead to a node that `depth` moves lead to, and makes the move before it again where that is asked.
fn go_before<A: Allocator>(line: &mut Line<'_, A>, depth: u32, again: Option<Move>)
    requires still { line.old.looked ≡ 0 }
    requires deep { 1 ≤ depth }
    requires few { depth ≤ most_plies }
    requires legal { IsLegalAgain line.old.line depth again }
    requires room { length line.old.line.moves < line.old.room }
    ensures line { line.new.line ≡ before_move line.old.line depth again }
    ensures still { line.new.looked ≡ 0 }
    ensures room { line.new.room ≡ line.old.room }
{
    match again {
        None => back_to(line, depth - 1),
        Some(m) => {
            back_to(line, depth - 2);
            line.push_prepared(m);
        }
    }
}

// Makes a move, and gives its text.
fn make<A: Allocator>(line: &mut Line<'_, A>, m: Move) -> ArrayString<8>
    requires still { line.old.looked ≡ 0 }
    requires legal { is_legal (last line.old.line) m ≡ true }
    requires few { length line.old.line.moves < most_plies }
    requires room { length line.old.line.moves < line.old.room }
    ensures text { result.bytes ≡ san (last line.old.line) m }
    ensures line { line.new.line ≡ extended line.old.line m }
    ensures still { line.new.looked ≡ 0 }
{
    let text = line.write_move(m);
    line.push_prepared(m);
    text
}

impl<'t, 'k, 'a, A: Allocator> Replay<'t, 'k, 'a, A> {
    ghost use Rattle.chess_walk.specs.steps.Lines.{AreReplayable, replayed};

    // A walk that begins at the root of a tree, with the moves made.
    fn over(
        alloc: &'a A,
        table: &'k KeyTable,
        tree: &Tree<'a, A>,
        walk: Walk<'t, 'a, A>,
    ) -> Replay<'t, 'k, 'a, A>
        requires { AreReplayable (record { start = tree.now.tree.start; moves = [] }) walk }
        ensures { result ≡ replayed (record { start = tree.now.tree.start; moves = [] }) walk.entry }
    {
        let Ok(start) = tree.position().clone() else {
            unreachable!();
        };
        Replay {
            walk,
            line: Line::start(alloc, start, table),
        }
    }

    /// All nodes of a tree but the root. Keys are kept by the words of the table. Want of memory is answered.
    pub fn of(
        alloc: &'a A,
        table: &'k KeyTable,
        tree: &'t Tree<'a, A>,
    ) -> Result<Replay<'t, 'k, 'a, A>, AllocError>
        ensures { IfOk result (λ replay. replay ≡ replays false (record { start = tree.now.tree.start; moves = [] }) 1 0 None tree.now.tree.below) }
    {
        let _ = tree.position();
        let walk = Walk::of(alloc, tree)?;
        Ok(Replay::over(alloc, table, tree, walk))
    }

    /// The nodes of a tree's main line but the root. Keys are kept by the words of the table. Want of memory is answered.
    pub fn main_line(
        alloc: &'a A,
        table: &'k KeyTable,
        tree: &'t Tree<'a, A>,
    ) -> Result<Replay<'t, 'k, 'a, A>, AllocError>
        ensures { IfOk result (λ replay. replay ≡ main_played (record { start = tree.now.tree.start; moves = [] }) 1 tree.now.tree.below) }
    {
        let _ = tree.position();
        let walk = Walk::main_line(alloc, tree)?;
        Ok(Replay::over(alloc, table, tree, walk))
    }
}

impl<'t, 'k, 'a, A: Allocator> Iterator for Replay<'t, 'k, 'a, A> {
    ghost use Rattle.chess_walk.specs.steps.Shown.{shows};

    type Item = Result<Replayed<'t, 'a, A>, AllocError>;

    ghost next_gives = { GivesPlayed shows };

    ghost remaining = { λ replay. at_most (length replay) };

    /// The next node in order, its move made; `None` at the end.
    fn next(&mut self) -> Option<Result<Replayed<'t, 'a, A>, AllocError>> {
        let Visit {
            depth,
            level,
            begins,
            again,
            node,
        } = match self.walk.next()? {
            Ok(visit) => visit,
            Err(fault) => return Some(Err(fault)),
        };
        if self.line.reserve(2).is_err() {
            self.walk.stop();
            return Some(Err(AllocError));
        }
        go_before(&mut self.line, depth, again);
        let Some(m) = node.move_at() else {
            unreachable!();
        };
        let san = make(&mut self.line, m);
        let position = self.line.position();
        Some(Ok(Replayed {
            depth,
            level,
            begins,
            san,
            position,
            node,
        }))
    }
}
