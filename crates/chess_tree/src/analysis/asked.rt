//! What is asked of the position at an analysis' cursor: moves, texts, repetition, status, claims, and the best move.

ghost use Rattle.std.specs.Prelude.{◌≡◌, ◌≤◌, true, false, IfOk, IsTrue};
ghost use Rattle.std.specs.List.{slice_get};
ghost use Rattle.chess_types.specs.board.Attack.{in_check as in_check_of};
ghost use Rattle.chess_types.specs.board.Position.{man_on};
ghost use Rattle.chess_types.specs.board.Legal.{is_legal, legal_moves};
ghost use Rattle.chess_types.specs.board.Lines.{last};
ghost use Rattle.chess_types.specs.board.Repetition.{repetitions};
ghost use Rattle.chess_types.specs.board.Outcome.{status, claims, claims_with, winner};
ghost use Rattle.chess_san.specs.Naming.{san_reading};
ghost use Rattle.chess_san.specs.Writing.{san};
ghost use Rattle.chess_search.specs.Best.{best};
ghost use Rattle.chess_search.specs.Slices.{IsInRange};
ghost use Rattle.chess_tree.specs.GameTree.{line_to};

use super::AnalysisWith;
use arrayvec::{ArrayString, ArrayVec};
use chess_attack::Follower;
use chess_play::Followers;
use chess_san::SanFault;
use chess_types::{Claims, Colour, Move, Status};
use std::alloc::Allocator;

impl<'a, F: Follower, A: Allocator> AnalysisWith<'a, F, A> {
    /// The legal moves at the cursor, in order (FIDE Laws 3.1 to 3.10).
    pub fn moves(&mut self) -> ArrayVec<Move, 432>
        ensures listed { result.items ≡ legal_moves (last (line_to self.old)) }
        ensures as_before { self.new ≡ self.old }
    {
        self.line.moves()
    }

    /// Whether the move, any at all, is legal at the cursor (FIDE Laws 3.9.2, 3.10.1).
    pub fn is_legal(&mut self, m: Move) -> bool
        ensures value { result ≡ is_legal (last (line_to self.old)) m }
        ensures as_before { self.new ≡ self.old }
    {
        self.line.is_legal(m)
    }

    /// The legal move at the cursor that a text in standard algebraic notation names (PGN 8.2.3).
    ///
    /// # Errors
    ///
    /// As `chess_san::read`: none of the forms, no legal move, or more than one.
    pub fn read_move(&mut self, text: &[u8]) -> Result<Move, SanFault>
        ensures value { result ≡ san_reading (last (line_to self.old)) text.now }
        ensures legal { IfOk result (λ m. is_legal (last (line_to self.old)) m ≡ true) }
        ensures as_before { self.new ≡ self.old }
    {
        self.line.read_move(text)
    }

    /// The text in standard algebraic notation (PGN 8.2.3) of a legal move at the cursor, at most 7 bytes.
    pub fn write_move(&mut self, m: Move) -> ArrayString<8>
        requires legal { IsTrue (is_legal (last (line_to self.old)) m) }
        ensures value { result.bytes ≡ san (last (line_to self.old)) m }
        ensures as_before { self.new ≡ self.old }
    {
        self.line.write_move(m)
    }

    /// Whether the king of the side to move is in check at the cursor (FIDE Laws 3.9.1).
    pub fn in_check(&self) -> bool
        ensures { result ≡ in_check_of (man_on (last (line_to self.now))) (last (line_to self.now)).side }
    {
        self.line.in_check()
    }

    /// The move that was made after `ply` plies from the root on the way to the cursor, from 0; `None` at the cursor and beyond.
    pub fn played(&self, ply: u32) -> Option<Move>
        ensures value { result ≡ slice_get (line_to self.now).moves ply }
    {
        self.line.played(ply)
    }

    /// The side that has mated the other at the cursor (FIDE Laws 1.4.1, 5.1.1); `None` where there is no mate.
    pub fn winner(&mut self) -> Option<Colour>
        ensures value { result ≡ winner (last (line_to self.old)) }
        ensures as_before { self.new ≡ self.old }
    {
        self.line.winner()
    }

    /// How many of the positions from the root to the cursor are the same as that at the cursor, itself included (FIDE Laws
    /// 9.2.2, 9.2.3).
    pub fn count(&mut self) -> u32
        ensures value { result ≡ repetitions (line_to self.old) }
        ensures as_before { self.new ≡ self.old }
    {
        self.line.count()
    }

    /// The game's status at the cursor (FIDE Laws 5.1.1, 5.2.1, 5.2.2, 9.6).
    pub fn status(&mut self) -> Status
        ensures value { result ≡ status (line_to self.old) }
        ensures as_before { self.new ≡ self.old }
    {
        self.line.status()
    }

    /// What may be claimed at the cursor (FIDE Laws 9.2.2, 9.3.2).
    pub fn claims(&mut self) -> Claims
        ensures value { result ≡ claims (line_to self.old) }
        ensures as_before { self.new ≡ self.old }
    {
        self.line.claims()
    }

    /// What may be claimed with a move that the player means to make, in the position after it (FIDE Laws 9.2.1, 9.3.1); `None`
    /// where the move isn't legal.
    pub fn claims_with(&mut self, m: Move) -> Option<Claims>
        ensures value { result ≡ claims_with (line_to self.old) m }
        ensures as_before { self.new ≡ self.old }
    {
        self.line.claims_with(m)
    }
}

impl<'a, 'k, A: Allocator> AnalysisWith<'a, Followers<'k>, A> {
    /// The first legal move at the cursor of greatest plain minimax value `depth` plies deep, 1 to 16, with its value for the side to
    /// move: centipawns, or 30,000 less the plies to a mate. `None` where there is no legal move. Takes no memory.
    #[tactic(auto, using(chess_search::proofs::RootLemmas::roots_legal))]
    pub fn best(&mut self, depth: u8) -> Option<(Move, i32)>
        requires deep { 1 ≤ depth }
        requires shallow { depth ≤ 16 }
        ensures value { result ≡ best false depth (line_to self.old) (legal_moves (last (line_to self.old))) }
        ensures in_range { IsInRange result }
        ensures as_before { self.new ≡ self.old }
    {
        let roots = self.line.moves();
        chess_search::best(&mut self.line, depth, &roots)
    }
}
