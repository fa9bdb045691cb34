//! A line of moves from a starting position: moves added, looked at and taken back, and what the whole line shows.

ghost use Rattle.std.specs.Prelude.{◌≡◌, ◌+◌, ◌++◌, ◌<◌, ◌≤◌, ◌&&◌, ◌||◌, if◌then◌else◌, [], true, IsOk, IsTrue, OnOk, IfErr, IfOk, IfSome, MatchOption, List, length, nat_lt};
ghost use Rattle.std.specs.List.{slice_get};
ghost use Rattle.chess_types.specs.board.MoveParts.{MoveParts};
ghost use Rattle.chess_types.specs.board.Dead.{is_dead};
ghost use Rattle.chess_types.specs.board.Position.{IsWellFormed, man_on};
ghost use Rattle.chess_types.specs.board.Attack.{in_check as in_check_of};
ghost use Rattle.chess_types.specs.board.Legal.{is_legal as is_legal_in, legal_moves};
ghost use Rattle.chess_types.specs.board.After.{after};
ghost use Rattle.chess_types.specs.board.Lines.{AreLegal, Line as LineOf, last, play, extended};
ghost use Rattle.chess_types.specs.board.Repetition.{is_same, repetitions};
ghost use Rattle.chess_types.specs.board.Outcome.{status, claims, claims_with, winner};
ghost use Rattle.chess_attack.specs.KeptCounts.{changed_of};
ghost use Rattle.chess_fen.specs.Writing.{identity};
ghost use Rattle.chess_san.specs.Naming.{san_reading};
ghost use Rattle.chess_san.specs.Writing.{mark_text, san};
ghost use Rattle.chess_draws.specs.declared.fault.LineFault.TheVariants.{Memory};
ghost use Rattle.chess_draws.specs.Draws.{is_drawn, is_claimable};
ghost use Rattle.chess_draws.specs.LineParts.{IsAsBefore, comparisons};
ghost use Rattle.chess_draws.specs.Pushes.{AnswersPush, AnswersRoom, line_after, most_plies};

use crate::fault::LineFault;
use crate::look_back::look_back;
use crate::ply::Ply;
use crate::repetition_key::RepetitionKey;
use crate::room::make_room;
use crate::status::{claims_at, is_drawn_at, status_at};
use crate::step::{step, step_back};
use crate::target::{begin, target_at_start};
use arrayvec::{ArrayString, ArrayVec};
use chess_attack::{Follower, Nothing};
use chess_fen::write_fields;
use chess_key::KeyTable;
use chess_moves::{has_legal, in_check, is_legal, moves, moves_into};
use chess_play::{Followers, Live, LiveWith};
use chess_san::SanFault;
use chess_types::{Claims, Colour, Move, Position, Status};
use std::alloc::{AllocError, Allocator};
use std::marker::Model;

/// The most plies of a line.
const LIMIT: u32 = 20_000;

/// A position and the legal moves made from it, one after the other. The last of them may be only looked at, at most 16.
#[derive(Drop)]
pub struct LineWith<F: Follower, A: Allocator> {
    root: Position,
    plies: Vec<Ply, A>,
    // The plies after them that are only looked at.
    looked: ArrayVec<Ply, 16>,
    // What is kept of the last position.
    here: RepetitionKey,
    live: LiveWith<F>,
    // How many plies the last count compared.
    compared: u32,
}

impl<F: Follower, A: Allocator> Model for LineWith<F, A> {
    ghost use Rattle.std.specs.Prelude.{map, ◌++◌, length, vec_capacity};
    ghost use Rattle.chess_draws.specs.LineParts.{LineParts, coded_parts};
    ghost use Rattle.chess_draws.specs.steps.Plies.{move_of};

    ghost Value = { LineParts };

    ghost coded = { coded_parts };

    ghost view = { λ l. record { line = record { start = l.root; moves = map move_of (l.plies.items ++ l.looked.items) }; looked = length l.looked.items; words = l.live.words; ticks = l.live.ticks; room = vec_capacity l.plies; compared = l.compared } };

    ghost use Rattle.chess_draws.specs.steps.Plies.{IsHeld};

    ghost invariant = { λ l. IsHeld l.root l.plies.items l.looked.items l.live l.here };
}

/// A line whose positions have attack counts, evaluation and key.
pub type Line<'k, A> = LineWith<Followers<'k>, A>;

/// A line whose positions are followed by nothing: what reads and writes games asks for no count, no evaluation and no key.
pub type PlainLine<A> = LineWith<Nothing, A>;

impl<F: Follower, A: Allocator> LineWith<F, A> {
    /// The line without a move, with what follows its positions: it agrees with the first. Takes no memory. Both counters of the position are at most
    /// 99,999.
    pub fn with(alloc: A, position: Position, kept: F) -> LineWith<F, A>
        requires clock { position.clock ≤ 99999 }
        requires number { position.number ≤ 99999 }
        requires agrees { F.agrees kept position.placement }
        requires ticks { F.ticks kept ≤ 216 }
        ensures line { result.line ≡ record { start = position; moves = [] } }
        ensures looked { result.looked ≡ 0 }
        ensures words { result.words ≡ F.words kept }
        ensures room { result.room ≡ 0 }
        ensures compared { result.compared ≡ 0 }
    {
        let Ok(root) = position.clone() else {
            unreachable!();
        };
        let mut live = LiveWith::with(position, kept);
        let target = target_at_start(&mut live);
        let here = RepetitionKey::of(&live, target);
        LineWith {
            root,
            plies: Vec::new(alloc),
            looked: ArrayVec::new(),
            here,
            live,
            compared: 0,
        }
    }

    /// Another line with the same moves and no less room, in the memory of that allocator; an error where there is none.
    pub fn copied(&self, alloc: A) -> Result<LineWith<F, A>, AllocError>
        requires none { self.now.looked ≡ 0 }
        ensures line { IfOk result (λ copy. copy.line ≡ self.now.line) }
        ensures looked { IfOk result (λ copy. copy.looked ≡ 0) }
        ensures words { IfOk result (λ copy. copy.words ≡ self.now.words) }
        ensures ticks { IfOk result (λ copy. copy.ticks ≡ self.now.ticks) }
        ensures room { IfOk result (λ copy. self.now.room ≤ copy.room) }
        ensures compared { IfOk result (λ copy. copy.compared ≡ self.now.compared) }
    {
        let mut plies = Vec::with_capacity(alloc, self.plies.capacity())?;
        plies.extend_from_slice(&self.plies)?;
        Ok(LineWith {
            root: self.root.clone()?,
            plies,
            looked: ArrayVec::new(),
            here: self.here,
            live: self.live.copied(),
            compared: self.compared,
        })
    }

    /// Takes the last move away; `None` at the start of the line.
    pub fn pop(&mut self) -> Option<Move>
        requires none { self.old.looked ≡ 0 }
        ensures line { MatchOption result ((self.old.line.moves ≡ []) × (self.new.line ≡ self.old.line)) (λ m. self.old.line ≡ extended self.new.line m) }
        ensures looked { self.new.looked ≡ 0 }
        ensures words { self.new.words ≡ self.old.words }
        ensures room { self.new.room ≡ self.old.room }
        ensures compared { self.new.compared ≡ self.old.compared }
        ensures at_most { IfSome result (λ _. self.new.ticks ≤ 216) }
        ensures at_least { IfSome result (λ _. F.suffices (last self.old.line).placement (last self.new.line).placement self.new.ticks) }
    {
        let ply = self.plies.pop()?;
        let m = ply.played();
        step_back(&mut self.live, &mut self.here, ply);
        Some(m)
    }

    /// Adds a move.
    ///
    /// # Errors
    ///
    /// `Illegal` where the move isn't legal, else `TooLong` where the line has 20,000 plies, else `Memory` where it can't grow. The
    /// line is then as before.
    pub fn push(&mut self, m: Move) -> Result<(), LineFault>
        requires none { self.old.looked ≡ 0 }
        ensures answer { AnswersPush self.old m result }
        ensures line { self.new.line ≡ line_after self.old.line m result }
        ensures looked { self.new.looked ≡ 0 }
        ensures words { self.new.words ≡ self.old.words }
        ensures room { self.old.room ≤ self.new.room }
        ensures compared { self.new.compared ≡ self.old.compared }
        ensures at_most { OnOk result (self.new.ticks ≤ 216) }
        ensures at_least { OnOk result (F.suffices (last self.old.line).placement (last self.new.line).placement self.new.ticks) }
    {
        self.prepare(m)?;
        self.push_prepared(m);
        Ok(())
    }

    /// All of a `push` but the move itself: whether the line takes it, and room for it. The line is as before.
    ///
    /// # Errors
    ///
    /// Those of `push`.
    pub fn prepare(&mut self, m: Move) -> Result<(), LineFault>
        requires none { self.old.looked ≡ 0 }
        ensures answer { AnswersPush self.old m result }
        ensures legal { OnOk result (IsTrue (is_legal_in (last self.old.line) m)) }
        ensures few { OnOk result (length self.old.line.moves < most_plies) }
        ensures ready { OnOk result (length self.old.line.moves < self.new.room) }
        ensures line { self.new.line ≡ self.old.line }
        ensures looked { self.new.looked ≡ 0 }
        ensures words { self.new.words ≡ self.old.words }
        ensures room { self.old.room ≤ self.new.room }
        ensures compared { self.new.compared ≡ self.old.compared }
    {
        if !is_legal(&mut self.live, m) {
            return Err(LineFault::Illegal);
        }
        self.make_room()
    }

    /// All of a `push` of a legal move but the move itself: whether the line takes one more, and room for it. The line is as before.
    ///
    /// # Errors
    ///
    /// `TooLong` where the line has 20,000 plies, else `Memory` where it can't grow.
    #[inline(always)]
    pub fn make_room(&mut self) -> Result<(), LineFault>
        requires none { self.old.looked ≡ 0 }
        ensures answer { AnswersRoom self.old result }
        // It is what a push of a legal move answers, whichever.
        ensures push { (m : MoveParts) → is_legal_in (last self.old.line) m ≡ true → AnswersPush self.old m result }
        ensures few { OnOk result (length self.old.line.moves < most_plies) }
        ensures ready { OnOk result (length self.old.line.moves < self.new.room) }
        ensures line { self.new.line ≡ self.old.line }
        ensures looked { self.new.looked ≡ 0 }
        ensures words { self.new.words ≡ self.old.words }
        ensures room { self.old.room ≤ self.new.room }
        ensures compared { self.new.compared ≡ self.old.compared }
    {
        if self.plies() >= LIMIT {
            return Err(LineFault::TooLong);
        }
        if make_room(&mut self.plies, 8).is_err() {
            return Err(LineFault::Memory);
        }
        Ok(())
    }

    /// Adds a move that is known to be legal, as `read_move` answers it: a `push` that doesn't ask again.
    ///
    /// # Errors
    ///
    /// Those of `make_room`. The line is then as before.
    pub fn push_legal(&mut self, m: Move) -> Result<(), LineFault>
        requires none { self.old.looked ≡ 0 }
        requires legal { IsTrue (is_legal_in (last self.old.line) m) }
        ensures answer { AnswersPush self.old m result }
        ensures line { self.new.line ≡ line_after self.old.line m result }
        ensures looked { self.new.looked ≡ 0 }
        ensures words { self.new.words ≡ self.old.words }
        ensures room { self.old.room ≤ self.new.room }
        ensures compared { self.new.compared ≡ self.old.compared }
        ensures at_most { OnOk result (self.new.ticks ≤ 216) }
        ensures at_least { OnOk result (F.suffices (last self.old.line).placement (last self.new.line).placement self.new.ticks) }
    {
        self.make_room()?;
        self.push_prepared(m);
        Ok(())
    }

    /// Adds a legal move to a line of fewer than 20,000 plies that has room for it, as after a `prepare` of the move, after a
    /// `make_room`, or after a `reserve`. Takes no memory.
    pub fn push_prepared(&mut self, m: Move)
        requires none { self.old.looked ≡ 0 }
        requires legal { IsTrue (is_legal_in (last self.old.line) m) }
        requires few { length self.old.line.moves < most_plies }
        requires room { length self.old.line.moves < self.old.room }
        ensures line { self.new.line ≡ extended self.old.line m }
        ensures looked { self.new.looked ≡ 0 }
        ensures words { self.new.words ≡ self.old.words }
        ensures room { self.new.room ≡ self.old.room }
        ensures compared { self.new.compared ≡ self.old.compared }
        ensures at_most { self.new.ticks ≤ 216 }
        ensures at_least { F.suffices (last self.old.line).placement (last self.new.line).placement self.new.ticks }
    {
        let ply = step(&mut self.live, &mut self.here, m);
        self.plies.push_reserved(ply);
    }

    /// Makes a legal move that is only looked at, on a line with fewer than 16 such moves. Takes no memory, and no line is too long
    /// for it. Till it is taken back by `unlook`, the line's other calls speak of the line with it, or have to wait.
    pub fn look(&mut self, m: Move)
        requires legal { IsTrue (is_legal_in (last self.old.line) m) }
        requires few { self.old.looked < 16 }
        ensures line { self.new.line ≡ extended self.old.line m }
        ensures looked { self.new.looked ≡ self.old.looked + 1 }
        ensures words { self.new.words ≡ self.old.words }
        ensures room { self.new.room ≡ self.old.room }
        ensures compared { self.new.compared ≡ self.old.compared }
        ensures at_most { self.new.ticks ≤ 216 }
        ensures at_least { F.suffices (last self.old.line).placement (last self.new.line).placement self.new.ticks }
    {
        let ply = step(&mut self.live, &mut self.here, m);
        self.looked.push(ply);
    }

    /// Takes back the last move that is only looked at: the line is as before its `look`, all but the ticks.
    pub fn unlook(&mut self)
        requires some { 0 < self.old.looked }
        ensures line { (before : LineOf) (m : MoveParts) → self.old.line ≡ extended before m → self.new.line ≡ before }
        ensures looked { self.new.looked + 1 ≡ self.old.looked }
        ensures words { self.new.words ≡ self.old.words }
        ensures room { self.new.room ≡ self.old.room }
        ensures compared { self.new.compared ≡ self.old.compared }
        ensures at_most { self.new.ticks ≤ 216 }
        ensures at_least { F.suffices (last self.old.line).placement (last self.new.line).placement self.new.ticks }
    {
        match self.looked.pop() {
            None => unreachable!(),
            Some(ply) => step_back(&mut self.live, &mut self.here, ply),
        }
    }

    /// Makes room for more plies: no `push` answers `Memory` on a line that is less than so many plies longer than now.
    ///
    /// # Errors
    ///
    /// `Memory` where the line can't grow so far. The line is then as before.
    pub fn reserve(&mut self, plies: u32) -> Result<(), LineFault>
        requires none { self.old.looked ≡ 0 }
        ensures answer { IfErr result (λ fault. fault ≡ Memory) }
        ensures room { OnOk result (length self.old.line.moves + plies ≤ self.new.room) }
        ensures enough { length self.old.line.moves + plies ≤ self.old.room → IsOk result }
        ensures kept { self.old.room ≤ self.new.room }
        ensures line { self.new.line ≡ self.old.line }
        ensures looked { self.new.looked ≡ 0 }
        ensures words { self.new.words ≡ self.old.words }
        ensures compared { self.new.compared ≡ self.old.compared }
    {
        if self.plies.reserve(plies as usize).is_err() {
            return Err(LineFault::Memory);
        }
        Ok(())
    }

    /// How many moves the line has, at most 20,000.
    pub fn plies(&self) -> u32
        requires none { self.now.looked ≡ 0 }
        ensures value { result ≡ length self.now.line.moves }
        ensures at_most { result ≤ most_plies }
    {
        self.plies.len() as u32
    }

    /// The move that was made after so many plies, from 0; `None` from the end of the line on.
    pub fn played(&self, ply: u32) -> Option<Move>
        requires none { self.now.looked ≡ 0 }
        ensures value { result ≡ slice_get self.now.line.moves ply }
    {
        let made = self.plies.get(ply as usize)?;
        Some(made.played())
    }

    /// The position in which the line begins. Each move is legal where it is made.
    pub fn root(&self) -> &Position
        ensures value { result.now ≡ self.now.line.start }
        ensures legal { AreLegal self.now.line.start self.now.line.moves }
    {
        &self.root
    }

    /// The last position, with the numbers that are kept beside it.
    pub fn live(&self) -> &LiveWith<F>
        ensures position { result.now.position ≡ last self.now.line }
        ensures words { result.now.words ≡ self.now.words }
        ensures ticks { result.now.ticks ≡ self.now.ticks }
        ensures at_most { result.now.ticks ≤ 216 }
        ensures well_formed { IsWellFormed (last self.now.line) }
    {
        // Whatever was asked of it, a position keeps its ticks at most 216.
        let _kept = self.live.kept();
        &self.live
    }

    /// The last position.
    pub fn position(&self) -> Position
        ensures value { result ≡ last self.now.line }
        ensures well_formed { IsWellFormed (last self.now.line) }
        ensures counters { (result.clock ≤ 119999 + self.now.looked) × (result.number ≤ 119999 + self.now.looked) }
    {
        let Ok(setup) = self.live.position().clone() else {
            unreachable!();
        };
        Position::new(setup)
    }

    /// The text by which the Laws tell positions apart (FIDE Laws 9.2.3): the first four fields of the last position's FEN, with the en passant target only where
    /// a legal move captures on it. Two positions are the same exactly where they have the same text (`identity_laws`).
    pub fn identity(&self) -> ArrayString<128>
        ensures { result.bytes ≡ identity (last self.now.line) }
    {
        write_fields(self.live.position(), self.here.target)
    }

    /// The legal moves of the last position, in order (FIDE Laws 3.1 to 3.10).
    pub fn moves(&mut self) -> ArrayVec<Move, 432>
        ensures listed { result.items ≡ legal_moves (last self.old.line) }
        ensures as_before { IsAsBefore self.old self.new }
        ensures compared { self.new.compared ≡ self.old.compared }
    {
        moves(&mut self.live)
    }

    /// The same in a list of the caller's, instead of what it held.
    pub fn moves_into(&mut self, list: &mut ArrayVec<Move, 432>)
        ensures listed { list.new.items ≡ legal_moves (last self.old.line) }
        ensures as_before { IsAsBefore self.old self.new }
        ensures compared { self.new.compared ≡ self.old.compared }
    {
        moves_into(&mut self.live, list);
    }

    /// Whether the side to move has a legal move.
    pub fn has_legal(&mut self) -> bool
        ensures value { result ≡ nat_lt 0 (length (legal_moves (last self.old.line))) }
        ensures as_before { IsAsBefore self.old self.new }
        ensures compared { self.new.compared ≡ self.old.compared }
    {
        has_legal(&mut self.live)
    }

    /// Whether the king of the side to move is in check (FIDE Laws 3.9.1).
    pub fn in_check(&self) -> bool
        ensures { result ≡ in_check_of (man_on (last self.now.line)) (last self.now.line).side }
    {
        in_check(&self.live)
    }

    /// Whether the move is legal in the last position (FIDE Laws 3.1 to 3.10).
    pub fn is_legal(&mut self, m: Move) -> bool
        ensures value { result ≡ is_legal_in (last self.old.line) m }
        ensures as_before { IsAsBefore self.old self.new }
        ensures compared { self.new.compared ≡ self.old.compared }
    {
        is_legal(&mut self.live, m)
    }

    /// The legal move of the last position that a text in standard algebraic notation names (PGN 8.2.3).
    ///
    /// # Errors
    ///
    /// As `chess_san::read`: none of the forms, no legal move, or more than one.
    pub fn read_move(&mut self, text: &[u8]) -> Result<Move, SanFault>
        ensures value { result ≡ san_reading (last self.old.line) text.now }
        ensures legal { IfOk result (λ m. is_legal_in (last self.old.line) m ≡ true) }
        ensures as_before { IsAsBefore self.old self.new }
        ensures compared { self.new.compared ≡ self.old.compared }
    {
        chess_san::read(&mut self.live, text)
    }

    /// The text in standard algebraic notation (PGN 8.2.3) of a legal move of the last position, at most 7 bytes.
    pub fn write_move(&mut self, m: Move) -> ArrayString<8>
        requires legal { IsTrue (is_legal_in (last self.old.line) m) }
        ensures value { result.bytes ≡ san (last self.old.line) m }
        ensures as_before { IsAsBefore self.old self.new }
        ensures compared { self.new.compared ≡ self.old.compared }
    {
        chess_san::write(&mut self.live, m)
    }

    /// That text without the mark of check or mate, at most 6 bytes: `write_mark`, asked once the move is made, gives the rest.
    pub fn write_unmarked(&mut self, m: Move) -> ArrayString<8>
        requires legal { IsTrue (is_legal_in (last self.old.line) m) }
        ensures value { result.bytes ++ mark_text (after (last self.old.line) m) ≡ san (last self.old.line) m }
        ensures as_before { IsAsBefore self.old self.new }
        ensures compared { self.new.compared ≡ self.old.compared }
    {
        chess_san::write_unmarked(&mut self.live, m)
    }

    /// The mark after the text of the move that led to the last position: `+` where its king is in check, `#` where it is mated.
    pub fn write_mark(&mut self) -> &'static str
        ensures value { result.now ≡ mark_text (last self.old.line) }
        ensures as_before { IsAsBefore self.old self.new }
        ensures compared { self.new.compared ≡ self.old.compared }
    {
        chess_san::write_mark(&mut self.live)
    }

    /// How many of the line's positions are the same as the last, the last included (FIDE Laws 9.2.2, 9.2.3). It looks back over the
    /// plies since the last pawn move or capture and no further, as the halfmove clock says.
    pub fn count(&mut self) -> u32
        ensures value { result ≡ repetitions self.old.line }
        ensures as_before { IsAsBefore self.old self.new }
        ensures compared { self.new.compared ≡ comparisons self.old.line }
        ensures at_least { result ≤ self.new.compared + 1 }
        ensures at_most { self.new.compared ≤ (last self.old.line).clock }
        // No position before the last pawn move or capture is the same.
        ensures recent { (ms : List MoveParts) (ns : List MoveParts) → self.old.line.moves ≡ ms ++ ns → is_same (last self.old.line) (play self.old.line.start ms) ≡ true → length ns ≤ (last self.old.line).clock }
    {
        let clock = self.live.position().clock;
        let (count, compared) = look_back(
            self.plies.as_slice(),
            self.looked.as_slice(),
            &self.here,
            clock,
        );
        self.compared = compared;
        count + 1
    }

    /// How many plies the last count of repetitions compared with the last position, by itself or for `status`, `claims`,
    /// `claims_with` or `is_drawn`: every second one, as far back as the halfmove clock says; 0 before any. No other call changes it.
    pub fn compared(&self) -> u32
        ensures { result ≡ self.now.compared }
    {
        self.compared
    }

    /// How the game stands (FIDE Laws 5.1.1, 5.2.1, 5.2.2, 9.6).
    pub fn status(&mut self) -> Status
        ensures value { result ≡ status self.old.line }
        ensures as_before { IsAsBefore self.old self.new }
        ensures compared { self.new.compared ≡ comparisons self.old.line }
    {
        let count = self.count();
        status_at(&mut self.live, count)
    }

    /// The side that has mated the other (FIDE Laws 1.4.1, 5.1.1); `None` where the last position is no mate.
    pub fn winner(&mut self) -> Option<Colour>
        ensures value { result ≡ winner (last self.old.line) }
        ensures as_before { IsAsBefore self.old self.new }
        ensures compared { self.new.compared ≡ self.old.compared }
    {
        if !self.in_check() || self.has_legal() {
            return None;
        }
        Some(self.live.position().side.opponent())
    }

    /// Whether a position in which there is a legal move is a draw all the same (FIDE Laws 5.2.2, 9.6); with `claims`, also where a
    /// draw could be claimed there (FIDE Laws 9.2, 9.3).
    pub fn is_drawn(&mut self, claims: bool) -> bool
        ensures value { result ≡ (is_drawn self.old.line || (claims && is_claimable self.old.line)) }
        ensures as_before { IsAsBefore self.old self.new }
        ensures compared { self.new.compared ≡ comparisons self.old.line }
    {
        let count = self.count();
        is_drawn_at(self.live.position(), count, claims)
    }

    /// Whether by the halfmove clock alone no legal move leads to a draw by repetition or by moves without a capture or a pawn's move
    /// (FIDE Laws 9.6); with `claims`, nor to a position where such a draw could be claimed (FIDE Laws 9.2, 9.3): the clock is below
    /// 7, or 3. A position comes up again after four plies at the earliest. Nothing is compared.
    pub fn is_far_from_draw(&self, claims: bool) -> bool
        ensures value { result ≡ nat_lt (last self.now.line).clock (if claims then 3 else 7) }
        // After a legal move the line counts as drawn only where its last position is dead.
        ensures far { IsTrue result → (m : MoveParts) → m.from < 64 → m.to < 64 → is_legal_in (last self.now.line) m ≡ true → (is_drawn (extended self.now.line m) || (claims && is_claimable (extended self.now.line m))) ≡ is_dead (last (extended self.now.line m)) }
    {
        let clock = self.live.position().clock;
        if claims { clock < 3 } else { clock < 7 }
    }

    /// What may be claimed in the last position (FIDE Laws 9.2.2, 9.3.2).
    pub fn claims(&mut self) -> Claims
        requires none { self.old.looked ≡ 0 }
        ensures value { result ≡ claims self.old.line }
        ensures as_before { IsAsBefore self.old self.new }
        ensures compared { self.new.compared ≡ comparisons self.old.line }
    {
        let count = self.count();
        let status = status_at(&mut self.live, count);
        claims_at(status, count, self.live.position().clock)
    }

    /// What may be claimed with a move that the player means to make, in the position after it (FIDE Laws 9.2.1, 9.3.1); `None`
    /// where the move isn't legal.
    pub fn claims_with(&mut self, m: Move) -> Option<Claims>
        requires none { self.old.looked ≡ 0 }
        ensures value { result ≡ claims_with self.old.line m }
        ensures as_before { IsAsBefore self.old self.new }
        // Where the move is legal, the last count is that of the line with it.
        ensures compared { MatchOption result (self.new.compared ≡ self.old.compared) (λ _. self.new.compared ≡ comparisons (extended self.old.line m)) }
    {
        if !is_legal(&mut self.live, m) {
            return None;
        }
        let status = self.status();
        self.look(m);
        let count = self.count();
        let clock = self.live.position().clock;
        self.unlook();
        Some(claims_at(status, count, clock))
    }
}

impl<'k, A: Allocator> LineWith<Followers<'k>, A> {
    /// The line without a move. Takes no memory. Both counters of the position are at most 99,999.
    pub fn start(alloc: A, position: Position, table: &'k KeyTable) -> Line<'k, A>
        requires clock { position.clock ≤ 99999 }
        requires number { position.number ≤ 99999 }
        ensures line { result.line ≡ record { start = position; moves = [] } }
        ensures looked { result.looked ≡ 0 }
        ensures words { result.words ≡ table.now }
        ensures ticks { result.ticks ≡ 0 }
        ensures room { result.room ≡ 0 }
        ensures compared { result.compared ≡ 0 }
    {
        let Ok(root) = position.clone() else {
            unreachable!();
        };
        let (live, target) = begin(position, table);
        let here = RepetitionKey::of(&live, target);
        LineWith {
            root,
            plies: Vec::new(alloc),
            looked: ArrayVec::new(),
            here,
            live,
            compared: 0,
        }
    }
}
