//! The texts of a game's moves, as a reader finds them out on its way.

ghost use Rattle.std.specs.Prelude.{◌≡◌, ◌≤◌, ◌∷◌, [], IfOk, IfSome, IsTrue, length, option_map};
ghost use Rattle.chess_types.specs.board.Lines.{extended, last};
ghost use Rattle.chess_san.specs.Writing.{san};
ghost use Rattle.chess_pgn.specs.steps.KnownTexts.{IsKnown, known_at, line_at};
ghost use Rattle.chess_pgn.specs.steps.Tasks.{shortened};

use arrayvec::ArrayString;
use chess_types::{Colour, Move};
use std::alloc::{AllocError, Allocator};
use std::marker::Model;

/// The moves for which there is room once one is known, so that a usual game's grow once more at most.
const ROOM: usize = 128;

/// A move with its text in standard algebraic notation, and the side and the number of the position in which it is made.
#[derive(Clone, Copy)]
pub struct Known {
    pub played: Move,
    pub text: ArrayString<8>,
    pub side: Colour,
    pub number: u32,
    /// Which one of the known moves comes before it, counted from 1; 0 where the game begins.
    pub before: usize,
}

/// The texts of a game's moves, as far as they are known, in the order in which they were read. The game begins as usual.
/// Contracts see them, the last one first.
#[derive(Drop)]
pub struct Texts<'a, A: Allocator> {
    known: Vec<Known, &'a A>,
    /// Whether a reader is to find them out.
    wanted: bool,
}

impl<'a, A: Allocator> Model for Texts<'a, A> {
    ghost use Rattle.std.specs.Prelude.{List, reverse};
    ghost use Rattle.chess_pgn.specs.declared.texts.Known.{Known as KnownOf};
    ghost use Rattle.chess_pgn.specs.steps.KnownTexts.{AreKnown};

    ghost Value = { List KnownOf };

    ghost view = { λ t. reverse t.known.items };

    ghost invariant = { λ t. AreKnown (reverse t.known.items) };
}

impl<'a, A: Allocator> Texts<'a, A> {
    /// None. Takes no memory.
    pub fn new(alloc: &'a A) -> Texts<'a, A>
        ensures { result ≡ [] }
    {
        Texts {
            known: Vec::new(alloc),
            wanted: true,
        }
    }

    /// None, and a reader need not find out any. Takes no memory.
    pub(crate) fn unwanted(alloc: &'a A) -> Texts<'a, A>
        ensures { result ≡ [] }
    {
        Texts {
            known: Vec::new(alloc),
            wanted: false,
        }
    }

    /// Whether a reader is to find them out.
    pub(crate) fn are_wanted(&self) -> bool {
        self.wanted
    }

    /// Whether none is known.
    pub(crate) fn is_empty(&self) -> bool {
        self.known.is_empty()
    }

    /// Adds a move, and returns how many there are then.
    pub(crate) fn add(&mut self, known: Known) -> Result<usize, AllocError>
        requires before { known.before ≤ length self.old }
        requires known { IsKnown (line_at self.old known.before) known }
        ensures line { IfOk result (λ place. line_at self.new place ≡ extended (line_at self.old known.before) known.played) }
        ensures within { IfOk result (λ place. place ≤ length self.new) }
    {
        if self.known.is_empty() {
            self.known.reserve(ROOM)?;
        }
        self.known.push(known)?;
        Ok(self.known.len())
    }

    /// Which one comes before that one, counted from 1; 0 where the game begins.
    pub(crate) fn before(&self, place: usize) -> usize
        ensures line { line_at self.now result ≡ shortened (line_at self.now place) }
        ensures within { result ≤ length self.now }
    {
        let _ = &self.known;
        match self.at(place) {
            Some(known) => known.before,
            None => 0,
        }
    }

    // The one at that place, counted from 1.
    fn at(&self, place: usize) -> Option<&Known>
        ensures { option_map (λ k. k.now) result ≡ known_at self.now place }
    {
        if place == 0 {
            return None;
        }
        self.known.get(place - 1)
    }

    /// The one at that place, counted from 1, if it is that move after that other one.
    pub(crate) fn find(&self, place: usize, before: usize, played: Move) -> Option<&Known>
        ensures known { IfSome result (λ known. IsKnown (line_at self.now before) known.now) }
        ensures played { IfSome result (λ known. known.now.played ≡ played) }
        ensures line { IfSome result (λ _. line_at self.now place ≡ extended (line_at self.now before) played) }
        ensures within { IfSome result (λ _. place ≤ length self.now) }
    {
        let _ = &self.known;
        let known = self.at(place)?;
        if known.before == before && is_move(known.played, played) {
            return Some(known);
        }
        None
    }
}

// Whether the moves are the same, promotion and all.
fn is_move(m: Move, n: Move) -> bool
    ensures { IsTrue result → m ≡ n }
{
    m == n
}
