//! The counts of both colours on all squares, and the ticks: the only code that writes a count.

ghost use Rattle.std.specs.Prelude.{◌≡◌, ℕ, ◌+◌, ◌<◌, min};
ghost use Rattle.chess_types.specs.declared.board.man.Colour.{Colour};
ghost use Rattle.chess_types.specs.board.Board.{man_at};
ghost use Rattle.chess_types.specs.board.Attack.{count};
ghost use Rattle.chess_types.specs.board.Position.{start};

use crate::change::Change;
use chess_types::{Colour, Square};
use std::marker::Model;

/// How many of White's men attack each square as a game begins, from a1 to h8.
#[rattlefmt::skip]
const WHITE_AT_START: [u8; 64] = [
    0, 1, 1, 1, 1, 1, 1, 0,
    1, 1, 1, 4, 4, 1, 1, 1,
    2, 2, 3, 2, 2, 3, 2, 2,
    0, 0, 0, 0, 0, 0, 0, 0,
    0, 0, 0, 0, 0, 0, 0, 0,
    0, 0, 0, 0, 0, 0, 0, 0,
    0, 0, 0, 0, 0, 0, 0, 0,
    0, 0, 0, 0, 0, 0, 0, 0,
];

/// How many of Black's do.
#[rattlefmt::skip]
const BLACK_AT_START: [u8; 64] = [
    0, 0, 0, 0, 0, 0, 0, 0,
    0, 0, 0, 0, 0, 0, 0, 0,
    0, 0, 0, 0, 0, 0, 0, 0,
    0, 0, 0, 0, 0, 0, 0, 0,
    0, 0, 0, 0, 0, 0, 0, 0,
    2, 2, 3, 2, 2, 3, 2, 2,
    1, 1, 1, 4, 4, 1, 1, 1,
    0, 1, 1, 1, 1, 1, 1, 0,
];

/// A count for each colour and square, and the ticks: how many changes of one were made. Contracts see the counts by
/// `count_in`. No other code can write a count.
#[derive(Drop)]
pub struct Tally {
    white: [u8; 64],
    black: [u8; 64],
    ticks: u32,
}

impl Model for Tally {
    ghost use Rattle.chess_attack.specs.KeptCounts.{KeptCounts};

    ghost Value = { KeptCounts };

    ghost view = { λ t. record { white = t.white; black = t.black; ticks = t.ticks } };
}

impl Tally {
    ghost use Rattle.chess_attack.specs.KeptCounts.{count_in, AreZero};
    ghost use Rattle.chess_attack.specs.declared.change.Change.TheVariants.{Raise, Lower};
    ghost use Rattle.chess_attack.specs.steps.Marks.{Moves, HasRoom, one_at};

    /// No attack counted, and no tick.
    pub fn zero() -> Tally
        ensures counts { AreZero result }
        ensures ticks { result.ticks ≡ 0 }
    {
        Tally {
            white: [0; 64],
            black: [0; 64],
            ticks: 0,
        }
    }

    /// The attack counts of the placement in which a game begins (FIDE Laws 2.3), and no tick.
    pub fn start() -> Tally
        ensures counts { (colour : Colour) (square : ℕ) → square < 64 → count_in result colour square ≡ count (man_at start.placement) colour square }
        ensures ticks { result.ticks ≡ 0 }
    {
        Tally {
            white: WHITE_AT_START,
            black: BLACK_AT_START,
            ticks: 0,
        }
    }

    /// Another one with the same counts and ticks.
    pub fn copied(&self) -> Tally
        ensures { result ≡ self.now }
    {
        Tally {
            white: self.white,
            black: self.black,
            ticks: self.ticks,
        }
    }

    /// The count of the colour on the square.
    pub fn at(&self, colour: Colour, square: Square) -> u8
        ensures { result ≡ count_in self.now colour square }
    {
        match colour {
            Colour::White => self.white[square.index()],
            Colour::Black => self.black[square.index()],
        }
    }

    /// Counts the ticks from 0 again. The counts stay.
    pub fn begin(&mut self)
        ensures { self.new ≡ record self.old { ticks = 0 } }
    {
        self.ticks = 0;
    }

    /// How many changes of one were made since the beginning, up to `u32::MAX`.
    pub fn ticks(&self) -> u32
        ensures { result ≡ self.now.ticks }
    {
        self.ticks
    }

    /// Raises the count of the colour on the square by one, and no other. One tick.
    pub fn up(&mut self, colour: Colour, square: Square)
        requires room { count_in self.old colour square < 255 }
        ensures counts { Moves Raise self.old self.new (one_at colour square) }
        ensures ticks { self.new.ticks ≡ min (self.old.ticks + 1) u32.MAX }
    {
        match colour {
            Colour::White => self.white[square.index()] += 1,
            Colour::Black => self.black[square.index()] += 1,
        }
        self.ticks = self.ticks.saturating_add(1);
    }

    /// Lowers the count of the colour on the square by one, and no other. One tick.
    pub fn down(&mut self, colour: Colour, square: Square)
        requires room { 0 < count_in self.old colour square }
        ensures counts { Moves Lower self.old self.new (one_at colour square) }
        ensures ticks { self.new.ticks ≡ min (self.old.ticks + 1) u32.MAX }
    {
        match colour {
            Colour::White => self.white[square.index()] -= 1,
            Colour::Black => self.black[square.index()] -= 1,
        }
        self.ticks = self.ticks.saturating_add(1);
    }

    /// Raises or lowers the count of the colour on the square by one, and no other. One tick.
    pub fn change(&mut self, change: Change, colour: Colour, square: Square)
        requires room { HasRoom change (count_in self.old colour square) 1 }
        ensures counts { Moves change self.old self.new (one_at colour square) }
        ensures ticks { self.new.ticks ≡ min (self.old.ticks + 1) u32.MAX }
    {
        match change {
            Change::Raise => self.up(colour, square),
            Change::Lower => self.down(colour, square),
        }
    }
}
