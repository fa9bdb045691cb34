//! The attack counts of a placement, which follow its changes one man at a time.

ghost use Rattle.std.specs.Prelude.{◌≡◌, ◌+◌, ◌*◌, ◌<◌, ◌≤◌, None, IsSome};
ghost use Rattle.std.specs.FinMap as map;
ghost use Rattle.chess_types.specs.board.Board.{man_at};
ghost use Rattle.chess_types.specs.board.Men.{men_of};
ghost use Rattle.chess_types.specs.board.Position.{start};
ghost use Rattle.chess_types.specs.board.Attack.{is_attacked};
ghost use Rattle.chess_attack.specs.KeptCounts.{AreCounts, changed_of};

use crate::change::Change;
use crate::follow::{clear_in, put_in, replace_in};
use crate::follower::Follower;
use crate::mark::mark;
use crate::tally::Tally;
use chess_types::{Colour, Man, Placement, Square};
use std::marker::Model;

/// How many men of each colour attack each square (FIDE Laws 3.1 to 3.9), and the ticks: how many changes of one were
/// made to the counts. Contracts read the counts by `count_in`.
#[derive(Drop)]
pub struct Counts {
    tally: Tally,
}

impl Model for Counts {
    ghost use Rattle.chess_attack.specs.KeptCounts.{KeptCounts};

    ghost Value = { KeptCounts };

    ghost view = { λ c. c.tally };
}

impl Counts {
    ghost use Rattle.chess_types.specs.board.Board.{Board};
    ghost use Rattle.chess_types.specs.board.Attack.{is_attacked};
    ghost use Rattle.chess_attack.specs.KeptCounts.{count_in, AreZero};

    /// Every count 0, as on the empty board, and no tick.
    pub fn empty() -> Counts
        ensures zero { AreZero result }
        ensures agrees { AreCounts result map.empty }
        ensures ticks { result.ticks ≡ 0 }
    {
        Counts {
            tally: Tally::zero(),
        }
    }

    /// The attack counts of the placement in which a game begins (FIDE Laws 2.3), and no tick.
    pub fn start() -> Counts
        ensures agrees { AreCounts result start.placement }
        ensures ticks { result.ticks ≡ 0 }
    {
        Counts {
            tally: Tally::start(),
        }
    }

    /// The attack counts of the placement, by changes of one from those of the empty board: the ticks show them.
    pub fn of(placement: &Placement) -> Counts
        ensures agrees { AreCounts result placement.now }
        ensures at_most { result.ticks ≤ 64 * 27 }
        ensures at_least { changed_of (man_at map.empty) (man_at placement.now) ≤ result.ticks }
    {
        let mut tally = Tally::zero();
        for number in 0..64u8 {
            let square = Square::from_index(number);
            if let Some(man) = placement.get(square) {
                mark(&mut tally, placement, man, square, Change::Raise);
            }
        }
        Counts { tally }
    }

    /// How many men of the colour attack the square.
    pub fn count(&self, colour: Colour, square: Square) -> u8
        ensures { result ≡ count_in self.now colour square }
    {
        self.tally.at(colour, square)
    }

    /// Whether a man of the colour attacks the square (FIDE Laws 3.1.2).
    #[inline(always)]
    pub fn is_attacked(&self, colour: Colour, square: Square) -> bool
        ensures { (board : Board) → AreCounts self.now board → result ≡ is_attacked (man_at board) colour square }
    {
        self.count(colour, square) >= 1
    }

    /// How many changes of one were made to the counts since the beginning, up to `u32::MAX`.
    pub fn ticks(&self) -> u32
        ensures { result ≡ self.now.ticks }
    {
        self.tally.ticks()
    }
}

impl Follower for Counts {
    ghost use Rattle.chess_types.specs.board.Board.{Board};
    ghost use Rattle.chess_attack.specs.KeptCounts.{Ticks};
    ghost use Rattle.chess_attack.specs.steps.TickLaws.{ticks_none, ticks_on, ticks_within, ticks_seen};
    ghost use Rattle.std.specs.Prelude.{[]};
    ghost use Rattle.std.proofs.Common.{refl, arith};

    ghost agrees = { λ counts board. AreCounts counts board };

    ghost works = { Ticks };

    ghost begins = { λ old new. new ≡ record old { ticks = 0 } };

    ghost ticks = { λ counts. counts.ticks };

    ghost words = { λ _. [] };

    ghost suffices = { λ before after n. changed_of (man_at before) (man_at after) ≤ n };

    /// Counts the man's attacks, and closes those that went through the square. At most 54 ticks and, while they have not
    /// reached `u32::MAX`, at least as many as the counts change by.
    fn put(&mut self, before: &Placement, at: Square, man: Man)
        requires empty { map.get before.now at ≡ None }
        requires room { men_of before.now man.colour < 16 }
        requires agrees { AreCounts self.old before.now }
        ensures agrees { AreCounts self.new (map.insert before.now at man) }
        ensures at_most { self.new.ticks ≤ self.old.ticks + 54 }
        ensures at_least { self.new.ticks < u32.MAX → self.old.ticks + changed_of (man_at before.now) (man_at (map.insert before.now at man)) ≤ self.new.ticks }
    {
        put_in(&mut self.tally, before, at, man);
    }

    /// Takes the man's attacks away, and opens those that go through the square. At most 54 ticks and, while they have not
    /// reached `u32::MAX`, at least as many as the counts change by.
    fn clear(&mut self, before: &Placement, at: Square)
        requires occupied { IsSome (map.get before.now at) }
        requires agrees { AreCounts self.old before.now }
        ensures agrees { AreCounts self.new (map.remove before.now at) }
        ensures at_most { self.new.ticks ≤ self.old.ticks + 54 }
        ensures at_least { self.new.ticks < u32.MAX → self.old.ticks + changed_of (man_at before.now) (man_at (map.remove before.now at)) ≤ self.new.ticks }
    {
        clear_in(&mut self.tally, before, at);
    }

    /// Takes the attacks of the man on the square away, and counts those of the man that takes his place. At most 54 ticks
    /// and, while they have not reached `u32::MAX`, at least as many as the counts change by.
    fn replace(&mut self, before: &Placement, at: Square, man: Man)
        requires occupied { IsSome (map.get before.now at) }
        requires room { men_of (map.remove before.now at) man.colour < 16 }
        requires agrees { AreCounts self.old before.now }
        ensures agrees { AreCounts self.new (map.insert before.now at man) }
        ensures at_most { self.new.ticks ≤ self.old.ticks + 54 }
        ensures at_least { self.new.ticks < u32.MAX → self.old.ticks + changed_of (man_at before.now) (man_at (map.insert before.now at man)) ≤ self.new.ticks }
    {
        replace_in(&mut self.tally, before, at, man);
    }

    fn begin(&mut self)
        ensures value { self.new ≡ record self.old { ticks = 0 } }
        ensures agrees { (board : Board) → AreCounts self.old board → AreCounts self.new board }
    {
        self.tally.begin();
    }

    fn copied(&self) -> Counts {
        Counts {
            tally: self.tally.copied(),
        }
    }

    #[inline(always)]
    fn sees(&self, _placement: &Placement, colour: Colour, square: Square) -> bool {
        self.is_attacked(colour, square)
    }

    ghost none = { ticks_none };

    ghost on = { ticks_on };

    ghost within = { ticks_within };

    ghost seen = { λ a b c x y m low f g. (refl, (ticks_seen a b c x y m low f g).0, (ticks_seen a b c x y m low f g).1) };

    ghost more = { λ x y m n le s. Prim.omega (arith, le, s) };
}
