//! The law of whatever is kept beside a placement and follows its changes: counts, sums, a key, or nothing.

ghost use Rattle.std.specs.Prelude.{◌≡◌, ◌<◌, None, IsSome};
ghost use Rattle.std.specs.FinMap as map;
ghost use Rattle.chess_types.specs.board.Board.{man_at};
ghost use Rattle.chess_types.specs.board.Men.{men_of};
ghost use Rattle.chess_types.specs.board.Attack.{is_attacked};

use chess_types::{Colour, Man, Placement, Square};

/// What is kept beside a placement, and follows its changes one man at a time. Code above is proved over this law alone:
/// after `put`, `clear` or `replace` the follower agrees with the placement so changed.
pub trait Follower {
    ghost use Rattle.std.specs.Prelude.{ℕ, ◌+◌, ◌-◌, ◌^◌, ◌≤◌, List};
    ghost use Rattle.chess_types.specs.board.Board.{Board};

    /// What is kept is that of the board.
    ghost agrees: { Self → Board → Type 0 };

    /// What work does to what is kept, from one board to another, by so many ticks at most.
    ghost works: { Self → Self → Board → Board → ℕ → Type 0 };

    /// What counting the ticks from 0 again does to what is kept.
    ghost begins: { Self → Self → Type 0 };

    /// The ticks since then; 0 where none are counted.
    ghost ticks: { Self → ℕ };

    /// The words by which it is kept, which stay; none where it needs none.
    ghost words: { Self → List ℕ };

    /// That so many ticks are no fewer than the work from one board to another needs.
    ghost suffices: { Board → Board → ℕ → Type 0 };

    /// Follows a man that is put on an empty square, where its colour has fewer than 16.
    fn put(&mut self, before: &Placement, at: Square, man: Man)
        requires empty { map.get before.now at ≡ None }
        requires room { men_of before.now man.colour < 16 }
        requires agrees { agrees self.old before.now }
        ensures agrees { agrees self.new (map.insert before.now at man) }
        ensures works { works self.old self.new before.now (map.insert before.now at man) 54 };

    /// Follows the man that is taken from an occupied square.
    fn clear(&mut self, before: &Placement, at: Square)
        requires occupied { IsSome (map.get before.now at) }
        requires agrees { agrees self.old before.now }
        ensures agrees { agrees self.new (map.remove before.now at) }
        ensures works { works self.old self.new before.now (map.remove before.now at) 54 };

    /// Follows the man that takes the place of the one on an occupied square, where his colour has fewer than 16 without it.
    fn replace(&mut self, before: &Placement, at: Square, man: Man)
        requires occupied { IsSome (map.get before.now at) }
        requires room { men_of (map.remove before.now at) man.colour < 16 }
        requires agrees { agrees self.old before.now }
        ensures agrees { agrees self.new (map.insert before.now at man) }
        ensures works { works self.old self.new before.now (map.insert before.now at man) 54 };

    /// Counts the ticks from 0 again, if there are any. What is kept agrees with the same boards.
    fn begin(&mut self)
        ensures agrees { (board : Board) → agrees self.old board → agrees self.new board }
        ensures begins { begins self.old self.new };

    /// Another one with all that is kept.
    fn copied(&self) -> Self
        ensures { result ≡ self.now };

    /// Whether a man of the colour attacks the square (FIDE Laws 3.1.2): by what is kept, where that tells, else by sets of squares.
    fn sees(&self, placement: &Placement, colour: Colour, square: Square) -> bool
        requires agrees { agrees self.now placement.now }
        ensures { result ≡ is_attacked (man_at placement.now) colour square };

    /// No work.
    ghost none: { (a : Self) (x : Board) → works a a x x 0 };

    /// Work after work.
    ghost on: { (a b c : Self) (x y z : Board) (m n : ℕ) → works a b x y m → works b c y z n → works a c x z (m + n) };

    /// A greater bound.
    ghost within: { (a b : Self) (x y : Board) (m n : ℕ) → m ≤ n → works a b x y m → works a b x y n };

    /// What is seen after a beginning and some work: the same words, no more ticks than the work may take, and no fewer than it needs.
    ghost seen: { (a b c : Self) (x y : Board) (m : ℕ) → m < 2 ^ 32 - 1 → begins a b → works b c x y m → (words c ≡ words a) × (ticks c ≤ m) × suffices x y (ticks c) };

    /// More ticks suffice, too.
    ghost more: { (x y : Board) (m n : ℕ) → m ≤ n → suffices x y m → suffices x y n };
}
