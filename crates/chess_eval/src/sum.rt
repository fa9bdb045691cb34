//! The evaluation of a placement as three sums, which follow its changes one man at a time.

ghost use Rattle.std.specs.Prelude.{◌≡◌, ◌≢◌, Some, pos, neg_ℤ, ◌≤ℤ◌, int_div};
ghost use Rattle.std.specs.FinMap as map;
ghost use Rattle.chess_types.specs.board.Board.{Board, Men, man_at};
ghost use Rattle.chess_types.specs.board.Position.{start};
ghost use Rattle.chess_eval.specs.Evaluation.{for_white as for_white_of, balance_there, AreSumsOf, tapered as tapered_of, evaluation, IsWithin, HasArmies};
ghost use Rattle.chess_eval.specs.Worth.{middle_of, end_of};
ghost use Rattle.chess_eval.specs.Mirror.{IsMirror, mirrored};
ghost use Rattle.chess_eval.specs.steps.Changes.{AreInRange, plus, with_man, without_man};

use crate::worths::{end, middle, weight};
use chess_attack::{Follower, is_attacked};
use chess_types::{Colour, Man, Placement, Square};
use std::marker::Model;

/// A man's worth as White counts it, in centipawns: negative where it is Black's.
#[inline(always)]
fn for_white(colour: Colour, worth: i32) -> i32
    requires low { neg_ℤ (pos 903) ≤ℤ worth }
    requires high { worth ≤ℤ pos 903 }
    ensures { result ≡ for_white_of colour worth }
{
    match colour {
        Colour::White => worth,
        Colour::Black => -worth,
    }
}

/// What the man is worth to White on the square in the middlegame, in centipawns.
#[inline(always)]
fn middle_for_white(man: Man, square: Square) -> i32
    ensures { result ≡ balance_there middle_of (Some man) square }
{
    for_white(man.colour, middle(man, square))
}

/// What the man is worth to White on the square in the endgame, in centipawns.
#[inline(always)]
fn end_for_white(man: Man, square: Square) -> i32
    ensures { result ≡ balance_there end_of (Some man) square }
{
    for_white(man.colour, end(man, square))
}

/// One part of 24, cut towards 0.
#[inline(always)]
fn part_of(parts: i32) -> i32
    ensures { result ≡ int_div parts (pos 24) }
{
    parts / 24
}

/// The mean of a middlegame and an endgame sum, by how much of the middlegame is left, of 24. Cut towards 0.
fn tapered(middle: i32, end: i32, weights: i32) -> i32
    requires { AreInRange (record { middle = middle; end = end; weights = weights }) }
    ensures value { result ≡ tapered_of (record { middle = middle; end = end; weights = weights }) }
{
    let phase = weights.min(24);
    let parts = middle * phase + end * (24 - phase);
    part_of(parts)
}

/// The evaluation of a placement, kept through its changes as three sums, which contracts see: White's worths less Black's in
/// the middlegame, and in the endgame, at most 903 centipawns a square either way; and the weights of all men, 0 to 256.
#[derive(Drop)]
pub struct Sum {
    middle: i32,
    end: i32,
    weights: i32,
}

impl Model for Sum {
    ghost use Rattle.chess_eval.specs.Evaluation.{Sums};

    ghost Value = { Sums };

    ghost view = { λ s. record { middle = s.middle; end = s.end; weights = s.weights } };

    ghost use Rattle.chess_eval.specs.steps.Changes.{AreInRange};

    ghost invariant = { λ s. AreInRange (record { middle = s.middle; end = s.end; weights = s.weights }) };
}

impl Sum {
    /// The sums of the empty board, 0 each.
    pub fn empty() -> Sum
        ensures zero { result ≡ record { middle = pos 0; end = pos 0; weights = pos 0 } }
        ensures agrees { AreSumsOf result map.empty }
    {
        Sum {
            middle: 0,
            end: 0,
            weights: 0,
        }
    }

    /// The sums of the placement in which a game begins (FIDE Laws 2.3): no side is ahead.
    pub fn start() -> Sum
        ensures { AreSumsOf result start.placement }
    {
        Sum {
            middle: 0,
            end: 0,
            weights: 24,
        }
    }

    /// The sums of the placement.
    pub fn of(placement: &Placement) -> Sum
        ensures { AreSumsOf result placement.now }
    {
        let mut sum = Sum::empty();
        for number in 0..64u8 {
            let square = Square::from_index(number);
            if let Some(man) = placement.get(square) {
                sum.add(man, square);
            }
        }
        sum
    }

    /// The evaluation for White, in centipawns: at most 13,605 either way where each side has a king and 15 men more.
    pub fn white(&self) -> i32
        ensures value { result ≡ tapered_of self.now }
        ensures of_board { (board : Board) → AreSumsOf self.now board → result ≡ evaluation (man_at board) }
        ensures in_range { IsWithin 57792 result }
        ensures with_armies { (board : Board) → AreSumsOf self.now board → HasArmies board → IsWithin 13605 result }
    {
        tapered(self.middle, self.end, self.weights)
    }

    /// The sums of the board seen from the other side, its ranks turned round and the men's colours changed: the evaluation is
    /// the negative.
    pub fn mirrored(&self) -> Sum
        ensures value { result ≡ record { middle = neg_ℤ self.now.middle; end = neg_ℤ self.now.end; weights = self.now.weights } }
        ensures agrees { (board other : Board) → IsMirror board other → AreSumsOf self.now board → AreSumsOf result other }
        ensures negative { tapered_of result ≡ neg_ℤ (tapered_of self.now) }
        ensures law { (man_on : Men) → evaluation (mirrored man_on) ≡ neg_ℤ (evaluation man_on) }
    {
        Sum {
            middle: -self.middle,
            end: -self.end,
            weights: self.weights,
        }
    }

    // With so much more in each sum.
    #[inline(always)]
    fn plus(&self, middle: i32, end: i32, weights: i32) -> Sum
        requires { AreInRange (plus self.now middle end weights) }
        ensures { result ≡ plus self.now middle end weights }
    {
        Sum {
            middle: self.middle + middle,
            end: self.end + end,
            weights: self.weights + weights,
        }
    }

    // With what the man counts on the square.
    #[inline(always)]
    fn with_man(&self, man: Man, square: Square) -> Sum
        requires { AreInRange (with_man self.now man square) }
        ensures { result ≡ with_man self.now man square }
    {
        let (middle, end) = (middle_for_white(man, square), end_for_white(man, square));
        self.plus(middle, end, weight(man.kind))
    }

    // Without what the man counts on the square.
    #[inline(always)]
    fn without_man(&self, man: Man, square: Square) -> Sum
        requires { AreInRange (without_man self.now man square) }
        ensures { result ≡ without_man self.now man square }
    {
        let (middle, end) = (middle_for_white(man, square), end_for_white(man, square));
        self.plus(-middle, -end, -weight(man.kind))
    }

    // The same sums.
    #[inline(always)]
    fn as_they_are(&self) -> Sum
        ensures { result ≡ self.now }
    {
        Sum {
            middle: self.middle,
            end: self.end,
            weights: self.weights,
        }
    }

    // The sums without the man on the square, if there is one.
    #[inline(always)]
    fn cleared(&self, placement: &Placement, at: Square) -> Sum
        requires agrees { AreSumsOf self.now placement.now }
        ensures { AreSumsOf result (map.remove placement.now at) }
    {
        match placement.get(at) {
            Some(man) => self.without_man(man, at),
            None => self.as_they_are(),
        }
    }

    /// The sums of the board after the man on one square has gone to another, where it takes the man that is there: without a change of the
    /// placement, which is the one that these are the sums of.
    #[inline(always)]
    pub fn after(&self, placement: &Placement, man: Man, from: Square, to: Square) -> Sum
        requires agrees { AreSumsOf self.now placement.now }
        requires here { man_at placement.now from ≡ Some man }
        requires apart { from ≢ to }
        ensures { AreSumsOf result (map.insert (map.remove (map.remove placement.now to) from) to man) }
    {
        self.cleared(placement, to)
            .without_man(man, from)
            .with_man(man, to)
    }

    // Adds what the man counts on the square.
    #[inline(always)]
    fn add(&mut self, man: Man, square: Square)
        requires { AreInRange (with_man self.old man square) }
        ensures { self.new ≡ with_man self.old man square }
    {
        *self = self.with_man(man, square);
    }

    // Takes away what the man counts on the square.
    #[inline(always)]
    fn subtract(&mut self, man: Man, square: Square)
        requires { AreInRange (without_man self.old man square) }
        ensures { self.new ≡ without_man self.old man square }
    {
        *self = self.without_man(man, square);
    }
}

impl Follower for Sum {
    ghost use Rattle.chess_eval.specs.Evaluation.{AreSumsOf};
    ghost use Rattle.std.specs.Prelude.{⊤, []};
    ghost use Rattle.std.proofs.Common.{refl, arith};

    ghost agrees = { AreSumsOf };

    // No ticks are counted.
    ghost works = { λ _ _ _ _ _. ⊤ };

    ghost begins = { λ old new. new ≡ old };

    ghost ticks = { λ _. 0 };

    ghost words = { λ _. [] };

    ghost suffices = { λ _ _ _. ⊤ };

    fn put(&mut self, before: &Placement, at: Square, man: Man) {
        self.add(man, at);
    }

    fn clear(&mut self, before: &Placement, at: Square) {
        if let Some(man) = before.get(at) {
            self.subtract(man, at);
        }
    }

    fn replace(&mut self, before: &Placement, at: Square, man: Man) {
        if let Some(other) = before.get(at) {
            self.subtract(other, at);
            self.add(man, at);
        }
    }

    fn begin(&mut self) {}

    fn copied(&self) -> Sum {
        Sum {
            middle: self.middle,
            end: self.end,
            weights: self.weights,
        }
    }

    fn sees(&self, placement: &Placement, colour: Colour, square: Square) -> bool {
        is_attacked(placement, colour, square)
    }

    ghost none = { λ _ _. tt };

    ghost on = { λ _ _ _ _ _ _ _ _ _ _. tt };

    ghost within = { λ _ _ _ _ _ _ _ _. tt };

    ghost seen = { λ _ _ _ _ _ _ _ _ _. (refl, Prim.omega arith, tt) };

    ghost more = { λ _ _ _ _ _ _. tt };
}
