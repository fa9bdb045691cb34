//! The key of a placement, which follows its changes one man at a time.

ghost use Rattle.std.specs.Prelude.{◌≡◌, ◌<◌, None, IsSome, IsTrue, nat_eq, ⊤};
ghost use Rattle.std.proofs.Common.{rules};
ghost use Rattle.std.specs.Cmp.Rules.{comparing};
ghost use Rattle.std.specs.FinMap as map;
ghost use Rattle.chess_types.specs.board.Board.{Board, man_at};
ghost use Rattle.chess_types.specs.board.Men.{men_of};
ghost use Rattle.chess_key.specs.Keys.{word_on as word_on_of, key_of};

use crate::table::KeyTable;
use chess_attack::{Follower, is_attacked};
use chess_types::{Colour, Man, Placement, Square};
use std::marker::Model;

/// The word of what stands on the square; 0 where nothing does.
fn word_on(table: &KeyTable, placement: &Placement, square: Square) -> u64
    ensures { result ≡ word_on_of table.now (man_at placement.now) square }
{
    match placement.get(square) {
        None => 0,
        Some(man) => table.word(man, square),
    }
}

/// The key after the man is put on the square.
fn after_put(table: &KeyTable, number: u64, before: &Placement, at: Square, man: Man) -> u64
    requires empty { map.get before.now at ≡ None }
    requires agrees { number ≡ key_of table.now (man_at before.now) }
    ensures { result ≡ key_of table.now (man_at (map.insert before.now at man)) }
{
    number.wrapping_add(table.word(man, at))
}

/// The key after the square is cleared.
fn after_clear(table: &KeyTable, number: u64, before: &Placement, at: Square) -> u64
    requires { number ≡ key_of table.now (man_at before.now) }
    ensures { result ≡ key_of table.now (man_at (map.remove before.now at)) }
{
    number.wrapping_sub(word_on(table, before, at))
}

/// The key after the man takes the place of the one on the square.
fn after_replace(table: &KeyTable, number: u64, before: &Placement, at: Square, man: Man) -> u64
    requires { number ≡ key_of table.now (man_at before.now) }
    ensures { result ≡ key_of table.now (man_at (map.insert before.now at man)) }
{
    after_clear(table, number, before, at).wrapping_add(table.word(man, at))
}

/// The key of a placement by the words of a table, kept through its changes. Contracts see the words and the number.
#[derive(Drop)]
pub struct Key<'k> {
    table: &'k KeyTable,
    number: u64,
}

impl<'k> Model for Key<'k> {
    ghost use Rattle.chess_key.specs.Keys.{KeptKey};

    ghost Value = { KeptKey };

    ghost view = { λ k. record { words = k.table.now; number = k.number } };
}

impl<'k> Key<'k> {
    ghost use Rattle.chess_key.specs.Keys.{IsKeyOf};

    /// The key of the empty board, 0 by any table.
    pub fn empty(table: &'k KeyTable) -> Key<'k>
        ensures words { result.words ≡ table.now }
        ensures zero { result.number ≡ 0 }
        ensures agrees { IsKeyOf result map.empty }
    {
        Key { table, number: 0 }
    }

    /// The key of the placement.
    pub fn of(table: &'k KeyTable, placement: &Placement) -> Key<'k>
        ensures words { result.words ≡ table.now }
        ensures agrees { IsKeyOf result placement.now }
    {
        let mut number = 0u64;
        for square in 0..64u8 {
            number = number.wrapping_add(word_on(table, placement, Square::from_index(square)));
        }
        Key { table, number }
    }
}

impl<'k> Follower for Key<'k> {
    ghost use Rattle.chess_key.specs.Keys.{IsKeyOf};
    ghost use Rattle.std.proofs.Common.{refl, ap, arith, ◌∙◌};
    ghost use Rattle.chess_key.specs.Keys.{KeptKey};

    ghost agrees = { IsKeyOf };

    // The words stay; no ticks are counted.
    ghost works = { λ old new _ _ _. new.words ≡ old.words };

    ghost begins = { λ old new. new ≡ old };

    ghost ticks = { λ _. 0 };

    ghost words = { λ key. key.words };

    ghost suffices = { λ _ _ _. ⊤ };

    fn put(&mut self, before: &Placement, at: Square, man: Man)
        requires empty { map.get before.now at ≡ None }
        requires room { men_of before.now man.colour < 16 }
        requires agrees { IsKeyOf self.old before.now }
        ensures agrees { IsKeyOf self.new (map.insert before.now at man) }
        ensures words { self.new.words ≡ self.old.words }
    {
        self.number = after_put(self.table, self.number, before, at, man);
    }

    fn clear(&mut self, before: &Placement, at: Square)
        requires occupied { IsSome (map.get before.now at) }
        requires agrees { IsKeyOf self.old before.now }
        ensures agrees { IsKeyOf self.new (map.remove before.now at) }
        ensures words { self.new.words ≡ self.old.words }
    {
        self.number = after_clear(self.table, self.number, before, at);
    }

    fn replace(&mut self, before: &Placement, at: Square, man: Man)
        requires occupied { IsSome (map.get before.now at) }
        requires room { men_of (map.remove before.now at) man.colour < 16 }
        requires agrees { IsKeyOf self.old before.now }
        ensures agrees { IsKeyOf self.new (map.insert before.now at man) }
        ensures words { self.new.words ≡ self.old.words }
    {
        self.number = after_replace(self.table, self.number, before, at, man);
    }

    fn begin(&mut self) {}

    fn copied(&self) -> Key<'k> {
        Key {
            table: self.table,
            number: self.number,
        }
    }

    fn sees(&self, placement: &Placement, colour: Colour, square: Square) -> bool {
        is_attacked(placement, colour, square)
    }

    ghost none = { λ _ _. refl };

    ghost on = { λ _ _ _ _ _ _ _ _ f g. g ∙ f };

    ghost within = { λ _ _ _ _ _ _ _ f. f };

    ghost seen = { λ _ _ _ _ _ _ _ f g. (g ∙ ap (λ (key : KeptKey). key.words) f, Prim.omega arith, tt) };

    ghost more = { λ _ _ _ _ _ _. tt };
}

impl<'k> PartialEq for Key<'k> {
    ghost use Rattle.chess_key.specs.Keys.{IsKeyOf};

    ghost eq = { λ a b. nat_eq a.number b.number };

    ghost laws = { Prim.search (comparing, rules) };

    /// Whether the numbers are equal; they are for equal boards by equal words.
    fn eq(&self, other: &Key<'k>) -> bool
        ensures value { result ≡ nat_eq self.now.number other.now.number }
        ensures equal_boards { self.now.words ≡ other.now.words → (board : Board) → IsKeyOf self.now board → IsKeyOf other.now board → IsTrue result }
    {
        self.number == other.number
    }
}

impl<'k> Eq for Key<'k> {
    ghost laws = { Prim.search rules };
}
