//! Attack counts, evaluation and key as one follower of a placement.

ghost use Rattle.std.specs.Prelude.{◌≡◌, ◌<◌, None, IsSome};
ghost use Rattle.std.specs.FinMap as map;
ghost use Rattle.chess_types.specs.board.Men.{men_of};
ghost use Rattle.chess_types.specs.board.Position.{start};
ghost use Rattle.chess_play.specs.steps.Followed.{AreKept, Works};

use chess_attack::{Counts, Follower};
use chess_eval::Sum;
use chess_key::{Key, KeyTable};
use chess_types::{Colour, Man, Placement, Square};
use std::marker::Model;

/// What is kept beside a placement: its attack counts, its evaluation and its key.
#[derive(Drop)]
pub struct Followers<'k> {
    pub counts: Counts,
    pub sum: Sum,
    pub key: Key<'k>,
}

impl<'k> Model for Followers<'k> {
    ghost use Rattle.chess_play.specs.steps.Followed.{KeptNumbers};

    ghost Value = { KeptNumbers };

    ghost view = { λ f. record { counts = f.counts; sums = f.sum; key = f.key } };
}

impl<'k> Followers<'k> {
    ghost use Rattle.chess_types.specs.board.Board.{Board};

    /// Those of the placement in which a game begins (FIDE Laws 2.3), with no tick.
    pub fn start(table: &'k KeyTable) -> Followers<'k>
        ensures agrees { AreKept result start.placement }
        ensures words { result.key.words ≡ table.now }
        ensures ticks { result.counts.ticks ≡ 0 }
    {
        Followers {
            counts: Counts::start(),
            sum: Sum::start(),
            key: Key::of(table, &Placement::start()),
        }
    }

    /// Those of the placement, with no tick.
    pub fn of(placement: &Placement, table: &'k KeyTable) -> Followers<'k>
        ensures agrees { AreKept result placement.now }
        ensures words { result.key.words ≡ table.now }
        ensures ticks { result.counts.ticks ≡ 0 }
    {
        let mut counts = Counts::of(placement);
        counts.begin();
        Followers {
            counts,
            sum: Sum::of(placement),
            key: Key::of(table, placement),
        }
    }
}

impl<'k> Follower for Followers<'k> {
    ghost use Rattle.chess_play.specs.steps.WorkLaws.{works_none, works_on, works_within, works_seen};
    ghost use Rattle.std.specs.Prelude.{◌≤◌};
    ghost use Rattle.std.proofs.Common.{arith};
    ghost use Rattle.chess_types.specs.board.Board.{man_at};
    ghost use Rattle.chess_attack.specs.KeptCounts.{changed_of};

    ghost agrees = { AreKept };

    ghost works = { Works };

    ghost begins = { λ old new. (new.key.words ≡ old.key.words) × (new.counts.ticks ≡ 0) };

    ghost ticks = { λ kept. kept.counts.ticks };

    ghost words = { λ kept. kept.key.words };

    ghost suffices = { λ before after n. changed_of (man_at before) (man_at after) ≤ n };

    fn put(&mut self, before: &Placement, at: Square, man: Man)
        requires empty { map.get before.now at ≡ None }
        requires room { men_of before.now man.colour < 16 }
        requires agrees { AreKept self.old before.now }
        ensures agrees { AreKept self.new (map.insert before.now at man) }
        ensures works { Works self.old self.new before.now (map.insert before.now at man) 54 }
    {
        self.counts.put(before, at, man);
        self.sum.put(before, at, man);
        self.key.put(before, at, man);
    }

    fn clear(&mut self, before: &Placement, at: Square)
        requires occupied { IsSome (map.get before.now at) }
        requires agrees { AreKept self.old before.now }
        ensures agrees { AreKept self.new (map.remove before.now at) }
        ensures works { Works self.old self.new before.now (map.remove before.now at) 54 }
    {
        self.counts.clear(before, at);
        self.sum.clear(before, at);
        self.key.clear(before, at);
    }

    fn replace(&mut self, before: &Placement, at: Square, man: Man)
        requires occupied { IsSome (map.get before.now at) }
        requires room { men_of (map.remove before.now at) man.colour < 16 }
        requires agrees { AreKept self.old before.now }
        ensures agrees { AreKept self.new (map.insert before.now at man) }
        ensures works { Works self.old self.new before.now (map.insert before.now at man) 54 }
    {
        self.counts.replace(before, at, man);
        self.sum.replace(before, at, man);
        self.key.replace(before, at, man);
    }

    fn begin(&mut self) {
        self.counts.begin();
    }

    fn copied(&self) -> Followers<'k> {
        Followers {
            counts: self.counts.copied(),
            sum: self.sum.copied(),
            key: self.key.copied(),
        }
    }

    #[inline(always)]
    fn sees(&self, placement: &Placement, colour: Colour, square: Square) -> bool {
        self.counts.sees(placement, colour, square)
    }

    ghost none = { works_none };

    ghost on = { works_on };

    ghost within = { works_within };

    ghost seen = { works_seen };

    ghost more = { λ x y m n le s. Prim.omega (arith, le, s) };
}
