//! Two followers of one placement, as a single one.

use crate::follower::Follower;
use chess_types::{Colour, Man, Placement, Square};

/// Two things are kept, one beside the other; the first is asked about attacks.
#[derive(Drop)]
pub struct Both<A, B> {
    pub first: A,
    pub second: B,
}

impl<A: Follower, B: Follower> Follower for Both<A, B> {
    ghost use Rattle.std.specs.Prelude.{◌++◌, max};
    ghost use Rattle.chess_attack.specs.steps.TickLaws.{seen_both};

    ghost agrees = { λ kept board. A.agrees kept.first board × B.agrees kept.second board };

    ghost works = { λ old new before after most. A.works old.first new.first before after most × B.works old.second new.second before after most };

    ghost begins = { λ old new. A.begins old.first new.first × B.begins old.second new.second };

    ghost ticks = { λ kept. max (A.ticks kept.first) (B.ticks kept.second) };

    ghost words = { λ kept. A.words kept.first ++ B.words kept.second };

    ghost suffices = { λ before after n. A.suffices before after n × B.suffices before after n };

    fn put(&mut self, before: &Placement, at: Square, man: Man) {
        self.first.put(before, at, man);
        self.second.put(before, at, man);
    }

    fn clear(&mut self, before: &Placement, at: Square) {
        self.first.clear(before, at);
        self.second.clear(before, at);
    }

    fn replace(&mut self, before: &Placement, at: Square, man: Man) {
        self.first.replace(before, at, man);
        self.second.replace(before, at, man);
    }

    fn begin(&mut self) {
        self.first.begin();
        self.second.begin();
    }

    fn copied(&self) -> Both<A, B> {
        Both {
            first: self.first.copied(),
            second: self.second.copied(),
        }
    }

    #[inline(always)]
    fn sees(&self, placement: &Placement, colour: Colour, square: Square) -> bool {
        self.first.sees(placement, colour, square)
    }

    ghost none = { λ a x. (A.none a.first x, B.none a.second x) };

    ghost on = { λ a b c x y z m n f g. (A.on a.first b.first c.first x y z m n f.0 g.0, B.on a.second b.second c.second x y z m n f.1 g.1) };

    ghost within = { λ a b x y m n le f. (A.within a.first b.first x y m n le f.0, B.within a.second b.second x y m n le f.1) };

    ghost seen = { λ a b c x y m low f g. seen_both (A.suffices x y) (B.suffices x y) (A.more x y) (B.more x y) (A.seen a.first b.first c.first x y m low f.0 g.0) (B.seen a.second b.second c.second x y m low f.1 g.1) };

    ghost more = { λ x y m n le s. (A.more x y m n le s.0, B.more x y m n le s.1) };
}
