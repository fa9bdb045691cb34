//! The follower that keeps nothing: attacks are looked up on the board.

use crate::attacked::is_attacked;
use crate::follower::Follower;
use chess_types::{Colour, Man, Placement, Square};

/// Nothing is kept.
#[derive(Clone, Copy, Drop)]
pub struct Nothing;

impl Follower for Nothing {
    ghost use Rattle.std.specs.Prelude.{⊤, []};
    ghost use Rattle.std.proofs.Common.{refl, arith};

    ghost agrees = { λ _ _. ⊤ };

    ghost works = { λ _ _ _ _ _. ⊤ };

    ghost begins = { λ _ _. ⊤ };

    ghost ticks = { λ _. 0 };

    ghost words = { λ _. [] };

    ghost suffices = { λ _ _ _. ⊤ };

    #[inline(always)]
    fn put(&mut self, _before: &Placement, _at: Square, _man: Man) {}

    #[inline(always)]
    fn clear(&mut self, _before: &Placement, _at: Square) {}

    #[inline(always)]
    fn replace(&mut self, _before: &Placement, _at: Square, _man: Man) {}

    #[inline(always)]
    fn begin(&mut self) {}

    fn copied(&self) -> Nothing {
        Nothing
    }

    #[inline(always)]
    fn sees(&self, placement: &Placement, colour: Colour, square: Square) -> bool {
        is_attacked(placement, colour, square)
    }

    ghost none = { λ _ _. tt };

    ghost on = { λ _ _ _ _ _ _ _ _ _ _. tt };

    ghost within = { λ _ _ _ _ _ _ _ _. tt };

    ghost seen = { λ _ _ _ _ _ _ _ _ _. (refl, Prim.omega arith, tt) };

    ghost more = { λ _ _ _ _ _ _. tt };
}
